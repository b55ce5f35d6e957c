//! The blocks of an explanation in its text.

ghost use Rattle.std.specs.Prelude.{◌≡◌, ◌++◌, OnOk, length, map, take};
ghost use Rattle.std.specs.List.{flat_map};
ghost use Rattle.schema_tree.specs.Entries.{shape_at};
ghost use Rattle.explanation_texts.specs.Reasons.{block_lines, block_text, blocks_text, cause_lines, heading, occs_of, reason_lines, told_cause_text, told_reason_text};

use crate::conditions::push_block_number;
use crate::folding::shown_reasons;
use crate::setting::Setting;
use crate::words::{push_term, raised, shown};
use explanations::explanation::{Block, ToldCause, ToldReason};
use rdf_terms::terms::TermId;
use schema_tree::schema::{Occurrence, ShapeId};
use std::alloc::AllocError;

/// How far in a line of a block stands.
const MARGIN: &[u8] = b"  ";

/// The first reasons, at most so many.
fn first_reasons<'a>(reasons: &'a [&'a ToldReason], limit: usize) -> &'a [&'a ToldReason]
    ensures { map (λ r. r.now) result.now ≡ take limit (map (λ r. r.now) reasons.now) }
{
    shown(reasons, limit)
}

/// How many reasons there are.
fn count_of(reasons: &[&ToldReason]) -> usize
    ensures { result ≡ length (map (λ r. r.now) reasons.now) }
{
    reasons.len()
}

impl Setting<'_> {
    /// The triple constraints of a Shape.
    pub(crate) fn occs(&self, shape: ShapeId) -> &[Occurrence]
        ensures { result.now ≡ occs_of (shape_at self.now.schema.now shape) }
    {
        match self.schema.shapes.as_slice().get(shape.0 as usize) {
            Some(shape) => shape.occs.as_slice(),
            None => &[],
        }
    }

    /// Appends reasons.
    fn push_reason_lines(
        &self,
        occs: &[Occurrence],
        told: &[&ToldReason],
        out: &mut Vec<u8>,
    ) -> Result<(), AllocError>
        ensures { OnOk result (out.new.items ≡ out.old.items ++ flat_map (told_reason_text self.now occs.now) (map (λ r. r.now) told.now)) }
    {
        for reason in told {
            self.push_reason(occs, reason, out)?;
        }
        Ok(())
    }

    /// Appends the reasons of a node with a Shape.
    fn push_reasons(
        &self,
        occs: &[Occurrence],
        told: &[ToldReason],
        out: &mut Vec<u8>,
    ) -> Result<(), AllocError>
        ensures { OnOk result (out.new.items ≡ out.old.items ++ reason_lines self.now occs.now told.now) }
    {
        let reasons = shown_reasons(self.alloc, told)?;
        self.push_reason_lines(occs, first_reasons(reasons.as_slice(), self.limit), out)?;
        self.push_more(MARGIN, count_of(reasons.as_slice()), out)
    }

    /// Appends causes.
    fn push_cause_lines(
        &self,
        node: TermId,
        told: &[ToldCause],
        out: &mut Vec<u8>,
    ) -> Result<(), AllocError>
        ensures { OnOk result (out.new.items ≡ out.old.items ++ flat_map (told_cause_text self.now node) told.now) }
    {
        for cause in told {
            self.push_cause(node, cause, out)?;
        }
        Ok(())
    }

    /// Appends the causes of a node with an expression.
    fn push_causes(
        &self,
        node: TermId,
        told: &[ToldCause],
        out: &mut Vec<u8>,
    ) -> Result<(), AllocError>
        ensures { OnOk result (out.new.items ≡ out.old.items ++ cause_lines self.now node told.now) }
    {
        self.push_cause_lines(node, shown(told, self.limit), out)?;
        self.push_more(MARGIN, told.len(), out)
    }

    /// Appends the lines of a block.
    pub(crate) fn push_block_lines(
        &self,
        block: &Block,
        out: &mut Vec<u8>,
    ) -> Result<(), AllocError>
        ensures { OnOk result (out.new.items ≡ out.old.items ++ block_lines self.now block.now) }
    {
        match block {
            Block::Reasons(pair, told) => {
                self.push_reasons(self.occs(pair.shape), told.as_slice(), out)
            }
            Block::Causes(node, _, told) => self.push_causes(*node, told.as_slice(), out),
        }
    }

    /// Appends what a block is about.
    fn push_heading(&self, block: &Block, out: &mut Vec<u8>) -> Result<(), AllocError>
        ensures { OnOk result (out.new.items ≡ out.old.items ++ heading self.now block.now) }
    {
        match block {
            Block::Reasons(pair, _) => {
                push_term(self.alloc, self.terms, pair.node, out)?;
                self.push_lack(pair.shape, out)
            }
            Block::Causes(node, expr, _) => {
                push_term(self.alloc, self.terms, *node, out)?;
                self.push_failure(*expr, out)
            }
        }
    }

    /// Appends a block.
    fn push_block(&self, number: usize, block: &Block, out: &mut Vec<u8>) -> Result<(), AllocError>
        ensures { OnOk result (out.new.items ≡ out.old.items ++ block_text self.now number block.now) }
    {
        push_block_number(self.alloc, number, out)?;
        out.extend_from_slice(b" ")?;
        self.push_heading(block, out)?;
        out.extend_from_slice(b"\n")?;
        self.push_block_lines(block, out)
    }

    /// Appends blocks that are numbered from this number on.
    pub(crate) fn push_blocks(
        &self,
        number: usize,
        blocks: &[Block],
        out: &mut Vec<u8>,
    ) -> Result<(), AllocError>
        ensures { OnOk result (out.new.items ≡ out.old.items ++ blocks_text self.now number 0 blocks.now) }
    {
        for place in 0..blocks.len() {
            self.push_block(raised(number, place)?, &blocks[place], out)?;
        }
        Ok(())
    }
}
