//! The text of an explanation.

ghost use Rattle.std.specs.Prelude.{◌≡◌, ◌++◌, OnOk, Some, codes, if◌then◌else◌, nat_lt};
ghost use Rattle.explanation_texts.specs.Answers.{answer_text, association_text, below_text, explanation_text, first_blocks, satisfied_text, told_text, unsatisfied_text, why_mark};
ghost use Rattle.std.specs.Option.{option_copied};
ghost use Rattle.explanation_texts.specs.Conditions.{block_number, why_text};
ghost use Rattle.explanations.specs.declared.explanation.Why.TheVariants.{Part};

use crate::conditions::push_block_number;
use crate::setting::Setting;
use crate::words::{push_term, raised};
use explanations::explanation::{Block, Explanation, Told, Why};
use node_constraint::ConstraintPart;
use schema_tree::verdicts::Verdict;
use shape_map::Association;
use std::alloc::AllocError;

/// What stands before the number of a block, so many blocks standing before.
fn see_word(number: usize, before: usize) -> &'static [u8]
    ensures { result.now ≡ (if nat_lt before number then codes " " else codes ", see ") }
{
    if before < number { b" " } else { b", see " }
}

impl Setting<'_> {
    /// Appends a node, a mark and the target that it was asked for.
    fn push_association(
        &self,
        association: &Association,
        mark: &[u8],
        out: &mut Vec<u8>,
    ) -> Result<(), AllocError>
        ensures { OnOk result (out.new.items ≡ out.old.items ++ association_text self.now association.now mark.now) }
    {
        push_term(self.alloc, self.terms, association.node, out)?;
        out.extend_from_slice(mark)?;
        let target = association.target.text(self.alloc)?;
        out.extend_from_slice(target.as_bytes())
    }

    /// Appends, below the line of an association, the part of a node constraint that does not hold.
    fn push_part_below(
        &self,
        association: &Association,
        part: ConstraintPart,
        out: &mut Vec<u8>,
    ) -> Result<(), AllocError>
        ensures { OnOk result (out.new.items ≡ out.old.items ++
            (codes "\n  " ++ (why_text self.now association.now.node association.now.expr (Part part) ++ codes "\n"))) }
    {
        out.extend_from_slice(b"\n  ")?;
        self.push_why(association.node, association.expr, Why::Part(part), out)?;
        out.extend_from_slice(b"\n")
    }

    /// Appends the number of the block that tells why, so many blocks standing before.
    fn push_see_mark(
        &self,
        before: usize,
        number: usize,
        out: &mut Vec<u8>,
    ) -> Result<(), AllocError>
        ensures { OnOk result (out.new.items ≡ out.old.items ++
            ((if nat_lt before number then codes " " else codes ", see ") ++ (block_number number ++ codes "\n"))) }
    {
        out.extend_from_slice(see_word(number, before))?;
        push_block_number(self.alloc, number, out)?;
        out.extend_from_slice(b"\n")
    }

    /// Appends the rest of the line of an association, so many blocks standing before.
    fn push_why_mark(
        &self,
        association: &Association,
        before: usize,
        why: Option<Why>,
        out: &mut Vec<u8>,
    ) -> Result<(), AllocError>
        ensures { OnOk result (out.new.items ≡ out.old.items ++ why_mark self.now association.now before why) }
    {
        match why {
            None => out.extend_from_slice(b"\n"),
            Some(Why::Part(part)) => self.push_part_below(association, part, out),
            Some(Why::See(number)) => self.push_see_mark(before, number, out),
        }
    }

    /// Appends blocks, of which the first has no heading, so many blocks standing before.
    fn push_first_blocks(
        &self,
        before: usize,
        blocks: &[Block],
        out: &mut Vec<u8>,
    ) -> Result<(), AllocError>
        ensures { OnOk result (out.new.items ≡ out.old.items ++ first_blocks self.now before blocks.now) }
    {
        let Some((first, others)) = blocks.split_first() else {
            return Ok(());
        };
        self.push_block_lines(first, out)?;
        self.push_blocks(raised(before, 2)?, others, out)
    }

    /// Appends the number of a block that stands before.
    fn push_earlier(&self, number: usize, out: &mut Vec<u8>) -> Result<(), AllocError>
        ensures { OnOk result (out.new.items ≡ out.old.items ++ (codes "see " ++ block_number number)) }
    {
        out.extend_from_slice(b"see ")?;
        push_block_number(self.alloc, number, out)
    }

    /// Appends why an association is not as asked, so many blocks standing before.
    pub(crate) fn push_below(
        &self,
        before: usize,
        association: &Association,
        told: &Told,
        out: &mut Vec<u8>,
    ) -> Result<(), AllocError>
        ensures { OnOk result (out.new.items ≡ out.old.items ++ below_text self.now before association.now told.now.why told.now.blocks) }
    {
        match told.why {
            None => Ok(()),
            Some(Why::Part(part)) => {
                self.push_why(association.node, association.expr, Why::Part(part), out)
            }
            Some(Why::See(number)) if before < number => {
                self.push_blocks(raised(before, 1)?, told.blocks.as_slice(), out)
            }
            Some(Why::See(number)) => self.push_earlier(number, out),
        }
    }

    /// Appends an association whose node was asked to satisfy its expression and does not, so many blocks standing before.
    fn push_unsatisfied(
        &self,
        before: usize,
        association: &Association,
        told: &Told,
        out: &mut Vec<u8>,
    ) -> Result<(), AllocError>
        ensures { OnOk result (out.new.items ≡ out.old.items ++ unsatisfied_text self.now before association.now told.now.why told.now.blocks) }
    {
        self.push_association(association, b"@!", out)?;
        self.push_why_mark(association, before, told.why, out)?;
        self.push_first_blocks(before, told.blocks.as_slice(), out)
    }

    /// Appends an association whose node was asked not to satisfy its expression and does.
    fn push_satisfied(&self, association: &Association, out: &mut Vec<u8>) -> Result<(), AllocError>
        ensures { OnOk result (out.new.items ≡ out.old.items ++ satisfied_text self.now association.now) }
    {
        self.push_association(association, b"@", out)?;
        out.extend_from_slice(b"\n")
    }

    /// Appends an association and what is told of it, so many blocks standing before.
    fn push_answer(
        &self,
        before: usize,
        association: &Association,
        told: &Told,
        out: &mut Vec<u8>,
    ) -> Result<(), AllocError>
        ensures { OnOk result (out.new.items ≡ out.old.items ++
            answer_text self.now before association.now association.now.want told.now.verdict told.now.why told.now.blocks) }
    {
        match (association.want, told.verdict) {
            (true, Verdict::No) => self.push_unsatisfied(before, association, told, out),
            (false, Verdict::Yes) => self.push_satisfied(association, out),
            _ => Ok(()),
        }
    }

    /// Appends an association, if it is there, and what is told of it, so many blocks standing before.
    fn push_told(
        &self,
        before: usize,
        association: Option<&Association>,
        told: &Told,
        out: &mut Vec<u8>,
    ) -> Result<(), AllocError>
        ensures { OnOk result (out.new.items ≡ out.old.items ++ told_text self.now before (option_copied association.entry) told.now) }
    {
        match association {
            Some(association) => self.push_answer(before, association, told, out),
            None => Ok(()),
        }
    }

    /// Appends what is told of associations.
    fn push_answers(
        &self,
        asked: &[Association],
        answers: &[Told],
        out: &mut Vec<u8>,
    ) -> Result<(), AllocError>
        ensures { OnOk result (out.new.items ≡ out.old.items ++ explanation_text self.now asked.now answers.now) }
    {
        let mut before = 0;
        for place in 0..answers.len() {
            let told = &answers[place];
            self.push_told(before, asked.get(place), told, out)?;
            before = raised(before, told.blocks.as_slice().len())?;
        }
        Ok(())
    }
}

/// Appends the text of an explanation: each association that is not as asked, on a line of its own as in a result shape map (ShapeMap
/// Structure and Language, section 4), and below it the blocks that are mentioned there first.
pub fn write_explanation(
    setting: &Setting,
    asked: &[Association],
    explanation: &Explanation,
    out: &mut Vec<u8>,
) -> Result<(), AllocError>
    ensures written { OnOk result (out.new.items ≡ out.old.items ++ explanation_text setting.now asked.now explanation.now.answers) }
{
    setting.push_answers(asked, explanation.answers.as_slice(), out)
}
