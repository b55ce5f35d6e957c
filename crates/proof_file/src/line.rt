//! The lines of a proof's text.

ghost use Rattle.std.specs.Prelude.{encode_utf8_all};
ghost use Rattle.std.specs.List.{AllByRecursion};
ghost use Rattle.schema_tree.specs.Targets.{IsTextTarget, target_text};
ghost use Rattle.proof_file.specs.Text.{record_fields, line_text, IsNumber};
ghost use Rattle.rdf_terms.specs.Values.{IsWholeTerm};
ghost use Rattle.rdf_terms.specs.Written.{term_text};
ghost use Rattle.proof_file.specs.Reading.{Reads, fields, strata_fields, IsPlus, IsMinus, IsClaim, IsClaimOrHeadLine, IsHeadLine, IsWholeLine, IsScalars, claim_rest};

use crate::fields::{Stop, are_rising, cut, digest, number, numbers, places, states};
use crate::head::{Digest256, Part};
use crate::{Claim, Record, RecordKind};
use rdf_terms::items::Items;
use rdf_terms::reader::{read_term, within_brackets};
use rdf_terms::terms::Term;
use rdf_terms::text::Text;
use schema_tree::labels::Label;
use schema_tree::schema::Target;
use std::alloc::Global;

/// A line of a proof's text between the first and the last.
#[derive(Debug, Drop)]
pub enum Line {
    /// The digest of a file, in a head.
    Digest(Part, Digest256),
    /// The strata, in a head.
    Strata(Items<u32>),
    /// A term, whose number is the number of node lines before it.
    Node(Term),
    /// A stratum, to which the records that follow belong.
    Section(u32),
    /// A record.
    Record(Record),
    /// A claim.
    Claim(Claim),
}

/// The line of this text, which has no line feed.
pub(crate) fn read_line(alloc: Global, text: &str) -> Result<Line, Stop>
    ensures { Reads line_text IsWholeLine text.now result }
{
    if let Some(term) = text.strip_prefix("n ") {
        return Ok(Line::Node(read_node(alloc, term)?));
    }
    if let Some(stratum) = text.strip_prefix("s ") {
        return Ok(Line::Section(number(stratum)?));
    }
    if let Some(fields) = text.strip_prefix("+ ") {
        return Ok(Line::Record(confirming(alloc, fields)?));
    }
    if let Some(fields) = text.strip_prefix("- ") {
        return Ok(Line::Record(refuting(alloc, fields)?));
    }
    read_claim_or_head_line(alloc, text)
}

/// The line of a claim, or of a head, of this text.
fn read_claim_or_head_line(alloc: Global, text: &str) -> Result<Line, Stop>
    ensures { Reads line_text IsClaimOrHeadLine text.now result }
{
    if let Some(claim) = text.strip_prefix("c + ") {
        return Ok(Line::Claim(read_claim(alloc, true, claim)?));
    }
    if let Some(claim) = text.strip_prefix("c - ") {
        return Ok(Line::Claim(read_claim(alloc, false, claim)?));
    }
    read_head_line(alloc, text)
}

/// The line of a head of this text.
fn read_head_line(alloc: Global, text: &str) -> Result<Line, Stop>
    ensures { Reads line_text IsHeadLine text.now result }
{
    if let Some(field) = text.strip_prefix("f s ") {
        return Ok(Line::Digest(Part::Schema, digest(field)?));
    }
    if let Some(field) = text.strip_prefix("f i ") {
        return Ok(Line::Digest(Part::Import, digest(field)?));
    }
    if let Some(field) = text.strip_prefix("f d ") {
        return Ok(Line::Digest(Part::Data, digest(field)?));
    }
    Ok(Line::Strata(read_strata(alloc, text)?))
}

/// The strata of a line.
fn read_strata(alloc: Global, text: &str) -> Result<Items<u32>, Stop>
    ensures { Reads strata_fields (AllByRecursion IsNumber) (fields 32 text.now) result }
{
    let (mark, strata) = cut(text, ' ');
    if mark != "k" {
        return Err(Stop::Bad);
    }
    numbers(alloc, ' ', strata)
}

/// The term of a node line.
fn read_node(alloc: Global, text: &str) -> Result<Term, Stop>
    ensures { Reads term_text IsWholeTerm text.now result }
{
    match read_term(alloc, text)? {
        Some(term) => Ok(term),
        None => Err(Stop::Bad),
    }
}

/// A copy of the text.
fn owned(alloc: Global, text: &str) -> Result<Text, Stop>
    ensures { Reads encode_utf8_all IsScalars text.now result }
{
    Ok(Text::from_str(alloc, text)?)
}

/// A record that confirms, without its mark.
fn confirming(alloc: Global, text: &str) -> Result<Record, Stop>
    ensures { Reads record_fields IsPlus (fields 32 text.now) result }
{
    let (node, rest) = cut(text, ' ');
    let node = number(node)?;
    let Some(rest) = rest else {
        return Err(Stop::Bad);
    };
    let (shape, rest) = cut(rest, ' ');
    let shape = number(shape)?;
    let places = places(alloc, rest)?;
    Ok(Record {
        node,
        shape,
        kind: RecordKind::Plus(places),
    })
}

/// A record that refutes, without its mark.
fn refuting(alloc: Global, text: &str) -> Result<Record, Stop>
    ensures { Reads record_fields IsMinus (fields 32 text.now) result }
{
    let (node, rest) = cut(text, ' ');
    let node = number(node)?;
    let Some(rest) = rest else {
        return Err(Stop::Bad);
    };
    let (shape, rest) = cut(rest, ' ');
    let shape = number(shape)?;
    let Some(rest) = rest else {
        return Err(Stop::Bad);
    };
    let (rank, rest) = cut(rest, ' ');
    let rank = number(rank)?;
    let states = states(alloc, rest)?;
    if !are_rising(states.as_slice()) {
        return Err(Stop::Bad);
    }
    Ok(Record {
        node,
        shape,
        kind: RecordKind::Minus(rank, states),
    })
}

/// A claim without its mark.
fn read_claim(alloc: Global, holds: bool, text: &str) -> Result<Claim, Stop>
    ensures { Reads claim_rest (IsClaim holds) text.now result }
{
    let Some((node, target)) = text.split_once(' ') else {
        return Err(Stop::Bad);
    };
    let node = number(node)?;
    let target = read_target(alloc, target)?;
    Ok(Claim {
        holds,
        node,
        target,
    })
}

/// A target.
fn read_target(alloc: Global, text: &str) -> Result<Target, Stop>
    ensures { Reads target_text IsTextTarget text.now result }
{
    if text == "START" {
        return Ok(Target::Start);
    }
    if let Some(label) = text.strip_prefix("_:") {
        return Ok(Target::Label(Label::Blank(owned(alloc, label)?)));
    }
    let Some(iri) = within_brackets(text) else {
        return Err(Stop::Bad);
    };
    Ok(Target::Label(Label::Iri(owned(alloc, iri)?)))
}
