//! The text of answers.

ghost use Rattle.std.specs.Prelude.{◌≡◌, ◌++◌, ◌<◌, ℕ, List, length, codes, encode_utf8_all, Contains, OnOk, OnErr};
ghost use Rattle.std.specs.List.{flat_map};
ghost use Rattle.schema_tree.specs.declared.schema.Answer.{Answer as Given};
ghost use Rattle.shape_map.specs.Results.{answer_text, mark, result_text};

use rdf_terms::table::TermTable;
use rdf_terms::written::write_term;
use schema_tree::schema::Answer;
use std::alloc::{AllocError, Global};

/// What stands before the target of an answer.
fn mark(holds: bool) -> &'static [u8]
    ensures { result.now ≡ codes "@" ++ mark holds }
{
    if holds { b"@" } else { b"@!" }
}

/// Appends an answer.
fn push_answer(
    alloc: Global,
    terms: &TermTable,
    answer: &Answer,
    out: &mut Vec<u8>,
) -> Result<(), AllocError>
    requires { answer.now.node.0 < length terms.now }
    ensures written { OnOk result (out.new.items ≡ out.old.items ++ answer_text terms.now answer.now) }
    ensures grown { (more : List ℕ) × (out.new.items ≡ out.old.items ++ more) }
{
    write_term(alloc, terms.get(answer.node), out)?;
    out.extend_from_slice(mark(answer.holds))?;
    let target = answer.target.text(alloc)?;
    out.extend_from_slice(target.as_bytes())
}

/// Appends the answers, a comma and a line feed before each.
fn push_more(
    alloc: Global,
    terms: &TermTable,
    answers: &[Answer],
    out: &mut Vec<u8>,
) -> Result<(), AllocError>
    requires { (a : Given) → Contains answers.now a → a.node.0 < length terms.now }
    ensures written { OnOk result (out.new.items ≡ out.old.items ++ flat_map (λ a. codes ",\n" ++ answer_text terms.now a) answers.now) }
    ensures grown { (more : List ℕ) × (out.new.items ≡ out.old.items ++ more) }
{
    for answer in answers {
        out.extend_from_slice(b",\n")?;
        push_answer(alloc, terms, answer, out)?;
    }
    Ok(())
}

/// Appends the text of the answers.
fn push_answers(
    alloc: Global,
    terms: &TermTable,
    answers: &[Answer],
    out: &mut Vec<u8>,
) -> Result<(), AllocError>
    requires { (a : Given) → Contains answers.now a → a.node.0 < length terms.now }
    ensures written { OnOk result (out.new.items ≡ out.old.items ++ result_text terms.now answers.now) }
    ensures grown { (more : List ℕ) × (out.new.items ≡ out.old.items ++ more) }
{
    let Some(first) = answers.first() else {
        return Ok(());
    };
    push_answer(alloc, terms, first, out)?;
    push_more(alloc, terms, &answers[1..], out)?;
    out.push(b'\n')?;
    Ok(())
}

/// Appends the answers as a result shape map (ShapeMap Structure and Language, section 4): of each the text of its node,
/// `@`, `!` where it does not hold, and its target; a comma and a line feed between two, and a line feed after the last.
/// The nodes are of the table. A refusal changes nothing.
pub fn write_result(
    alloc: Global,
    terms: &TermTable,
    items: &[Answer],
    out: &mut Vec<u8>,
) -> Result<(), AllocError>
    requires { (a : Given) → Contains items.now a → a.node.0 < length terms.now }
    ensures written { OnOk result (out.new.items ≡ out.old.items ++ result_text terms.now items.now) }
    ensures err { OnErr result (out.new.items ≡ out.old.items) }
{
    let held = out.len();
    let written = push_answers(alloc, terms, items, out);
    if written.is_err() {
        out.truncate(held);
    }
    written
}
