//! Terms, triples and triple constraints in the text of an explanation.

ghost use Rattle.std.specs.Prelude.{◌≡◌, ◌++◌, ◌+◌, ◌-◌, OnOk, IfOk, Some, length, slice_get, take};
ghost use Rattle.std.specs.Fmt.{decimal};
ghost use Rattle.std.specs.List.{filter};
ghost use Rattle.std.specs.Option.{option_copied};
ghost use Rattle.rdf_terms.specs.Order.{text_at};
ghost use Rattle.rdf_terms.specs.Written.{term_text};
ghost use Rattle.explanation_texts.specs.Words.{constraint_text, constraints_text, direction, is_alike, more_constraints, more_text, occurrence_text, triple_text, turn};

use rdf_terms::table::TermTable;
use rdf_terms::terms::{Term, TermId, Triple};
use rdf_terms::written::write_term;
use schema_tree::schema::Occurrence;
use std::alloc::{AllocError, Global};

/// The term of a number, if there is one.
pub(crate) fn term_at(terms: &TermTable, id: TermId) -> Option<&Term>
    ensures { option_copied result ≡ slice_get terms.now id.0 }
{
    if (id.0 as usize) < terms.len() {
        Some(terms.get(id))
    } else {
        None
    }
}

/// Appends the text of a term.
pub(crate) fn push_term(
    alloc: Global,
    terms: &TermTable,
    id: TermId,
    out: &mut Vec<u8>,
) -> Result<(), AllocError>
    ensures { OnOk result (out.new.items ≡ out.old.items ++ text_at terms.now id) }
{
    match term_at(terms, id) {
        Some(term) => write_term(alloc, term, out),
        None => Ok(()),
    }
}

/// Appends a number.
pub(crate) fn push_number(alloc: Global, number: u64, out: &mut Vec<u8>) -> Result<(), AllocError>
    ensures { OnOk result (out.new.items ≡ out.old.items ++ decimal number) }
{
    let text = number.to_string(alloc)?;
    out.extend_from_slice(text.as_bytes())
}

/// The number that is so much greater: no memory holds so many things that it is too great.
pub(crate) fn raised(number: usize, by: usize) -> Result<usize, AllocError>
    ensures { IfOk result (λ n. n ≡ number + by) }
{
    match number.checked_add(by) {
        Some(sum) => Ok(sum),
        None => Err(AllocError),
    }
}

/// Appends a triple.
pub(crate) fn push_triple(
    alloc: Global,
    terms: &TermTable,
    triple: Triple,
    out: &mut Vec<u8>,
) -> Result<(), AllocError>
    ensures { OnOk result (out.new.items ≡ out.old.items ++ triple_text terms.now triple) }
{
    push_term(alloc, terms, triple.s, out)?;
    out.extend_from_slice(b" ")?;
    push_term(alloc, terms, triple.p, out)?;
    out.extend_from_slice(b" ")?;
    push_term(alloc, terms, triple.o, out)?;
    out.extend_from_slice(b" .")
}

/// What stands before the predicate of a triple constraint.
fn direction(inverse: bool) -> &'static [u8]
    ensures { result.now ≡ direction inverse }
{
    if inverse { b"^" } else { b"" }
}

/// Whether both have the same predicate and direction.
fn is_alike(one: Occurrence, other: Occurrence) -> bool
    ensures { result ≡ is_alike one other }
{
    let inverse = if one.inverse {
        other.inverse
    } else {
        !other.inverse
    };
    one.predicate == other.predicate && inverse
}

/// How many of the occurrences have the same predicate and direction as this one.
fn count_alike(one: Occurrence, others: &[Occurrence]) -> usize
    ensures { result ≡ length (filter (is_alike one) others.now) }
{
    others.iter().filter(|other| is_alike(one, **other)).count()
}

/// Appends what stands behind the predicate of a triple constraint, so many others like it standing before it.
fn push_turn(alloc: Global, before: usize, out: &mut Vec<u8>) -> Result<(), AllocError>
    ensures { OnOk result (out.new.items ≡ out.old.items ++ turn before) }
{
    if before == 0 {
        return Ok(());
    }
    out.extend_from_slice(b"#")?;
    push_number(alloc, raised(before, 1)? as u64, out)
}

/// Appends a triple constraint behind these others.
fn push_occurrence(
    alloc: Global,
    terms: &TermTable,
    before: &[Occurrence],
    own: Occurrence,
    out: &mut Vec<u8>,
) -> Result<(), AllocError>
    ensures { OnOk result (out.new.items ≡ out.old.items ++ occurrence_text terms.now before.now (Some own)) }
{
    out.extend_from_slice(direction(own.inverse))?;
    push_term(alloc, terms, own.predicate, out)?;
    push_turn(alloc, count_alike(own, before), out)
}

/// Appends the triple constraint of a number.
pub(crate) fn push_constraint(
    alloc: Global,
    terms: &TermTable,
    occs: &[Occurrence],
    number: usize,
    out: &mut Vec<u8>,
) -> Result<(), AllocError>
    ensures { OnOk result (out.new.items ≡ out.old.items ++ constraint_text terms.now occs.now number) }
{
    let Some(own) = occs.get(number) else {
        return Ok(());
    };
    push_occurrence(alloc, terms, &occs[..number], *own, out)
}

/// Appends triple constraints, a comma and a space before each.
fn push_more(
    alloc: Global,
    terms: &TermTable,
    occs: &[Occurrence],
    numbers: &[u16],
    out: &mut Vec<u8>,
) -> Result<(), AllocError>
    ensures { OnOk result (out.new.items ≡ out.old.items ++ more_constraints terms.now occs.now numbers.now) }
{
    for number in numbers {
        out.extend_from_slice(b", ")?;
        push_constraint(alloc, terms, occs, *number as usize, out)?;
    }
    Ok(())
}

/// Appends triple constraints, a comma and a space between two.
pub(crate) fn push_constraints(
    alloc: Global,
    terms: &TermTable,
    occs: &[Occurrence],
    numbers: &[u16],
    out: &mut Vec<u8>,
) -> Result<(), AllocError>
    ensures { OnOk result (out.new.items ≡ out.old.items ++ constraints_text terms.now occs.now numbers.now) }
{
    let Some(first) = numbers.first() else {
        return Ok(());
    };
    push_constraint(alloc, terms, occs, *first as usize, out)?;
    push_more(alloc, terms, occs, &numbers[1..], out)
}

/// The first items, at most so many.
pub(crate) fn shown<T>(items: &[T], limit: usize) -> &[T]
    ensures { result.now ≡ take limit items.now }
{
    if items.len() <= limit {
        items
    } else {
        &items[..limit]
    }
}

/// Appends a line that says how many more there are than are shown, if there are more.
pub(crate) fn push_rest(
    alloc: Global,
    margin: &[u8],
    count: usize,
    limit: usize,
    out: &mut Vec<u8>,
) -> Result<(), AllocError>
    ensures { OnOk result (out.new.items ≡ out.old.items ++ more_text margin.now (count - limit)) }
{
    let more = count.saturating_sub(limit);
    if more == 0 {
        return Ok(());
    }
    out.extend_from_slice(margin)?;
    out.extend_from_slice(b".. ")?;
    push_number(alloc, more as u64, out)?;
    out.extend_from_slice(b" more\n")
}
