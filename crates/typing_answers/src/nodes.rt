//! The node lines of a proof.

ghost use Rattle.std.specs.Prelude.{◌≡◌, ◌≤◌, ◌<◌, ◌+◌, ◌^◌, ◌↔◌, ◌⊎◌, ◌++◌, Contains, IfOk, length, map};
ghost use Rattle.std.specs.List.{AllByRecursion};
ghost use Rattle.std.specs.List.Sorted.{IsStrictlySortedBy};
ghost use Rattle.rdf_terms.specs.Order.{compare_at};
ghost use Rattle.rdf_terms.specs.Values.{IsValue};
ghost use Rattle.rdf_terms.specs.declared.terms.TermId.{TermId as Id};
ghost use Rattle.proof_file.specs.Accepts.{AreNumbers};
ghost use Rattle.schema_tree.specs.declared.schema.Answer.{Answer as Given};
ghost use Rattle.typing_answers.specs.Numbering.{HasPlaces, place_in};

use rdf_terms::order::put_in_order;
use rdf_terms::table::TermTable;
use rdf_terms::terms::{Term, TermId};
use rdf_terms::values::term_is_value;
use schema_tree::schema::Answer;
use std::alloc::{AllocError, Global};

/// The nodes of answers, in their order.
fn answered_nodes(alloc: Global, answers: &[Answer]) -> Result<Vec<TermId>, AllocError>
    ensures { IfOk result (λ v. v.items ≡ map (λ x. x.node) answers.now) }
{
    answers.iter().map(|x| x.node).collect(alloc)
}

/// The nodes of answers, and then these.
fn collected(
    alloc: Global,
    recorded: &[TermId],
    answers: &[Answer],
) -> Result<Vec<TermId>, AllocError>
    ensures { IfOk result (λ v. v.items ≡ map (λ x. x.node) answers.now ++ recorded.now) }
{
    let mut nodes = answered_nodes(alloc, answers)?;
    nodes.extend_from_slice(recorded)?;
    Ok(nodes)
}

/// The nodes of records and of answers, each once, in the order of their texts.
pub(crate) fn nodes_of(
    alloc: Global,
    terms: &TermTable,
    recorded: &[TermId],
    answers: &[Answer],
) -> Result<Vec<TermId>, AllocError>
    ensures sorted { IfOk result (λ v. IsStrictlySortedBy (compare_at terms.now) v.items) }
    ensures exactly { IfOk result (λ v. (n : Id) → Contains v.items n ↔ (Contains recorded.now n ⊎ ((x : Given) × Contains answers.now x × (x.node ≡ n)))) }
    ensures few { IfOk result (λ v. length v.items ≤ length recorded.now + length answers.now) }
{
    let mut nodes = collected(alloc, recorded, answers)?;
    put_in_order(terms, &mut nodes)?;
    Ok(nodes)
}

/// At the number of each node in the table, its number among the nodes.
pub(crate) fn places_by_number(
    alloc: Global,
    terms: &TermTable,
    nodes: &[TermId],
) -> Result<Vec<u32>, AllocError>
    requires of_table { (n : Id) → Contains nodes.now n → n.0 < length terms.now }
    requires few { length nodes.now < 2 ^ 32 }
    ensures { IfOk result (λ v. HasPlaces nodes.now v.items) }
{
    let mut places = vec![in alloc; 0u32; terms.len()]?;
    for (place, node) in nodes.iter().enumerate() {
        places[node.0 as usize] = place as u32;
    }
    Ok(places)
}

/// The number that stands in a list at the number of a node in the table.
pub(crate) fn place_of(by_number: &[u32], node: TermId) -> u32
    requires { node.0 < length by_number.now }
    ensures { result ≡ place_in by_number.now node }
{
    by_number[node.0 as usize]
}

/// The numbers that stand in a list at the numbers of nodes in the table.
pub(crate) fn places_of(
    alloc: Global,
    by_number: &[u32],
    recorded: &[TermId],
) -> Result<Vec<u32>, AllocError>
    requires { (n : Id) → Contains recorded.now n → n.0 < length by_number.now }
    ensures { IfOk result (λ v. v.items ≡ map (place_in by_number.now) recorded.now) }
{
    let mut places = Vec::new(alloc);
    for node in recorded {
        places.push(place_of(by_number, *node))?;
    }
    Ok(places)
}

/// A copy of the term.
fn copied_term(alloc: Global, term: &Term) -> Result<Term, AllocError>
    ensures copy { IfOk result (λ t. t ≡ term.now) }
    ensures value { IsValue term.now }
{
    // What the type of a term tells contracts of it.
    term_is_value(term);
    term.try_clone(alloc)
}

/// Copies of the terms of nodes, in their order.
pub(crate) fn terms_of(
    alloc: Global,
    terms: &TermTable,
    nodes: &[TermId],
) -> Result<Vec<Term>, AllocError>
    requires { (n : Id) → Contains nodes.now n → n.0 < length terms.now }
    ensures numbers { IfOk result (λ v. AreNumbers terms.now v.items nodes.now) }
    ensures values { IfOk result (λ v. AllByRecursion IsValue v.items) }
{
    let mut copies = Vec::new(alloc);
    for node in nodes {
        copies.push(copied_term(alloc, terms.get(*node))?)?;
    }
    Ok(copies)
}
