//! The nodes that a triple pattern selects.

ghost use Rattle.std.specs.Prelude.{◌≡◌, ◌↔◌, ◌≤◌, true, length, slice_get, Some, filter, map, Contains, IfOk};
ghost use Rattle.std.specs.List.Sorted.{IsStrictlySortedBy};
ghost use Rattle.rdf_terms.specs.Graphs.{same_id};
ghost use Rattle.lists.specs.Distinct.{AreDistinct};
ghost use Rattle.rdf_terms.specs.Order.{compare_at};
ghost use Rattle.rdf_terms.specs.Tables.{max_terms};
ghost use Rattle.rdf_terms.specs.declared.terms.TermId.{TermId as Id};
ghost use Rattle.rdf_terms.specs.declared.terms.Triple.{Triple as Arc};
ghost use Rattle.shape_map.specs.Selection.{at_focus, at_other, IsFocus};
ghost use Rattle.shape_map.specs.Resolving.{AreAmong, IsSealedOnce};

use crate::items::{Focus, TriplePattern};
use graph_index::graph::Graph;
use rdf_terms::order::put_in_order;
use rdf_terms::table::TermTable;
use rdf_terms::terms::{TermId, Triple};
use std::alloc::{AllocError, Global};

/// What the length of a table tells contracts: its terms are distinct, and not too many.
pub fn distinct_terms(terms: &TermTable)
    ensures distinct { AreDistinct terms.now }
    ensures few { length terms.now ≤ max_terms }
{
    let _count = terms.len();
}

/// The end of a triple at the focus.
fn focus_of(focus: Focus, triple: Triple) -> TermId
    ensures { result ≡ at_focus focus triple }
{
    match focus {
        Focus::Subject => triple.s,
        Focus::Object => triple.o,
    }
}

/// The ends at the focus of those triples that have this predicate.
fn collected(
    alloc: Global,
    triples: &[Triple],
    predicate: TermId,
    focus: Focus,
) -> Result<Vec<TermId>, AllocError>
    ensures { IfOk result (λ v. v.items ≡ map (at_focus focus) (filter (λ t. same_id t.p predicate) triples.now)) }
{
    let mut nodes = Vec::new(alloc);
    for triple in triples {
        if triple.p.0 == predicate.0 {
            nodes.push(focus_of(focus, *triple))?;
        }
    }
    Ok(nodes)
}

/// The triples of a predicate whose end that is not at the focus is this node.
fn beside(graph: &Graph, focus: Focus, other: TermId, predicate: TermId) -> &[Triple]
    requires { IsSealedOnce graph.now }
    ensures { (t : Arc) → Contains result.now t ↔ (Contains graph.now.triples t × (same_id (at_other focus t) other ≡ true) × (same_id t.p predicate ≡ true)) }
{
    match focus {
        Focus::Subject => graph.ins_by(other, predicate),
        Focus::Object => graph.outs_by(other, predicate),
    }
}

/// The triples among which those are that a pattern matches, whose predicate has this number.
fn among<'a>(
    graph: &'a Graph,
    terms: &TermTable,
    pattern: &TriplePattern,
    predicate: TermId,
) -> &'a [Triple]
    requires { IsSealedOnce graph.now }
    ensures { AreAmong terms.now graph.entry.now.triples pattern.now predicate result.now }
{
    let Some(node) = &pattern.other else {
        return graph.triples();
    };
    distinct_terms(terms);
    match terms.find(node) {
        Some(other) => beside(graph, pattern.focus, other, predicate),
        None => &[],
    }
}

/// The nodes at the focus of the triples that a pattern matches, whose predicate has this number.
fn nodes_with(
    alloc: Global,
    graph: &Graph,
    terms: &TermTable,
    pattern: &TriplePattern,
    predicate: TermId,
) -> Result<Vec<TermId>, AllocError>
    requires sealed { IsSealedOnce graph.now }
    requires predicate { slice_get terms.now predicate.0 ≡ Some pattern.now.predicate }
    ensures sorted { IfOk result (λ v. IsStrictlySortedBy (compare_at terms.now) v.items) }
    ensures exactly { IfOk result (λ v. (n : Id) → Contains v.items n ↔ IsFocus terms.now graph.now.triples pattern.now n) }
{
    distinct_terms(terms);
    let triples = among(graph, terms, pattern, predicate);
    let mut nodes = collected(alloc, triples, predicate, pattern.focus)?;
    put_in_order(terms, &mut nodes)?;
    Ok(nodes)
}

/// The nodes at the focus of the triples that a pattern matches, each once, in the order of their texts.
pub fn focus_nodes(
    alloc: Global,
    graph: &Graph,
    terms: &TermTable,
    pattern: &TriplePattern,
) -> Result<Vec<TermId>, AllocError>
    requires { IsSealedOnce graph.now }
    ensures sorted { IfOk result (λ v. IsStrictlySortedBy (compare_at terms.now) v.items) }
    ensures exactly { IfOk result (λ v. (n : Id) → Contains v.items n ↔ IsFocus terms.now graph.now.triples pattern.now n) }
    ensures few { length terms.now ≤ max_terms }
{
    distinct_terms(terms);
    match terms.find(&pattern.predicate) {
        Some(predicate) => nodes_with(alloc, graph, terms, pattern, predicate),
        None => Ok(Vec::new(alloc)),
    }
}
