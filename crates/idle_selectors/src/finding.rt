//! What selectors find in a graph.

ghost use Rattle.std.specs.Prelude.{◌≡◌, ◌↔◌, Contains, IsTrue, Some, slice_get, true};
ghost use Rattle.lists.specs.Distinct.{AreDistinct};
ghost use Rattle.rdf_terms.specs.Graphs.{same_id};
ghost use Rattle.rdf_terms.specs.declared.terms.Triple.{Triple as Arc};
ghost use Rattle.shape_map.specs.Resolving.{IsSealedOnce};
ghost use Rattle.shape_map.specs.Selection.{at_other};
ghost use Rattle.idle_selectors.specs.Idle.{Finds, HasEnd, HasMatch, IsInData};

use graph_index::graph::Graph;
use rdf_terms::table::TermTable;
use rdf_terms::terms::{Term, TermId, Triple};
use shape_map::{Focus, Selector, TriplePattern};

/// What the length of a table tells contracts: its terms are distinct.
fn distinct_terms(terms: &TermTable)
    ensures { AreDistinct terms.now }
{
    let _count = terms.len();
}

/// Whether there is a triple.
fn holds_some(triples: &[Triple]) -> bool
    ensures { IsTrue result ↔ ((t : Arc) × Contains triples.now t) }
{
    !triples.is_empty()
}

/// Whether the node is the subject of a triple.
fn is_subject(graph: &Graph, node: TermId) -> bool
    requires { IsSealedOnce graph.now }
    ensures { IsTrue result ↔ ((t : Arc) × Contains graph.now.triples t × (t.s ≡ node)) }
{
    holds_some(graph.outs(node))
}

/// Whether the node is the object of a triple.
fn is_object(graph: &Graph, node: TermId) -> bool
    requires { IsSealedOnce graph.now }
    ensures { IsTrue result ↔ ((t : Arc) × Contains graph.now.triples t × (t.o ≡ node)) }
{
    holds_some(graph.ins(node))
}

/// Whether the node is an end of a triple.
fn has_end(graph: &Graph, node: TermId) -> bool
    requires { IsSealedOnce graph.now }
    ensures { IsTrue result ↔ HasEnd graph.now.triples node }
{
    is_subject(graph, node) || is_object(graph, node)
}

/// Whether the node is in the data.
fn is_in_data(graph: &Graph, terms: &TermTable, node: &Term) -> bool
    requires { IsSealedOnce graph.now }
    ensures { IsTrue result ↔ IsInData terms.now graph.now.triples node.now }
{
    distinct_terms(terms);
    match terms.find(node) {
        Some(id) => has_end(graph, id),
        None => false,
    }
}

/// Whether the triple has this predicate.
fn has_predicate(triple: Triple, predicate: TermId) -> bool
    ensures { IsTrue result ↔ (same_id triple.p predicate ≡ true) }
{
    triple.p.0 == predicate.0
}

/// Whether some triple has this predicate.
fn is_used(triples: &[Triple], predicate: TermId) -> bool
    ensures { IsTrue result ↔ ((t : Arc) × Contains triples.now t × (same_id t.p predicate ≡ true)) }
{
    triples
        .iter()
        .any(|triple| has_predicate(*triple, predicate))
}

/// The triples of a predicate whose end that is not at the focus is this node.
fn beside(graph: &Graph, focus: Focus, other: TermId, predicate: TermId) -> &[Triple]
    requires { IsSealedOnce graph.now }
    ensures { (t : Arc) → Contains result.now t ↔ (Contains graph.now.triples t × (same_id (at_other focus t) other ≡ true) × (same_id t.p predicate ≡ true)) }
{
    match focus {
        Focus::Subject => graph.ins_by(other, predicate),
        Focus::Object => graph.outs_by(other, predicate),
    }
}

/// Whether some triple of a predicate has this node at the end that is not at the focus.
fn is_beside(graph: &Graph, focus: Focus, other: TermId, predicate: TermId) -> bool
    requires { IsSealedOnce graph.now }
    ensures { IsTrue result ↔ ((t : Arc) × Contains graph.now.triples t × (same_id (at_other focus t) other ≡ true) × (same_id t.p predicate ≡ true)) }
{
    holds_some(beside(graph, focus, other, predicate))
}

/// Whether a pattern whose predicate has this number matches a triple.
fn matches_with(
    graph: &Graph,
    terms: &TermTable,
    pattern: &TriplePattern,
    predicate: TermId,
) -> bool
    requires sealed { IsSealedOnce graph.now }
    requires predicate { slice_get terms.now predicate.0 ≡ Some pattern.now.predicate }
    ensures { IsTrue result ↔ HasMatch terms.now graph.now.triples pattern.now }
{
    distinct_terms(terms);
    let Some(node) = &pattern.other else {
        return is_used(graph.triples(), predicate);
    };
    match terms.find(node) {
        Some(other) => is_beside(graph, pattern.focus, other, predicate),
        None => false,
    }
}

/// Whether a pattern matches a triple.
fn has_match(graph: &Graph, terms: &TermTable, pattern: &TriplePattern) -> bool
    requires { IsSealedOnce graph.now }
    ensures { IsTrue result ↔ HasMatch terms.now graph.now.triples pattern.now }
{
    match terms.find(&pattern.predicate) {
        Some(predicate) => matches_with(graph, terms, pattern, predicate),
        None => false,
    }
}

/// Whether a selector finds something.
pub(crate) fn finds(graph: &Graph, terms: &TermTable, selector: &Selector) -> bool
    requires { IsSealedOnce graph.now }
    ensures { IsTrue result ↔ Finds terms.now graph.now.triples selector.now }
{
    match selector {
        Selector::Node(node) => is_in_data(graph, terms, node),
        Selector::Triples(pattern) => has_match(graph, terms, pattern),
    }
}
