//! A large graph, and one that is edited.

ghost use Rattle.std.specs.Prelude.{◌<◌, OnOk};
ghost use Rattle.graph_index.specs.Contents.{IsSealed, IsSealedWith};

use graph_index::graph::Graph;
use rdf_terms::table::TermTable;
use rdf_terms::terms::{FreshNumber, Name, Term, TermId, Triple};
use std::alloc::Global;
use std::test::Fail;

/// A triple of numbers.
fn triple(s: u32, p: u32, o: u32) -> Triple {
    Triple {
        s: TermId(s),
        p: TermId(p),
        o: TermId(o),
    }
}

/// Adds a hundred thousand triples, and tells whether each is new.
fn add_many(graph: &mut Graph) -> Result<bool, Fail> {
    for i in 0..100_000 {
        if !graph.add(triple(i % 1000, 4 + i / 50_000, i / 7))? {
            return Ok(false);
        }
    }
    Ok(true)
}

/// How many triples a graph lends: of the subject 7, of it with the predicate 5, and of the object 7.
fn lent(graph: &Graph) -> [usize; 3]
    requires { IsSealed graph.now }
{
    [
        graph.outs(TermId(7)).len(),
        graph.outs_by(TermId(7), TermId(5)).len(),
        graph.ins(TermId(7)).len(),
    ]
}

/// How many triples a graph lends that takes up a hundred thousand and is sealed, if each of them is new.
fn lent_of_many(graph: &mut Graph, terms: &TermTable) -> Result<Option<[usize; 3]>, Fail> {
    if !add_many(graph)? {
        return Ok(None);
    }
    graph.seal(terms)?;
    Ok(Some(lent(graph)))
}

#[test]
fn a_hundred_thousand_triples_are_sealed(rt: HostRuntime) -> Result<(), Fail> {
    let mut graph = Graph::new(rt.alloc());
    assert!(rt; graph.is_empty());
    let lent = lent_of_many(&mut graph, &TermTable::new(rt.alloc()))?;
    assert_eq!(rt; lent, Some([100, 50, 7]));
    assert!(rt; graph.is_sealed());
    assert_eq!(rt; graph.len(), 100_000);
    Ok(())
}

/// Puts so many anonymous nodes into the table, whose texts stand in another order than their numbers.
fn put_blanks(terms: &mut TermTable, count: u32) -> Result<(), Fail>
    requires { count < 100 }
{
    for i in 0..count {
        terms.put(Term::Blank(Name::Fresh(FreshNumber::new(i + 1))))?;
    }
    Ok(())
}

/// Adds the triples to the graph, and seals it with the table.
fn seal_with(graph: &mut Graph, terms: &TermTable, triples: &[Triple]) -> Result<(), Fail>
    ensures { OnOk result (IsSealedWith terms.now graph.new) }
{
    for triple in triples {
        graph.add(*triple)?;
    }
    graph.seal(terms)?;
    Ok(())
}

/// Whether two graphs lend the same neighbourhood of a node.
fn have_one_neighbourhood(one: &Graph, other: &Graph, n: TermId) -> bool
    requires one { IsSealed one.now }
    requires other { IsSealed other.now }
{
    let a = one.neigh(n);
    let b = other.neigh(n);
    if a.len() != b.len() {
        return false;
    }
    for i in 0..a.len() {
        if a.at(i) != b.at(i) {
            return false;
        }
    }
    true
}

/// Whether two graphs lend the same triples of a node, and of a node and a predicate.
fn lend_alike(one: &Graph, other: &Graph, n: TermId, p: TermId) -> bool
    requires one { IsSealed one.now }
    requires other { IsSealed other.now }
{
    one.outs(n) == other.outs(n)
        && one.ins(n) == other.ins(n)
        && one.outs_by(n, p) == other.outs_by(n, p)
        && one.ins_by(n, p) == other.ins_by(n, p)
        && have_one_neighbourhood(one, other, n)
}

/// Whether two graphs lend the same of twelve nodes and two predicates.
fn lend_the_same(one: &Graph, other: &Graph) -> bool
    requires one { IsSealed one.now }
    requires other { IsSealed other.now }
{
    for n in 0..12 {
        if !lend_alike(one, other, TermId(n), TermId(9))
            || !lend_alike(one, other, TermId(n), TermId(10))
        {
            return false;
        }
    }
    true
}

/// Whether a graph lends what a graph of the triples lends that is sealed anew.
fn lends_as_anew(
    alloc: Global,
    terms: &TermTable,
    graph: &Graph,
    triples: &[Triple],
) -> Result<bool, Fail>
    requires { IsSealed graph.now }
{
    let mut anew = Graph::new(alloc);
    seal_with(&mut anew, terms, triples)?;
    Ok(lend_the_same(graph, &anew))
}

/// Inserts triples, with a new predicate, one that is there, and a self-loop, and tells whether each answer is right.
fn insert_some(graph: &mut Graph, terms: &TermTable) -> Result<bool, Fail>
    requires { IsSealedWith terms.now graph.old }
    ensures { OnOk result (IsSealedWith terms.now graph.new) }
{
    let other = graph.insert_sealed(triple(0, 10, 1), terms)?;
    let again = graph.insert_sealed(triple(0, 10, 1), terms)?;
    let looped = graph.insert_sealed(triple(1, 9, 1), terms)?;
    Ok(other && !again && looped)
}

/// Removes a triple twice, and tells whether each answer is right.
fn remove_one(graph: &mut Graph, terms: &TermTable) -> Result<bool, Fail>
    requires { IsSealedWith terms.now graph.old }
    ensures { OnOk result (IsSealedWith terms.now graph.new) }
{
    let held = graph.remove_sealed(triple(0, 9, 1), terms)?;
    let again = graph.remove_sealed(triple(0, 9, 1), terms)?;
    Ok(held && !again)
}

/// Whether edits of a graph are answered rightly, and it then lends what a graph of the triples behind them lends.
fn keeps_edits(
    alloc: Global,
    terms: &TermTable,
    graph: &mut Graph,
    behind: &[Triple],
) -> Result<bool, Fail>
    requires { IsSealedWith terms.now graph.old }
{
    let inserted = insert_some(graph, terms)?;
    let removed = remove_one(graph, terms)?;
    let same = lends_as_anew(alloc, terms, graph, behind)?;
    Ok(inserted && removed && same)
}

/// Whether a graph of the triples before keeps edits.
fn edits_are_kept(
    alloc: Global,
    terms: &TermTable,
    before: &[Triple],
    behind: &[Triple],
) -> Result<bool, Fail> {
    let mut graph = Graph::new(alloc);
    seal_with(&mut graph, terms, before)?;
    keeps_edits(alloc, terms, &mut graph, behind)
}

#[test]
fn an_edited_graph_lends_what_one_that_is_sealed_anew_lends(rt: HostRuntime) -> Result<(), Fail> {
    let mut terms = TermTable::new(rt.alloc());
    put_blanks(&mut terms, 12)?;
    let before = [triple(0, 9, 1), triple(2, 9, 1), triple(0, 8, 3)];
    let behind = [
        triple(2, 9, 1),
        triple(0, 8, 3),
        triple(0, 10, 1),
        triple(1, 9, 1),
    ];
    assert!(rt; edits_are_kept(rt.alloc(), &terms, &before, &behind)?);
    Ok(())
}
