//! How often a refinement asks for what is kept, along a row of nodes.

ghost use Rattle.std.specs.Prelude.{◌≡◌, ◌<◌, IfOk, OnOk, filter, nat_eq};
ghost use Rattle.std.specs.List.Sorted.{IsStrictlySortedBy};
ghost use Rattle.demand.specs.Orders.{compare_pairs};
ghost use Rattle.graph_index.specs.Contents.{IsSealedWith};
ghost use Rattle.schema_tree.specs.Edges.{IsStratified};
ghost use Rattle.schema_tree.specs.Loaded.{IsLoaded};
ghost use Rattle.schema_tree.specs.Needs.{HoldNeeds};

use crate::samples::{SUCCESSORS, add, put, schema_of};
use demand::links::links;
use demand::{Pairs, Root, close};
use graph_index::graph::Graph;
use rdf_terms::table::TermTable;
use rdf_terms::terms::TermId;
use schema_tree::schema::{ExprId, Pair, Schema};
use schema_tree::sure::View;
use schema_tree::verdicts::Verdict;
use std::alloc::{AllocError, Global};
use std::cell::Cell;
use std::marker::Brand;
use std::sync::ledger::{Blank, Ledger};
use std::test::Fail;
use strata::list::Strata;
use strata::strata::strata;
use strata::valid::is_stratified;
use tally::Steps;
use typing_refiner::found::Nothing;
use typing_refiner::{Question, Refined, Wanted};

/// The number of nodes of the row.
const ROW: u32 = 1000;

/// Strata of the schema, which are seen to be a stratification.
pub fn levels_of(alloc: Global, schema: &Schema) -> Result<Strata, Fail>
    requires { IsLoaded schema.now }
    ensures { IfOk result (IsStratified schema.now) }
{
    let levels = strata(alloc, schema)?;
    if !is_stratified(alloc, schema, levels.list())? {
        return Err("no strata".into());
    }
    Ok(levels)
}

/// The node and the expression of these numbers.
fn root(node: u32, expr: u32) -> Root {
    Root {
        node: TermId(node),
        expr: ExprId(expr),
    }
}

/// A view that counts how often it is asked.
#[derive(Clone, Copy)]
struct Asked<'a> {
    /// The verdicts.
    found: &'a Refined,
    /// How often it was asked.
    times: &'a Cell<u64>,
}

impl View for Asked<'_> {
    ghost use Rattle.typing_refiner.specs.Refinement.{known_by_it};

    ghost known = { λ v. known_by_it v.found.now };

    fn pair(&self, pair: Pair) -> Verdict {
        self.times.set(self.times.get().saturating_add(1));
        self.found.verdict(pair)
    }
}

/// Puts the terms of the row into the table, behind the two predicates: 2 `<http://d/b>`, and from 3 on the nodes, whose
/// names rise.
fn put_row(alloc: Global, terms: &mut TermTable) -> Result<(), Fail> {
    put(alloc, terms, "b")?;
    for number in 0..ROW {
        let name = format!(in alloc; "a{number:03}")?;
        put(alloc, terms, name.as_str())?;
    }
    Ok(())
}

/// Adds the arcs of the row to the graph, and seals it: an arc from each node to the next one, if there is one, and one to
/// the node 2.
fn seal_row(graph: &mut Graph, terms: &TermTable) -> Result<(), Fail>
    ensures { OnOk result (IsSealedWith terms.now graph.new) }
{
    for node in 3..ROW + 3 {
        if node < ROW + 2 {
            add(graph, node, 0, node + 1)?;
        }
        add(graph, node, 1, 2)?;
    }
    graph.seal(terms)?;
    Ok(())
}

/// The pairs with the first Shape.
fn with_first(alloc: Global, pairs: &[Pair]) -> Result<Vec<Pair>, AllocError>
    ensures { IfOk result (λ v. v.items ≡ filter (λ p. nat_eq p.shape.0 0) pairs.now) }
{
    let mut found = Vec::new(alloc);
    for pair in pairs {
        if pair.shape.0 == 0 {
            found.push(*pair)?;
        }
    }
    Ok(found)
}

/// Whether each of the pairs is No.
fn are_no(found: &Refined, pairs: &[Pair]) -> bool {
    for pair in pairs {
        if found.verdict(*pair) != Verdict::No {
            return false;
        }
    }
    true
}

/// How often a refinement of the pairs with the first Shape, all of which are No, asks what is kept of the others.
fn times_asked<L: Ledger>(
    blank: Blank,
    alloc: Global,
    schema: &Schema,
    graph: &Graph,
    terms: &TermTable,
    strata: &Strata,
    pairs: &Pairs,
) -> Result<u64, Fail>
    requires name { blank.name ≡ L.name }
    requires parts { blank.parts ≡ L.parts }
    requires some { 0 < blank.parts }
    requires loaded { IsLoaded schema.now }
    requires sealed { IsSealedWith terms.now graph.now }
    requires stratified { IsStratified schema.now strata.now }
    requires sorted { IsStrictlySortedBy (compare_pairs terms.now) pairs.now }
    requires closed { HoldNeeds schema.now graph.now.triples pairs.now }
{
    let mut steps = Steps::<L>::new(blank);
    let all = pairs.list();
    let links = links(alloc, schema)?;
    let links = links.as_slice();
    let question = Question {
        schema,
        graph,
        terms,
        strata,
        budget: 1,
        wanted: Wanted::Records,
    };
    let whole = question.refine_from(alloc, links, all, &Nothing, &mut steps)?;
    let row = with_first(alloc, all)?;
    let row = row.as_slice();
    let times = Cell::new(0);
    let asked = Asked {
        found: &whole,
        times: &times,
    };
    let found = question.refine_from(alloc, links, row, &asked, &mut steps)?;
    if row.len() != ROW as usize || !are_no(&found, row) {
        return Err("a pair of the row that is not No".into());
    }
    Ok(times.get())
}

/// How often a refinement of what the first node of the row reaches asks for what is kept.
fn asked_over<L: Ledger>(
    blank: Blank,
    alloc: Global,
    schema: &Schema,
    graph: &Graph,
    terms: &TermTable,
) -> Result<u64, Fail>
    requires name { blank.name ≡ L.name }
    requires parts { blank.parts ≡ L.parts }
    requires some { 0 < blank.parts }
    requires loaded { IsLoaded schema.now }
    requires sealed { IsSealedWith terms.now graph.now }
{
    let pairs = close(alloc, schema, graph, terms, [root(3, 0)].as_slice())?;
    let levels = levels_of(alloc, schema)?;
    times_asked::<L>(blank, alloc, schema, graph, terms, &levels, &pairs)
}

/// How often what is kept of others is asked, over the graph of the row.
fn asked_along<L: Ledger>(
    blank: Blank,
    alloc: Global,
    schema: &Schema,
    terms: &TermTable,
) -> Result<u64, Fail>
    requires name { blank.name ≡ L.name }
    requires parts { blank.parts ≡ L.parts }
    requires some { 0 < blank.parts }
    requires loaded { IsLoaded schema.now }
{
    let mut graph = Graph::new(alloc);
    seal_row(&mut graph, terms)?;
    asked_over::<L>(blank, alloc, schema, &graph, terms)
}

/// How often what is kept of others is asked, once the terms of the row are in the table.
fn asked_of<L: Ledger>(
    blank: Blank,
    alloc: Global,
    schema: &Schema,
    terms: &mut TermTable,
) -> Result<u64, Fail>
    requires name { blank.name ≡ L.name }
    requires parts { blank.parts ≡ L.parts }
    requires some { 0 < blank.parts }
    requires loaded { IsLoaded schema.now }
{
    put_row(alloc, terms)?;
    asked_along::<L>(blank, alloc, schema, terms)
}

/// How often what is kept of others is asked, by the schema of the row.
fn asked_by_row<L: Ledger>(blank: Blank, alloc: Global) -> Result<u64, Fail>
    requires name { blank.name ≡ L.name }
    requires parts { blank.parts ≡ L.parts }
    requires some { 0 < blank.parts }
{
    let mut terms = TermTable::new(alloc);
    let schema = schema_of(alloc, SUCCESSORS, &mut terms)?;
    asked_of::<L>(blank, alloc, &schema, &mut terms)
}

/// Each pair of a row needs the next one, and the last cannot match. A pair is looked at again only when the one that it
/// needs goes, so what is kept of others is asked at most 14,991 times, which is the bound that `Question::refine_from` promises for
/// this row; in rounds over all pairs it would be asked more than 400,000 times.
#[test]
fn a_row_falls_from_its_end_without_rounds(rt: HostRuntime) -> Result<(), Fail> {
    let times = asked_by_row::<Brand>(Blank::new(1), rt.alloc())?;
    assert!(rt; times > 0);
    assert!(rt; times <= 14_991);
    Ok(())
}
