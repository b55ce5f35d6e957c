//! The pairs that roots reach.

ghost use Rattle.std.specs.Prelude.{◌≡◌, ◌≤◌, ◌↔◌, Contains, IfErr, IfOk, OnOk, length};
ghost use Rattle.std.specs.List.Sorted.{IsStrictlySortedBy};
ghost use Rattle.graph_index.specs.Contents.{IsSealedWith};
ghost use Rattle.lists.specs.Distinct.{AreDistinct};
ghost use Rattle.schema_tree.specs.declared.schema.Pair.{Pair as Reached};
ghost use Rattle.schema_tree.specs.Loaded.{IsLoaded};
ghost use Rattle.schema_tree.specs.Needs.{HoldNeeds};
ghost use Rattle.demand.specs.Demand.{AreAsked, AreTooMany, roots_of};
ghost use Rattle.demand.specs.Orders.{compare_pairs, max_pairs};
ghost use Rattle.demand.specs.Links.{AreLinks};
ghost use Rattle.demand.specs.Closing.{GrowsByNeeds, StopsByNeeds};

use crate::error::DemandError;
use crate::links::{Link, links};
use crate::needs::needs_into;
use crate::order::compare_pairs;
use crate::seeing::see_all;
use crate::starting::{see_each, see_roots};
use crate::table::PairTable;
use graph_index::graph::Graph;
use rdf_terms::items::Items;
use rdf_terms::table::TermTable;
use rdf_terms::terms::TermId;
use schema_tree::schema::{ExprId, Pair, Schema};
use std::alloc::{AllocError, Global};
use std::marker::Model;

/// A node with an expression that is asked for.
#[derive(Clone, Copy, Debug, PartialEq, Eq)]
pub struct Root {
    /// The node.
    pub node: TermId,
    /// The expression.
    pub expr: ExprId,
}

/// Distinct pairs, at most 4,194,304 of them.
#[derive(Drop)]
pub struct Pairs {
    list: Vec<Pair>,
}

impl Model for Pairs {
    ghost use Rattle.std.specs.Prelude.{List, length, ◌≤◌};
    ghost use Rattle.schema_tree.specs.declared.schema.Pair.{Pair};
    ghost use Rattle.lists.specs.Distinct.{AreDistinct};
    ghost use Rattle.demand.specs.Orders.{max_pairs};

    ghost Value = { List Pair };

    ghost view = { λ p. p.list.items };

    ghost invariant = { λ p. (length p.list.items ≤ max_pairs) × AreDistinct p.list.items };
}

impl Pairs {
    /// The pairs, without taking memory.
    pub fn list(&self) -> &[Pair]
        ensures list { result.now ≡ self.now }
        ensures few { length self.now ≤ max_pairs }
        ensures distinct { AreDistinct self.now }
    {
        self.list.as_slice()
    }
}

/// Puts what the pairs of the table need into it, until it has all.
fn see_needs(
    alloc: Global,
    schema: &Schema,
    links: &[Items<Link>],
    graph: &Graph,
    terms: &TermTable,
    seen: &mut PairTable,
) -> Result<(), DemandError>
    requires links { AreLinks schema.now links.now }
    requires sealed { IsSealedWith terms.now graph.now }
    ensures whole { OnOk result (HoldNeeds schema.now graph.now.triples seen.new) }
    ensures grown { OnOk result (GrowsByNeeds schema.now graph.now.triples seen.old seen.new) }
    ensures stops { IfErr result (StopsByNeeds schema.now graph.now.triples seen.old) }
{
    let mut found = Vec::new(alloc);
    let mut at = 0;
    while at < seen.len() {
        let pair = seen.as_slice()[at];
        needs_into(schema, links, graph, terms, pair, &mut found)?;
        see_all(seen, found.as_slice())?;
        at += 1;
    }
    Ok(())
}

/// Distinct pairs in the order of the texts of their nodes, and then of their Shapes.
fn in_order(alloc: Global, terms: &TermTable, pairs: &[Pair]) -> Result<Vec<Pair>, AllocError>
    requires distinct { AreDistinct pairs.now }
    ensures sorted { IfOk result (λ v. IsStrictlySortedBy (compare_pairs terms.now) v.items) }
    ensures same { IfOk result (λ v. (q : Reached) → Contains v.items q ↔ Contains pairs.now q) }
    ensures few { IfOk result (λ v. length v.items ≤ length pairs.now) }
    ensures distinct { IfOk result (λ v. AreDistinct v.items) }
{
    let mut list: Vec<Pair> = pairs.iter().copied().collect(alloc)?;
    list.sort_by(|a, b| compare_pairs(terms, *a, *b))?;
    Ok(list)
}

/// The pairs that needs lead to from those of the table, each once, in the order of the texts of their nodes and then of their
/// Shapes. It is refused as `Pairs` only where these are more than 4,194,304.
fn closed(
    alloc: Global,
    schema: &Schema,
    graph: &Graph,
    terms: &TermTable,
    seen: &mut PairTable,
) -> Result<Pairs, DemandError>
    requires loaded { IsLoaded schema.now }
    requires sealed { IsSealedWith terms.now graph.now }
    ensures sorted { IfOk result (IsStrictlySortedBy (compare_pairs terms.now)) }
    ensures whole { IfOk result (HoldNeeds schema.now graph.now.triples) }
    ensures grown { IfOk result (GrowsByNeeds schema.now graph.now.triples seen.old) }
    ensures few { IfOk result (λ p. length p ≤ max_pairs) }
    ensures stops { IfErr result (StopsByNeeds schema.now graph.now.triples seen.old) }
{
    let all_links = links(alloc, schema)?;
    see_needs(alloc, schema, all_links.as_slice(), graph, terms, seen)?;
    let _count = seen.len();
    let list = in_order(alloc, terms, seen.as_slice())?;
    Ok(Pairs { list })
}

/// The pairs that the roots reach, each once, in the order of the texts of their nodes and then of their Shapes. It is
/// refused as `Pairs` exactly where these are more than 4,194,304, want of memory aside.
pub fn close(
    alloc: Global,
    schema: &Schema,
    graph: &Graph,
    terms: &TermTable,
    roots: &[Root],
) -> Result<Pairs, DemandError>
    requires loaded { IsLoaded schema.now }
    requires sealed { IsSealedWith terms.now graph.now }
    ensures asked { IfOk result (AreAsked schema.now terms.now graph.now.triples roots.now) }
    ensures closed { IfOk result (HoldNeeds schema.now graph.now.triples) }
    ensures many { (result ≡ Err DemandError.Pairs) → AreTooMany schema.now graph.now.triples roots.now }
    ensures few { IfOk result (λ p. ¬ AreTooMany schema.now graph.now.triples roots.now) }
{
    let mut seen = PairTable::new(alloc);
    see_roots(alloc, schema, roots, &mut seen)?;
    closed(alloc, schema, graph, terms, &mut seen)
}

/// The pairs that each of the nodes reaches with each of the expressions, however many roots that makes: each pair once, in the
/// order of the texts of their nodes and then of their Shapes. It is refused as `Pairs` exactly where these are more than
/// 4,194,304, want of memory aside.
pub fn close_each(
    alloc: Global,
    schema: &Schema,
    graph: &Graph,
    terms: &TermTable,
    nodes: &[TermId],
    exprs: &[ExprId],
) -> Result<Pairs, DemandError>
    requires loaded { IsLoaded schema.now }
    requires sealed { IsSealedWith terms.now graph.now }
    ensures asked { IfOk result (AreAsked schema.now terms.now graph.now.triples (roots_of nodes.now exprs.now)) }
    ensures closed { IfOk result (HoldNeeds schema.now graph.now.triples) }
    ensures many { (result ≡ Err DemandError.Pairs) → AreTooMany schema.now graph.now.triples (roots_of nodes.now exprs.now) }
    ensures few { IfOk result (λ p. ¬ AreTooMany schema.now graph.now.triples (roots_of nodes.now exprs.now)) }
{
    let mut seen = PairTable::new(alloc);
    see_each(alloc, schema, nodes, exprs, &mut seen)?;
    closed(alloc, schema, graph, terms, &mut seen)
}
