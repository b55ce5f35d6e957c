//! The pairs that a question reaches and on which no verdict is kept.

ghost use Rattle.std.specs.Prelude.{◌≡◌, ◌≤◌, ◌↔◌, Contains, IfOk, OnOk, length};
ghost use Rattle.std.specs.List.Sorted.{IsStrictlySortedBy};
ghost use Rattle.demand.specs.Closing.{AreMany, IsLedTo};
ghost use Rattle.demand.specs.Links.{AreLinks};
ghost use Rattle.demand.specs.Orders.{compare_pairs, max_pairs};
ghost use Rattle.graph_index.specs.Contents.{IsSealedWith};
ghost use Rattle.schema_tree.specs.declared.schema.Pair.{Pair as Held};
ghost use Rattle.schema_tree.specs.Loaded.{IsLoaded};
ghost use Rattle.schema_tree.specs.Needs.{HoldNeeds};
ghost use Rattle.typing_session.specs.Kept.{pairs_of};
ghost use Rattle.typing_session.specs.Questions.{AreFresh, ReachesTooMany};
ghost use Rattle.typing_session.specs.Walks.{AreStart, FollowsNeeds, HoldOrKeepNeeds};

use crate::error::AskError;
use crate::kept::Kept;
use crate::met::Met;
use demand::links::{Link, shapes_in};
use demand::needs::{needs, push_pairs};
use demand::order::compare_pairs;
use demand::table::MAX_PAIRS;
use graph_index::graph::Graph;
use rdf_terms::items::Items;
use rdf_terms::table::TermTable;
use rdf_terms::terms::TermId;
use schema_tree::schema::{ExprId, Pair, Schema};
use std::alloc::{AllocError, Global};

/// The node with each Shape that stands in the expression, where no verdict is kept on it.
fn start(
    alloc: Global,
    schema: &Schema,
    kept: &Kept,
    node: TermId,
    expr: ExprId,
) -> Result<Met, AllocError>
    requires loaded { IsLoaded schema.now }
    ensures { IfOk result (AreStart schema.now (pairs_of kept.now) node expr) }
{
    let shapes = shapes_in(alloc, schema, expr)?;
    let mut pairs = Vec::new(alloc);
    push_pairs(node, shapes.as_slice(), &mut pairs)?;
    let missing = kept.missing(alloc, pairs.as_slice())?;
    let mut met = Met::new(alloc);
    met.put_all(missing.as_slice())?;
    Ok(met)
}

/// Adds what the pairs need, themselves or through others, as far as no verdict is kept on it. It is refused as `Pairs` only
/// where they need more than 4,194,304.
fn follow(
    alloc: Global,
    schema: &Schema,
    links: &[Items<Link>],
    graph: &Graph,
    terms: &TermTable,
    kept: &Kept,
    met: &mut Met,
) -> Result<(), AskError>
    requires links { AreLinks schema.now links.now }
    requires sealed { IsSealedWith terms.now graph.now }
    requires apart { (q : Held) → Contains met.old q → ¬ Contains (pairs_of kept.now) q }
    ensures followed { OnOk result (FollowsNeeds schema.now graph.now.triples (pairs_of kept.now) met.old met.new) }
    ensures whole { OnOk result (HoldOrKeepNeeds schema.now graph.now.triples (pairs_of kept.now) met.new) }
    ensures few { OnOk result (length met.new ≤ max_pairs) }
    ensures many { (result ≡ Err AskError.Pairs) → AreMany (IsLedTo schema.now graph.now.triples met.old) }
{
    let mut at = 0;
    while at < met.len() {
        if met.len() > MAX_PAIRS {
            return Err(AskError::Pairs);
        }
        let pair = met.as_slice()[at];
        let found = needs(alloc, schema, links, graph, terms, pair)?;
        let missing = kept.missing(alloc, found.as_slice())?;
        met.put_all(missing.as_slice())?;
        at += 1;
    }
    Ok(())
}

/// The pairs in the order of the texts of their nodes, and then of their Shapes.
fn in_order(alloc: Global, terms: &TermTable, pairs: &[Pair]) -> Result<Vec<Pair>, AllocError>
    ensures sorted { IfOk result (λ v. IsStrictlySortedBy (compare_pairs terms.now) v.items) }
    ensures same { IfOk result (λ v. (q : Held) → Contains v.items q ↔ Contains pairs.now q) }
    ensures few { IfOk result (λ v. length v.items ≤ length pairs.now) }
{
    let mut list: Vec<Pair> = pairs.iter().copied().collect(alloc)?;
    list.sort_by(|a, b| compare_pairs(terms, *a, *b))?;
    list.dedup();
    Ok(list)
}

/// The pairs that a node with an expression reaches and on which no verdict is kept, in the order of the texts of their nodes
/// and then of their Shapes. What a pair with a kept verdict needs is not asked for, since verdicts are kept on that too. It
/// is refused as `Pairs` only where the two reach more than 4,194,304 pairs; `links` are those of the schema.
pub(crate) fn fresh(
    alloc: Global,
    schema: &Schema,
    links: &[Items<Link>],
    graph: &Graph,
    terms: &TermTable,
    kept: &Kept,
    node: TermId,
    expr: ExprId,
) -> Result<Vec<Pair>, AskError>
    requires loaded { IsLoaded schema.now }
    requires links { AreLinks schema.now links.now }
    requires sealed { IsSealedWith terms.now graph.now }
    requires closed { HoldNeeds schema.now graph.now.triples (pairs_of kept.now) }
    ensures fresh { IfOk result (λ v. AreFresh schema.now terms.now graph.now.triples (pairs_of kept.now) node expr v.items) }
    ensures few { IfOk result (λ v. length v.items ≤ max_pairs) }
    ensures many { (result ≡ Err AskError.Pairs) → ReachesTooMany schema.now graph.now.triples node expr }
{
    let mut met = start(alloc, schema, kept, node, expr)?;
    follow(alloc, schema, links, graph, terms, kept, &mut met)?;
    let list = in_order(alloc, terms, met.as_slice())?;
    Ok(list)
}
