//! The pairs that an edit touches: those among kept ones that reach a pair at an end of the triple.

ghost use Rattle.std.specs.Prelude.{◌≡◌, ◌<◌, ◌↔◌, Contains, IfOk, IfSome, OnOk, filter, length, map, not};
ghost use Rattle.graph_index.specs.Contents.{IsSealedWith};
ghost use Rattle.schema_tree.specs.declared.schema.Pair.{Pair as Held};
ghost use Rattle.schema_tree.specs.Loaded.{IsLoaded};
ghost use Rattle.schema_tree.specs.Needs.{HoldNeeds};
ghost use Rattle.typing_session.specs.Edits.{AddsNode, AreAtEnds, HoldUsers, ReachesEnd, SpreadsFrom};
ghost use Rattle.typing_session.specs.Kept.{is_free, kept_on, pairs_of};
ghost use Rattle.typing_session.specs.References.{AreReferences};
ghost use Rattle.typing_session.specs.Uses.{AreUsesByValue};

use crate::kept::Kept;
use crate::met::Met;
use crate::references::{References, find_references, found_references};
use crate::users::users;
use crate::uses::Use;
use graph_index::graph::Graph;
use rdf_terms::table::TermTable;
use rdf_terms::terms::{TermId, Triple};
use schema_tree::schema::{Pair, Schema, ShapeId};
use std::alloc::{AllocError, Global};

/// Those of the pairs that are kept, in their order.
fn kept_of(alloc: Global, kept: &Kept, pairs: &[Pair]) -> Result<Vec<Pair>, AllocError>
    ensures { IfOk result (λ v. v.items ≡ filter (λ q. not (is_free (kept_on kept.now q))) pairs.now) }
{
    let mut found = Vec::new(alloc);
    for pair in pairs {
        if kept.get(*pair).is_some() {
            found.push(*pair)?;
        }
    }
    Ok(found)
}

/// Adds the node with each Shape of the schema.
fn push_node(schema: &Schema, node: TermId, found: &mut Vec<Pair>) -> Result<(), AllocError>
    requires loaded { IsLoaded schema.now }
    ensures { OnOk result (AddsNode node (length schema.now.shapes) found.old.items found.new.items) }
{
    let count = schema.shapes.as_slice().len();
    let mut number = 0;
    while number < count {
        let shape = ShapeId(number as u32);
        found.push(Pair { node, shape })?;
        number += 1;
    }
    Ok(())
}

/// The pairs at the ends of a triple that are kept.
fn met_at_ends(
    alloc: Global,
    schema: &Schema,
    kept: &Kept,
    triple: Triple,
) -> Result<Met, AllocError>
    requires loaded { IsLoaded schema.now }
    requires shapes { (q : Held) → Contains (pairs_of kept.now) q → q.shape.0 < length schema.now.shapes }
    ensures { IfOk result (AreAtEnds (pairs_of kept.now) triple) }
{
    let mut ends = Vec::new(alloc);
    push_node(schema, triple.s, &mut ends)?;
    push_node(schema, triple.o, &mut ends)?;
    let held = kept_of(alloc, kept, ends.as_slice())?;
    let mut met = Met::new(alloc);
    met.put_all(held.as_slice())?;
    Ok(met)
}

/// Adds the pairs that need one of the pairs, themselves or through others, among those that are kept.
fn spread(
    alloc: Global,
    schema: &Schema,
    uses: &[Vec<Use>],
    graph: &Graph,
    terms: &TermTable,
    kept: &Kept,
    met: &mut Met,
) -> Result<(), AllocError>
    requires loaded { IsLoaded schema.now }
    requires uses { AreUsesByValue schema.now (map (λ l. l.items) uses.now) }
    requires sealed { IsSealedWith terms.now graph.now }
    requires within { (q : Held) → Contains met.old q → Contains (pairs_of kept.now) q }
    ensures spread { OnOk result (SpreadsFrom schema.now graph.now.triples (pairs_of kept.now) met.old met.new) }
    ensures whole { OnOk result (HoldUsers schema.now graph.now.triples (pairs_of kept.now) met.new) }
{
    let _count = kept.len();
    let mut at = 0;
    while at < met.len() {
        let pair = met.as_slice()[at];
        let found = users(alloc, schema, uses, graph, terms, pair)?;
        let held = kept_of(alloc, kept, found.as_slice())?;
        met.put_all(held.as_slice())?;
        at += 1;
    }
    Ok(())
}

/// The pairs among those that are kept, and have all that they need, that reach a pair at an end of the triple. The
/// references of the schema are found where they are not there yet.
pub(crate) fn reaching(
    alloc: Global,
    schema: &Schema,
    references: &mut Option<References>,
    graph: &Graph,
    terms: &TermTable,
    kept: &Kept,
    triple: Triple,
) -> Result<Met, AllocError>
    requires loaded { IsLoaded schema.now }
    requires there { IfSome references.old (AreReferences schema.now) }
    requires sealed { IsSealedWith terms.now graph.now }
    requires shapes { (q : Held) → Contains (pairs_of kept.now) q → q.shape.0 < length schema.now.shapes }
    requires closed { HoldNeeds schema.now graph.now.triples (pairs_of kept.now) }
    ensures there { IfSome references.new (AreReferences schema.now) }
    ensures reaching { IfOk result (λ m. (q : Held) → Contains m q ↔ (Contains (pairs_of kept.now) q × ReachesEnd schema.now graph.now.triples triple q)) }
{
    find_references(alloc, schema, references)?;
    let uses = found_references(references).uses.as_slice();
    let mut met = met_at_ends(alloc, schema, kept, triple)?;
    spread(alloc, schema, uses, graph, terms, kept, &mut met)?;
    Ok(met)
}
