//! The pairs at which roots start.

ghost use Rattle.std.specs.Prelude.{◌≡◌, IfErr, IfOk, OnOk, map};
ghost use Rattle.std.specs.List.Sorted.{IsPermutation};
ghost use Rattle.schema_tree.specs.Loaded.{IsLoaded};
ghost use Rattle.demand.specs.Closing.{AddsStarts, StopsAtStart};
ghost use Rattle.demand.specs.Demand.{root, roots_of};
ghost use Rattle.demand.specs.Links.{AreShapesIn};

use crate::error::DemandError;
use crate::links::shapes_in;
use crate::reach::Root;
use crate::seeing::see_node;
use crate::table::PairTable;
use rdf_terms::items::Items;
use rdf_terms::terms::TermId;
use schema_tree::schema::{ExprId, Schema, ShapeId};
use std::alloc::{AllocError, Global};
use std::mem;

/// Makes the Shapes those of the wanted expression, where they are those of another one.
fn turn_to(
    alloc: Global,
    schema: &Schema,
    wanted: ExprId,
    expr: &mut ExprId,
    shapes: &mut Items<ShapeId>,
) -> Result<(), AllocError>
    requires loaded { IsLoaded schema.now }
    requires shapes { AreShapesIn schema.now expr.old shapes.old }
    ensures expr { OnOk result (expr.new ≡ wanted) }
    ensures shapes { OnOk result (AreShapesIn schema.now wanted shapes.new) }
{
    if expr.0 == wanted.0 {
        return Ok(());
    }
    let others = shapes_in(alloc, schema, wanted)?;
    drop(mem::replace(shapes, others));
    *expr = wanted;
    Ok(())
}

/// Puts the pairs at which roots start into the table. The Shapes of an expression are sought once for the roots in a row that
/// have it.
fn see_rows(
    alloc: Global,
    schema: &Schema,
    roots: &[Root],
    seen: &mut PairTable,
) -> Result<(), DemandError>
    requires loaded { IsLoaded schema.now }
    ensures seen { OnOk result (AddsStarts schema.now roots.now seen.old seen.new) }
    ensures stops { IfErr result (StopsAtStart schema.now roots.now seen.old) }
{
    let Some(first) = roots.first() else {
        return Ok(());
    };
    let mut expr = first.expr;
    let mut shapes = shapes_in(alloc, schema, expr)?;
    for root in roots {
        turn_to(alloc, schema, root.expr, &mut expr, &mut shapes)?;
        see_node(seen, root.node, shapes.as_slice())?;
    }
    Ok(())
}

/// The roots in the order of their expressions.
fn by_expr(alloc: Global, roots: &[Root]) -> Result<Vec<Root>, AllocError>
    ensures { IfOk result (λ v. IsPermutation roots.now v.items) }
{
    let mut ordered: Vec<Root> = roots.iter().copied().collect(alloc)?;
    ordered.sort_by(|a, b| a.expr.0.cmp(&b.expr.0))?;
    Ok(ordered)
}

/// Puts the pairs at which roots start into the table. The Shapes of an expression are sought once for all roots that have it.
pub(crate) fn see_roots(
    alloc: Global,
    schema: &Schema,
    roots: &[Root],
    seen: &mut PairTable,
) -> Result<(), DemandError>
    requires loaded { IsLoaded schema.now }
    ensures seen { OnOk result (AddsStarts schema.now roots.now seen.old seen.new) }
    ensures stops { IfErr result (StopsAtStart schema.now roots.now seen.old) }
{
    let ordered = by_expr(alloc, roots)?;
    see_rows(alloc, schema, ordered.as_slice(), seen)
}

/// Puts the pairs at which the nodes start with an expression into the table.
fn see_nodes(
    alloc: Global,
    schema: &Schema,
    nodes: &[TermId],
    expr: ExprId,
    seen: &mut PairTable,
) -> Result<(), DemandError>
    requires loaded { IsLoaded schema.now }
    ensures seen { OnOk result (AddsStarts schema.now (map (root expr) nodes.now) seen.old seen.new) }
    ensures stops { IfErr result (StopsAtStart schema.now (map (root expr) nodes.now) seen.old) }
{
    let shapes = shapes_in(alloc, schema, expr)?;
    for node in nodes {
        see_node(seen, *node, shapes.as_slice())?;
    }
    Ok(())
}

/// Puts the pairs at which the nodes start with each of the expressions into the table.
pub(crate) fn see_each(
    alloc: Global,
    schema: &Schema,
    nodes: &[TermId],
    exprs: &[ExprId],
    seen: &mut PairTable,
) -> Result<(), DemandError>
    requires loaded { IsLoaded schema.now }
    ensures seen { OnOk result (AddsStarts schema.now (roots_of nodes.now exprs.now) seen.old seen.new) }
    ensures stops { IfErr result (StopsAtStart schema.now (roots_of nodes.now exprs.now) seen.old) }
{
    for expr in exprs {
        see_nodes(alloc, schema, nodes, *expr, seen)?;
    }
    Ok(())
}
