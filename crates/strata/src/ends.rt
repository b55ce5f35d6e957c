//! The edges between the Shapes of a schema by the Shape to which they lead.

ghost use Rattle.std.specs.Prelude.{◌≡◌, ◌<◌, Some, [], IfOk, OnOk, length, map, slice_get};
ghost use Rattle.schema_tree.specs.Loaded.{IsLoaded};
ghost use Rattle.strata.specs.Arcs.{AreArcs, AreByEnd, IsPut};

use crate::edges::Arc;
use schema_tree::schema::{Schema, ShapeId};
use std::alloc::{AllocError, Global};

/// Lists without edges, as many as this.
fn no_arcs(alloc: Global, count: usize) -> Result<Vec<Vec<Arc>>, AllocError>
    ensures count { IfOk result (λ v. length v.items ≡ count) }
    ensures none { IfOk result (λ v. AreByEnd [] (map (λ l. l.items) v.items)) }
{
    let mut lists = Vec::new(alloc);
    for _ in 0..count {
        lists.push(Vec::new(alloc))?;
    }
    Ok(lists)
}

/// Puts the edge behind those that lead to the same Shape.
fn put_arc(lists: &mut Vec<Vec<Arc>>, arc: Arc) -> Result<(), AllocError>
    requires there { arc.to.0 < length lists.old.items }
    ensures put { OnOk result (IsPut (map (λ l. l.items) lists.old.items) arc (map (λ l. l.items) lists.new.items)) }
    ensures same { length lists.new.items ≡ length lists.old.items }
{
    lists[arc.to.0 as usize].push(arc)?;
    Ok(())
}

/// The edges by the Shape to which they lead.
pub fn by_end(alloc: Global, s: &Schema, arcs: &[Arc]) -> Result<Vec<Vec<Arc>>, AllocError>
    requires loaded { IsLoaded s.now }
    requires edges { AreArcs s.now arcs.now }
    ensures count { IfOk result (λ v. length v.items ≡ length s.now.shapes) }
    ensures each { IfOk result (λ v. AreByEnd arcs.now (map (λ l. l.items) v.items)) }
{
    let mut lists = no_arcs(alloc, s.shapes.as_slice().len())?;
    for arc in arcs {
        put_arc(&mut lists, *arc)?;
    }
    Ok(lists)
}

/// The edges that lead to the Shape.
pub fn leading(lists: &[Vec<Arc>], to: ShapeId) -> &[Arc]
    requires { to.0 < length lists.now }
    ensures { slice_get (map (λ l. l.items) lists.now) to.0 ≡ Some result.now }
{
    lists[to.0 as usize].as_slice()
}
