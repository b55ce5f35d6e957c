//! The entries of a schema.

ghost use Rattle.std.specs.Prelude.{ℕ, List, true, ◌≡◌, ◌<◌, ◌≤◌, Contains, IfOk, Some, filter, length, map, slice_get};
ghost use Rattle.std.specs.List.{AllZip};
ghost use Rattle.lists.specs.Distinct.{AreDistinct};
ghost use Rattle.rdf_terms.specs.declared.terms.Term.{Term};
ghost use Rattle.schema_load.specs.declared.part.Part.{Part};
ghost use Rattle.schema_load.specs.Building.{AreEntries, AreShapeNumbers, number_in};
ghost use Rattle.schema_load.specs.Parts.{AreWhole, Names, is_entry, is_shape};
ghost use Rattle.schema_load.specs.Stands.{IsEntryAt, IsEntryOf, shape_number};
ghost use Rattle.schema_load.specs.Steps.{one_if};

use crate::part::Part;
use crate::sizes::shapes_in;
use rdf_terms::items::Items;
use schema_tree::schema::{Expr, ExprId, ShapeId};
use std::alloc::{AllocError, Global};
use std::mem;

/// How many Shapes stand before each place.
fn shape_numbers(alloc: Global, parts: &[Part]) -> Result<Vec<u32>, AllocError>
    requires { length (filter is_shape parts.now) ≤ 4096 }
    ensures { IfOk result (λ numbers. AreShapeNumbers parts.now numbers.items) }
{
    let mut numbers: Vec<u32> = Vec::new(alloc);
    let mut before: u32 = 0;
    for place in 0..parts.len() {
        numbers.push(before)?;
        before += shapes_in(&parts[place]);
    }
    Ok(numbers)
}

/// The numbers of the expressions at the places.
fn ids_of(alloc: Global, numbers: &[u32], places: &[usize]) -> Result<Vec<ExprId>, AllocError>
    requires { (q : ℕ) → Contains places.now q → q < length numbers.now }
    ensures { IfOk result (λ ids. ids.items ≡ map (number_in numbers.now) places.now) }
{
    let mut ids: Vec<ExprId> = Vec::new(alloc);
    for place in places {
        ids.push(ExprId(numbers[*place]))?;
    }
    Ok(ids)
}

/// The entry of a part, before which so many Shapes stand.
fn entry_of(alloc: Global, part: Part, numbers: &[u32], shapes: u32) -> Result<Expr, AllocError>
    requires entry { is_entry part ≡ true }
    requires inside { (q : ℕ) → Names part q → q < length numbers.now }
    ensures { (terms : List Term) (parts : List Part) (p : ℕ) → shape_number parts p ≡ shapes → IfOk result (IsEntryOf terms parts (number_in numbers.now) p part) }
{
    match part {
        Part::And(members) => {
            let ids = ids_of(alloc, numbers, members.as_slice())?;
            Ok(Expr::And(Items::of(ids)))
        }
        Part::Or(members) => {
            let ids = ids_of(alloc, numbers, members.as_slice())?;
            Ok(Expr::Or(Items::of(ids)))
        }
        Part::Not(member) => Ok(Expr::Not(ExprId(numbers[member]))),
        Part::Node(constraint) => Ok(Expr::Node(constraint)),
        Part::Shape(_) => Ok(Expr::Shape(ShapeId(shapes))),
        _ => unreachable!(),
    }
}

/// Takes the part at a place out, and leaves a head there.
fn take_out(parts: &mut Vec<Part>, place: usize) -> Part
    requires { place < length parts.old.items }
    ensures taken { slice_get parts.old.items place ≡ Some result }
    ensures size { length parts.new.items ≡ length parts.old.items }
    ensures others { (q : ℕ) → (q ≡ place → ⊥) → slice_get parts.new.items q ≡ slice_get parts.old.items q }
{
    mem::replace(&mut parts[place], Part::Start)
}

/// The entries at the places.
pub fn exprs_of(
    alloc: Global,
    parts: Vec<Part>,
    numbers: &[u32],
    entries: &[usize],
) -> Result<Vec<Expr>, AllocError>
    requires entries { AreEntries parts.items entries.now }
    requires distinct { AreDistinct entries.now }
    requires whole { AreWhole parts.items }
    requires size { length numbers.now ≡ length parts.items }
    requires few { length (filter is_shape parts.items) ≤ 4096 }
    ensures { (terms : List Term) → IfOk result (λ exprs. AllZip (IsEntryAt terms parts.items (number_in numbers.now)) entries.now exprs.items) }
{
    let shapes = shape_numbers(alloc, parts.as_slice())?;
    let mut parts = parts;
    let mut exprs: Vec<Expr> = Vec::new(alloc);
    for place in entries {
        let part = take_out(&mut parts, *place);
        exprs.push(entry_of(alloc, part, numbers, shapes[*place])?)?;
    }
    Ok(exprs)
}
