//! The Shapes that stand in the values of a schema's occurrences.

ghost use Rattle.std.specs.Prelude.{ℕ, ◌≡◌, ◌⊎◌, ◌↔◌, Contains, IfOk, OnOk, Some, map};
ghost use Rattle.schema_tree.specs.declared.schema.ShapeId.{ShapeId as Id};
ghost use Rattle.std.specs.List.{AllZip};
ghost use Rattle.schema_tree.specs.Entries.{entry};
ghost use Rattle.schema_tree.specs.Loaded.{IsLoaded};
ghost use Rattle.demand.specs.Links.{AreLinks, AreLinksOf, AreShapesIn, AreShapesOf, IsLink, members_of, own_of};

use agenda::Agenda;
use indexmap::IndexSet;
use rdf_terms::items::Items;
use schema_tree::schema::{Expr, ExprId, Occurrence, Schema, Shape, ShapeId};
use std::alloc::{AllocError, Global};

/// An occurrence with the Shapes that stand in its value.
#[derive(Debug, Drop)]
pub struct Link {
    /// The occurrence.
    pub occ: Occurrence,
    /// The Shapes that stand in its value, references followed, without passing into another Shape.
    pub shapes: Items<ShapeId>,
}

/// Adds a Shape, where it is not there.
fn add(shapes: &mut IndexSet<ShapeId>, shape: ShapeId) -> Result<(), AllocError>
    ensures { OnOk result ((i : Id) → Contains shapes.new.keys i ↔ (Contains shapes.old.keys i ⊎ (i ≡ shape))) }
{
    shapes.insert(shape)?;
    Ok(())
}

/// Puts the numbers of expressions on the agenda.
fn put_all(agenda: &mut Agenda, members: &[ExprId]) -> Result<(), AllocError>
    ensures { OnOk result ((q : ℕ) → Contains agenda.new q ↔ (Contains agenda.old q ⊎ Contains (map (λ d. d.0) members.now) q)) }
{
    for member in members {
        agenda.put(member.0)?;
    }
    Ok(())
}

/// Puts the numbers of the members of an expression on the agenda.
fn put_members(agenda: &mut Agenda, expr: &Expr) -> Result<(), AllocError>
    ensures { OnOk result ((q : ℕ) → Contains agenda.new q ↔ (Contains agenda.old q ⊎ Contains (members_of (Some expr.now)) q)) }
{
    match expr {
        Expr::And(members) => {
            put_all(agenda, members.as_slice())?;
            Ok(())
        }
        Expr::Or(members) => {
            put_all(agenda, members.as_slice())?;
            Ok(())
        }
        Expr::Not(member) => {
            agenda.put(member.0)?;
            Ok(())
        }
        Expr::Node(_) => Ok(()),
        Expr::Shape(_) => Ok(()),
    }
}

/// Adds the Shape that an expression is, if it is one.
fn add_own(shapes: &mut IndexSet<ShapeId>, expr: &Expr) -> Result<(), AllocError>
    ensures { OnOk result ((i : Id) → Contains shapes.new.keys i ↔ (Contains shapes.old.keys i ⊎ Contains (own_of (Some expr.now)) i)) }
{
    match expr {
        Expr::Shape(shape) => {
            add(shapes, *shape)?;
            Ok(())
        }
        Expr::And(_) => Ok(()),
        Expr::Or(_) => Ok(()),
        Expr::Not(_) => Ok(()),
        Expr::Node(_) => Ok(()),
    }
}

/// Opens an expression: its members go on the agenda, and a Shape to the Shapes.
fn open(
    schema: &Schema,
    expr: ExprId,
    agenda: &mut Agenda,
    shapes: &mut IndexSet<ShapeId>,
) -> Result<(), AllocError>
    ensures agenda { OnOk result ((q : ℕ) → Contains agenda.new q ↔ (Contains agenda.old q ⊎ Contains (members_of (entry schema.now expr)) q)) }
    ensures shapes { OnOk result ((i : Id) → Contains shapes.new.keys i ↔ (Contains shapes.old.keys i ⊎ Contains (own_of (entry schema.now expr)) i)) }
{
    match schema.exprs.as_slice().get(expr.0 as usize) {
        Some(found) => {
            put_members(agenda, found)?;
            add_own(shapes, found)?;
            Ok(())
        }
        None => Ok(()),
    }
}

/// The Shapes that stand in an expression, each once. Since members have smaller numbers, the greatest number is opened
/// next, and each once.
pub fn shapes_in(alloc: Global, schema: &Schema, expr: ExprId) -> Result<Items<ShapeId>, AllocError>
    requires loaded { IsLoaded schema.now }
    ensures { IfOk result (AreShapesIn schema.now expr) }
{
    let mut shapes = IndexSet::new(alloc);
    let mut agenda = Agenda::new(alloc);
    agenda.put(expr.0)?;
    while let Some(next) = agenda.take_greatest() {
        open(schema, ExprId(next), &mut agenda, &mut shapes)?;
    }
    let list = shapes.as_slice().iter().copied().collect(alloc)?;
    Ok(Items::of(list))
}

/// The Shapes that stand in a value, if there is one.
fn shapes_of(
    alloc: Global,
    schema: &Schema,
    value: Option<ExprId>,
) -> Result<Items<ShapeId>, AllocError>
    requires loaded { IsLoaded schema.now }
    ensures { IfOk result (AreShapesOf schema.now value) }
{
    match value {
        Some(expr) => {
            let shapes = shapes_in(alloc, schema, expr)?;
            Ok(shapes)
        }
        None => Ok(Items::of(Vec::new(alloc))),
    }
}

/// The links of occurrences.
fn links_of(alloc: Global, schema: &Schema, occs: &[Occurrence]) -> Result<Items<Link>, AllocError>
    requires loaded { IsLoaded schema.now }
    ensures { IfOk result (λ ls. AllZip (IsLink schema.now) occs.now ls) }
{
    let mut links = Vec::new(alloc);
    for occ in occs {
        let shapes = shapes_of(alloc, schema, occ.value)?;
        links.push(Link { occ: *occ, shapes })?;
    }
    Ok(Items::of(links))
}

/// The links of Shapes.
fn links_in(
    alloc: Global,
    schema: &Schema,
    shapes: &[Shape],
) -> Result<Items<Items<Link>>, AllocError>
    requires loaded { IsLoaded schema.now }
    ensures { IfOk result (λ all. AllZip (AreLinksOf schema.now) shapes.now all) }
{
    let mut all = Vec::new(alloc);
    for shape in shapes {
        all.push(links_of(alloc, schema, shape.occs.as_slice())?)?;
    }
    Ok(Items::of(all))
}

/// The links of each Shape.
pub fn links(alloc: Global, schema: &Schema) -> Result<Items<Items<Link>>, AllocError>
    requires loaded { IsLoaded schema.now }
    ensures { IfOk result (AreLinks schema.now) }
{
    links_in(alloc, schema, schema.shapes.as_slice())
}
