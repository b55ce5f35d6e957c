//! The Shapes of a schema.

ghost use Rattle.std.specs.Prelude.{[], ◌≡◌, ◌<◌, IfOk, OnOk, length, map};
ghost use Rattle.std.specs.List.{AllZip};
ghost use Rattle.rdf_terms.specs.declared.terms.Term.TheVariants as Terms;
ghost use Rattle.schema_load.specs.Building.{HasEach, number_in};
ghost use Rattle.schema_load.specs.Parts.{shape_places};
ghost use Rattle.schema_load.specs.Shapes.{AddsShape, CanUnfold, IsBodyInside, IsShapeFrom};
ghost use Rattle.schema_load.specs.Stands.{IsBody, IsShapeAt, IsTerm};
ghost use Rattle.schema_load.specs.Unfolding.{IsReady};

use crate::part::{Part, ShapePart};
use crate::unfolding::{Room, Unfolder, find_iri};
use rdf_terms::items::Items;
use rdf_terms::table::TermTable;
use rdf_terms::terms::TermId;
use rdf_terms::text::Text;
use schema_tree::body::Body;
use schema_tree::schema::{Occurrence, Shape};
use std::alloc::{AllocError, Global};

/// The numbers of IRIs of the table.
fn find_iris(alloc: Global, iris: &[Text], terms: &TermTable) -> Result<Vec<TermId>, AllocError>
    requires { HasEach (map Terms.Iri iris.now) terms.now }
    ensures { IfOk result (λ ids. AllZip (IsTerm terms.now) iris.now ids.items) }
{
    let mut ids: Vec<TermId> = Vec::new(alloc);
    for iri in iris {
        ids.push(find_iri(alloc, iri, terms)?)?;
    }
    Ok(ids)
}

impl Unfolder<'_> {
    /// The triple expression of a Shape, if it has one, with its occurrences.
    fn body(
        &self,
        alloc: Global,
        body: Option<usize>,
        occs: &mut Vec<Occurrence>,
    ) -> Result<Option<Body>, AllocError>
        requires ready { IsReady self.now }
        requires inside { IsBodyInside self.now.parts.now body }
        requires empty { occs.old.items ≡ [] }
        ensures { IfOk result (λ plan. IsBody self.now.terms.now self.now.parts.now (number_in self.now.numbers.now) body plan occs.new.items) }
    {
        match body {
            Some(place) => {
                let mut room = Room::new();
                let count = self.unfold(alloc, place, occs, &mut room)?;
                Ok(Some(Body::of(count)))
            }
            None => Ok(None),
        }
    }

    /// The Shape of a part.
    fn shape(&self, alloc: Global, shape: &ShapePart) -> Result<Shape, AllocError>
        requires ready { IsReady self.now }
        requires inside { IsBodyInside self.now.parts.now shape.now.body }
        requires extra { HasEach (map Terms.Iri shape.now.extra) self.now.terms.now }
        ensures { IfOk result (IsShapeFrom self.now.terms.now self.now.parts.now (number_in self.now.numbers.now) shape.now) }
    {
        let mut occs: Vec<Occurrence> = Vec::new(alloc);
        let body = self.body(alloc, shape.body, &mut occs)?;
        let extra = find_iris(alloc, shape.extra.as_slice(), self.terms)?;
        Ok(Shape {
            closed: shape.closed,
            extra: Items::of(extra),
            body,
            occs: Items::of(occs),
        })
    }

    /// Adds the Shape of the part at a place, if it is one.
    fn add_shape(
        &self,
        alloc: Global,
        place: usize,
        shapes: &mut Vec<Shape>,
    ) -> Result<(), AllocError>
        requires ready { IsReady self.now }
        requires can { CanUnfold self.now.parts.now }
        requires inside { place < length self.now.parts.now }
        ensures { OnOk result (AddsShape self.now.terms.now self.now.parts.now (number_in self.now.numbers.now) place shapes.old.items shapes.new.items) }
    {
        match &self.parts[place] {
            Part::Shape(shape) => {
                shapes.push(self.shape(alloc, shape)?)?;
                Ok(())
            }
            _ => Ok(()),
        }
    }

    /// The Shapes in reading order.
    pub fn shapes(&self, alloc: Global) -> Result<Vec<Shape>, AllocError>
        requires ready { IsReady self.now }
        requires can { CanUnfold self.now.parts.now }
        ensures { IfOk result (λ shapes. AllZip (IsShapeAt self.now.terms.now self.now.parts.now (number_in self.now.numbers.now)) (shape_places self.now.parts.now) shapes.items) }
    {
        let mut shapes: Vec<Shape> = Vec::new(alloc);
        for place in 0..self.parts.len() {
            self.add_shape(alloc, place, &mut shapes)?;
        }
        Ok(shapes)
    }
}
