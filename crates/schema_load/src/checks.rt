//! The checks of documents, one after the other.

ghost use Rattle.std.specs.Prelude.{List, ◌≡◌, ◌<◌, IfErr, IfOk, Some, length, map, slice_get};
ghost use Rattle.rdf_terms.specs.declared.terms.Term.{Term};
ghost use Rattle.schema_documents.specs.Tree.{document_of};
ghost use Rattle.schema_documents.specs.declared.label.Label.{Label};
ghost use Rattle.schema_load.specs.Given.{AreNames};
ghost use Rattle.schema_load.specs.Names.{GivesLabel, RefersTo};
ghost use Rattle.schema_load.specs.Reading.{parts_of};
ghost use Rattle.schema_load.specs.Refusals.{Explains};
ghost use Rattle.schema_load.specs.Requirements.{HasOne, IsMissing, IsTwice, NoneIs};

use crate::error::LoadError;
use crate::given::{Names, names_of};
use crate::layout::lay_out;
use crate::names::find_twice;
use crate::part::{Part, TripleForm, TriplePart};
use crate::targets::find_missing;
use schema_documents::{Doc, Label};
use std::alloc::Global;

/// The part at a place.
pub fn take_part(parts: Vec<Part>, place: usize) -> Part
    requires { place < length parts.items }
    ensures { slice_get parts.items place ≡ Some result }
{
    let mut parts = parts;
    parts.swap_remove(place)
}

/// The label that a part gives.
pub fn given_label(part: Part) -> Label
    requires { (l : Label) × GivesLabel part l }
    ensures { GivesLabel part result }
{
    match part {
        Part::Declares(label) => label,
        Part::Triple(triple) => {
            let TriplePart {
                label,
                min: _,
                max: _,
                form: _,
            } = triple;
            match label {
                Some(label) => label,
                None => unreachable!(),
            }
        }
        _ => unreachable!(),
    }
}

/// The label to which a part refers.
fn referred_label(part: Part) -> Label
    requires { (l : Label) × RefersTo part l }
    ensures { RefersTo part result }
{
    match part {
        Part::Ref(label) => label,
        Part::Triple(triple) => {
            let TriplePart {
                label: _,
                min: _,
                max: _,
                form,
            } = triple;
            match form {
                TripleForm::Include(label) => label,
                _ => unreachable!(),
            }
        }
        _ => unreachable!(),
    }
}

/// The label that is given twice.
fn twice_at(parts: Vec<Part>, place: usize) -> Label
    requires { HasOne (IsTwice parts.items) place }
    ensures { IsTwice parts.items place result }
{
    given_label(take_part(parts, place))
}

/// The label that has no target.
fn missing_at(parts: Vec<Part>, place: usize) -> Label
    requires { HasOne (IsMissing parts.items) place }
    ensures { IsMissing parts.items place result }
{
    referred_label(take_part(parts, place))
}

/// Parts with the places of their labels.
#[derive(Drop)]
pub struct Named {
    /// The parts in reading order.
    pub parts: Vec<Part>,
    /// The places of their labels.
    pub names: Names,
}

/// The parts of documents where no label is given twice and each target is there.
pub fn checked_parts(alloc: Global, docs: Vec<Doc>) -> Result<Named, LoadError>
    ensures parts { IfOk result (λ n. n.parts.items ≡ parts_of (map document_of docs.items)) }
    ensures names { IfOk result (λ n. AreNames n.parts.items n.names) }
    ensures once { IfOk result (λ n. NoneIs (HasOne (IsTwice n.parts.items))) }
    ensures targets { IfOk result (λ n. NoneIs (HasOne (IsMissing n.parts.items))) }
    ensures refused { (terms : List Term) → IfErr result (Explains (map document_of docs.items) terms) }
{
    let parts = lay_out(alloc, docs)?;
    let names = names_of(alloc, parts.as_slice())?;
    if let Some(place) = find_twice(parts.as_slice(), &names) {
        return Err(LoadError::Twice(twice_at(parts, place)));
    }
    if let Some(place) = find_missing(parts.as_slice(), &names) {
        return Err(LoadError::Missing(missing_at(parts, place)));
    }
    Ok(Named { parts, names })
}
