//! Where labels are given.

ghost use Rattle.std.specs.Prelude.{Some, ◌≡◌, ◌↔◌, IfOk, IsTrue, OnOk, cond};
ghost use Rattle.indexmap.specs.IndexMap.{get};
ghost use Rattle.schema_documents.specs.declared.label.Label.{Label};
ghost use Rattle.schema_load.specs.Given.{AreNames, IsElsewhere, IsGivenAgain, Notes, declared_label, named_label, same_label};

use crate::part::Part;
use indexmap::IndexMap;
use schema_documents::Label;
use std::alloc::{AllocError, Global};

/// The last place at which each label is given, for shape expressions and for triple expressions.
#[derive(Drop)]
pub struct Names {
    /// The heads of declarations.
    pub declared: IndexMap<Label, usize>,
    /// The triple expressions.
    pub named: IndexMap<Label, usize>,
}

/// Notes the place of a label.
fn note(
    alloc: Global,
    last: &mut IndexMap<Label, usize>,
    label: &Label,
    place: usize,
) -> Result<(), AllocError>
    ensures { OnOk result (Notes (Some label.now) place (get same_label last.old) (get same_label last.new)) }
{
    last.insert(label.try_clone(alloc)?, place)?;
    Ok(())
}

/// Notes the place of the shape expression that a part declares, if it does.
fn note_declared(
    alloc: Global,
    last: &mut IndexMap<Label, usize>,
    part: &Part,
    place: usize,
) -> Result<(), AllocError>
    ensures { OnOk result (Notes (declared_label part.now) place (get same_label last.old) (get same_label last.new)) }
{
    match part {
        Part::Declares(label) => note(alloc, last, label, place),
        _ => Ok(()),
    }
}

/// Notes the place of a triple expression, if the part is one with a label.
fn note_named(
    alloc: Global,
    last: &mut IndexMap<Label, usize>,
    part: &Part,
    place: usize,
) -> Result<(), AllocError>
    ensures { OnOk result (Notes (named_label part.now) place (get same_label last.old) (get same_label last.new)) }
{
    match part {
        Part::Triple(triple) => match &triple.label {
            Some(label) => note(alloc, last, label, place),
            None => Ok(()),
        },
        _ => Ok(()),
    }
}

/// The last place of each label.
pub fn names_of(alloc: Global, parts: &[Part]) -> Result<Names, AllocError>
    ensures { IfOk result (AreNames parts.now) }
{
    let mut declared: IndexMap<Label, usize> = IndexMap::new(alloc);
    let mut named: IndexMap<Label, usize> = IndexMap::new(alloc);
    for place in 0..parts.len() {
        note_declared(alloc, &mut declared, &parts[place], place)?;
        note_named(alloc, &mut named, &parts[place], place)?;
    }
    Ok(Names { declared, named })
}

/// The place that is noted for a label, if there is one.
pub fn find_place(last: &IndexMap<Label, usize>, label: &Label) -> Option<usize>
    ensures { result ≡ get same_label last.now label.now }
{
    match last.get(label) {
        Some(place) => Some(*place),
        None => None,
    }
}

/// Whether another place is noted for the label.
fn is_elsewhere(last: &IndexMap<Label, usize>, label: &Label, place: usize) -> bool
    ensures { IsTrue result ↔ IsElsewhere (get same_label last.now label.now) place }
{
    match find_place(last, label) {
        Some(other) => other != place,
        None => false,
    }
}

/// Whether the label that the part at the place gives is given at a later place, too.
pub fn is_given_again(names: &Names, part: &Part, place: usize) -> bool
    ensures { IsTrue result ↔ IsGivenAgain names.now part.now place }
{
    match part {
        Part::Declares(label) => is_elsewhere(&names.declared, label, place),
        Part::Triple(triple) => match &triple.label {
            Some(label) => is_elsewhere(&names.named, label, place),
            None => false,
        },
        _ => false,
    }
}
