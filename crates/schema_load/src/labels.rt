//! The labels and the start of a schema.

ghost use Rattle.std.specs.Prelude.{◌≡◌, ◌<◌, IfOk, OnOk, length};
ghost use Rattle.schema_documents.specs.declared.label.Label.{Label};
ghost use Rattle.schema_tree.specs.Labels.{IsDeclared};
ghost use Rattle.schema_load.specs.declared.part.Part.TheVariants.{Declares};
ghost use Rattle.schema_load.specs.Building.{AddsLabel, IsStartIn, labels_in, number_in};
ghost use Rattle.schema_load.specs.Parts.{AreWhole, IsAt};
ghost use Rattle.schema_load.specs.Requirements.{HasOne, IsTwice, NoneIs};

use crate::part::Part;
use schema_tree::labels::Labels;
use schema_tree::schema::ExprId;
use std::alloc::{AllocError, Global};

/// Adds the label of the part at a place, if it declares one.
fn add_label(
    alloc: Global,
    parts: &[Part],
    numbers: &[u32],
    place: usize,
    labels: &mut Labels,
) -> Result<(), AllocError>
    requires within { place < length parts.now }
    requires whole { AreWhole parts.now }
    requires size { length numbers.now ≡ length parts.now }
    requires new { (l : Label) → IsAt parts.now place (Declares l) → ¬ IsDeclared labels.old l }
    ensures { OnOk result (AddsLabel parts.now (number_in numbers.now) place labels.old labels.new) }
{
    match &parts[place] {
        Part::Declares(label) => {
            labels.declare(label.try_clone(alloc)?, ExprId(numbers[place + 1]))?;
            Ok(())
        }
        _ => Ok(()),
    }
}

/// The labels in reading order.
pub fn labels_of(alloc: Global, parts: &[Part], numbers: &[u32]) -> Result<Labels, AllocError>
    requires once { NoneIs (HasOne (IsTwice parts.now)) }
    requires whole { AreWhole parts.now }
    requires size { length numbers.now ≡ length parts.now }
    ensures { IfOk result (λ labels. labels ≡ labels_in parts.now (number_in numbers.now)) }
{
    let mut labels = Labels::new(alloc);
    for place in 0..parts.len() {
        add_label(alloc, parts, numbers, place, &mut labels)?;
    }
    Ok(labels)
}

/// The start, if there is one.
pub fn start_of(parts: &[Part], numbers: &[u32]) -> Option<ExprId>
    requires whole { AreWhole parts.now }
    requires size { length numbers.now ≡ length parts.now }
    ensures { IsStartIn parts.now (number_in numbers.now) result }
{
    if parts.is_empty() {
        return None;
    }
    match &parts[0] {
        Part::Start => Some(ExprId(numbers[1])),
        _ => None,
    }
}
