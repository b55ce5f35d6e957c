//! The numbers of expressions.

ghost use Rattle.std.specs.Prelude.{ℕ, ◌≡◌, ◌<◌, ◌≤◌, IfOk, Some, get_or, length, slice_get};
ghost use Rattle.lists.specs.Distinct.{AreDistinct};
ghost use Rattle.schema_load.specs.Building.{AreEntries, AreEntryNumbers, AreReferred, IsNumberTarget, KeepsEntries, number_at};
ghost use Rattle.schema_load.specs.Parts.{AreWhole};
ghost use Rattle.schema_load.specs.Steps.{AreTargets, HasAll, IsSorted};

use crate::part::Part;
use std::alloc::{AllocError, Global};

/// The number of each entry at its place, and 0 at the other places.
fn number_entries(alloc: Global, count: usize, entries: &[usize]) -> Result<Vec<u32>, AllocError>
    requires within { (i p : ℕ) → slice_get entries.now i ≡ Some p → p < count }
    requires distinct { AreDistinct entries.now }
    requires few { length entries.now ≤ 4294967295 }
    ensures size { IfOk result (λ numbers. length numbers.items ≡ count) }
    ensures numbers { IfOk result (λ numbers. AreEntryNumbers entries.now numbers.items) }
{
    let mut numbers: Vec<u32> = vec![in alloc; 0; count]?;
    for number in 0..entries.len() {
        numbers[entries[number]] = number as u32;
    }
    Ok(numbers)
}

/// The number of the expression at a place: that of its target, where it is a reference.
fn number_at(part: &Part, numbers: &[u32], place: usize, target: usize) -> u32
    requires place { place < length numbers.now }
    requires target { IsNumberTarget part.now (length numbers.now) target }
    ensures { result ≡ number_at part.now numbers.now place target }
{
    match part {
        Part::Ref(_) => numbers[target],
        _ => numbers[place],
    }
}

/// Gives each reference the number of the expression to which it leads.
fn number_references(parts: &[Part], targets: &[usize], order: &[usize], numbers: &mut Vec<u32>)
    requires targets { AreTargets parts.now targets.now }
    requires whole { AreWhole parts.now }
    requires sorted { IsSorted parts.now targets.now order.now }
    requires all { HasAll parts.now order.now }
    requires size { length numbers.old.items ≡ length parts.now }
    ensures size { length numbers.new.items ≡ length parts.now }
    ensures kept { KeepsEntries parts.now numbers.old.items numbers.new.items }
    ensures referred { AreReferred parts.now numbers.new.items }
{
    for done in 0..order.len() {
        let place = order[done];
        let number = number_at(&parts[place], numbers.as_slice(), place, targets[place]);
        numbers[place] = number;
    }
}

/// The number of the expression at each place.
pub fn numbers_of(
    alloc: Global,
    parts: &[Part],
    targets: &[usize],
    order: &[usize],
    entries: &[usize],
) -> Result<Vec<u32>, AllocError>
    requires targets { AreTargets parts.now targets.now }
    requires whole { AreWhole parts.now }
    requires sorted { IsSorted parts.now targets.now order.now }
    requires all { HasAll parts.now order.now }
    requires entries { AreEntries parts.now entries.now }
    requires distinct { AreDistinct entries.now }
    requires few { length entries.now ≤ 4294967295 }
    ensures size { IfOk result (λ numbers. length numbers.items ≡ length parts.now) }
    ensures numbers { IfOk result (λ numbers. AreEntryNumbers entries.now numbers.items) }
    ensures referred { IfOk result (λ numbers. AreReferred parts.now numbers.items) }
{
    let mut numbers = number_entries(alloc, parts.len(), entries)?;
    number_references(parts, targets, order, &mut numbers);
    Ok(numbers)
}
