//! How deep each part is.

ghost use Rattle.std.specs.Prelude.{ℕ, ◌≡◌, ◌≤◌, ◌<◌, ◌⊎◌, Contains, IfOk, length};
ghost use Rattle.schema_load.specs.Graph.{weight};
ghost use Rattle.schema_load.specs.Requirements.{HasOne, IsDeep, IsTwice, NoneIs};
ghost use Rattle.schema_load.specs.Steps.{AreDepths, AreTargets, HasAll, IsFirstFound, IsGreatest, IsSorted};

use crate::nexts::steps;
use crate::part::Part;
use std::alloc::{AllocError, Global};

/// The greater number.
pub fn greater(a: usize, b: usize) -> usize
    ensures above { a ≤ result }
    ensures over { b ≤ result }
    ensures one { (result ≡ a) ⊎ (result ≡ b) }
{
    if a < b {
        return b;
    }
    a
}

/// The greatest of the depths at the places, and 0 where there is no place.
fn deepest(depths: &[usize], places: &[usize]) -> usize
    requires { (q : ℕ) → Contains places.now q → q < length depths.now }
    ensures { IsGreatest depths.now places.now result }
{
    let mut most = 0;
    for place in places {
        most = greater(most, depths[*place]);
    }
    most
}

/// By how much a part is deeper than the deepest to which it leads.
fn weight_of(part: &Part) -> usize
    ensures { result ≡ weight part.now }
{
    match part {
        Part::Ref(_) => 0,
        _ => 1,
    }
}

/// The depth of each part.
pub fn depths_of(
    alloc: Global,
    parts: &[Part],
    targets: &[usize],
    order: &[usize],
) -> Result<Vec<usize>, AllocError>
    requires once { NoneIs (HasOne (IsTwice parts.now)) }
    requires targets { AreTargets parts.now targets.now }
    requires sorted { IsSorted parts.now targets.now order.now }
    requires all { HasAll parts.now order.now }
    ensures { IfOk result (λ depths. AreDepths parts.now depths.items) }
{
    let mut depths: Vec<usize> = vec![in alloc; 0; parts.len()]?;
    for done in 0..order.len() {
        let place = order[done];
        let inside = deepest(depths.as_slice(), steps(&parts[place], targets, place));
        depths[place] = weight_of(&parts[place]) + inside;
    }
    Ok(depths)
}

/// The first part that is too deep.
pub fn find_deep(parts: &[Part], depths: &[usize]) -> Option<usize>
    requires { AreDepths parts.now depths.now }
    ensures { IsFirstFound (IsDeep parts.now) result }
{
    for place in 0..parts.len() {
        if 256 < depths[place] {
            return Some(place);
        }
    }
    None
}
