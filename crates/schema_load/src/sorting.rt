//! An order in which each place stands behind those to which it leads.

ghost use Rattle.std.specs.Prelude.{ℕ, List, true, false, [], ◌∷◌, ◌++◌, ◌≡◌, ◌+◌, ◌<◌, IfOk, OnOk, get_or, length, map};
ghost use Rattle.schema_load.specs.Graph.{Reaches};
ghost use Rattle.schema_load.specs.Sorting.{AreEntered, IsVisiting, unopened};
ghost use Rattle.schema_load.specs.Steps.{AreInside, AreTargets, HasAll, IsNext, IsSorted, Keeps};
ghost use Rattle.schema_load.specs.declared.sorting.Visit.TheVariants.{Enter};

use crate::nexts::steps;
use crate::part::Part;
use std::alloc::{AllocError, Global};

/// What is to be done at a place.
#[derive(Clone, Copy)]
pub enum Visit {
    /// It is looked at, and so are the places to which it leads.
    Enter(usize),
    /// All to which it leads have been looked at.
    Leave(usize),
}

/// A visit to each place.
pub fn all_visits(alloc: Global, count: usize) -> Result<Vec<Visit>, AllocError>
    ensures { IfOk result (λ visits. AreEntered count visits.items) }
{
    let mut visits: Vec<Visit> = Vec::new(alloc);
    for place in 0..count {
        visits.push(Visit::Enter(place))?;
    }
    Ok(visits)
}

/// Adds visits to places.
pub fn enter_all(visits: &mut Vec<Visit>, places: &[usize]) -> Result<(), AllocError>
    ensures { OnOk result (visits.new.items ≡ visits.old.items ++ map Enter places.now) }
{
    for place in places {
        visits.push(Visit::Enter(*place))?;
    }
    Ok(())
}

/// Puts a place behind the others, if it is not among them. All to which it leads are.
fn finish(done: &mut Vec<bool>, order: &mut Vec<usize>, place: usize) -> Result<(), AllocError>
    requires { place < length done.old.items }
    ensures kept { (parts : List Part) (targets : List ℕ) → Keeps parts targets done.old.items order.old.items →
        ((q : ℕ) → IsNext parts targets place q → get_or done.old.items q false ≡ true) →
        OnOk result (Keeps parts targets done.new.items order.new.items) }
    ensures done { OnOk result (get_or done.new.items place false ≡ true) }
    ensures still { OnOk result ((q : ℕ) → get_or done.old.items q false ≡ true → get_or done.new.items q false ≡ true) }
{
    if done[place] {
        return Ok(());
    }
    done[place] = true;
    order.push(place)?;
    Ok(())
}

/// Makes a visit. A place that is entered for the first time is left when all to which it leads have been entered. Says no
/// where a place is entered again before it is left.
fn visit_place(
    parts: &[Part],
    targets: &[usize],
    opened: &mut Vec<bool>,
    done: &mut Vec<bool>,
    order: &mut Vec<usize>,
    visits: &mut Vec<Visit>,
    visit: Visit,
) -> Result<bool, AllocError>
    requires targets { AreTargets parts.now targets.now }
    requires inside { AreInside parts.now targets.now }
    requires kept { Keeps parts.now targets.now done.old.items order.old.items }
    requires visiting { IsVisiting parts.now targets.now opened.old.items done.old.items (visits.old.items ++ visit ∷ []) }
    ensures kept { OnOk result (Keeps parts.now targets.now done.new.items order.new.items) }
    ensures visiting { IfOk result (λ goes. goes ≡ true → IsVisiting parts.now targets.now opened.new.items done.new.items visits.new.items) }
    ensures less { IfOk result (λ goes. goes ≡ true → length visits.new.items + unopened parts.now targets.now opened.new.items < (length visits.old.items + 1) + unopened parts.now targets.now opened.old.items) }
    ensures circle { IfOk result (λ goes. goes ≡ false → (q : ℕ) × Reaches parts.now q q) }
{
    match visit {
        Visit::Leave(place) => {
            finish(done, order, place)?;
            Ok(true)
        }
        Visit::Enter(place) => {
            if opened[place] {
                return Ok(done[place]);
            }
            opened[place] = true;
            visits.push(Visit::Leave(place))?;
            enter_all(visits, steps(&parts[place], targets, place))?;
            Ok(true)
        }
    }
}

/// The places in an order in which each stands behind those to which it leads. All are there, or some place leads to itself.
pub fn sort(alloc: Global, parts: &[Part], targets: &[usize]) -> Result<Vec<usize>, AllocError>
    requires targets { AreTargets parts.now targets.now }
    requires inside { AreInside parts.now targets.now }
    ensures sorted { IfOk result (λ order. IsSorted parts.now targets.now order.items) }
    ensures all { IfOk result (λ order. length order.items ≡ length parts.now → HasAll parts.now order.items) }
    ensures circle { IfOk result (λ order. (length order.items ≡ length parts.now → ⊥) → (q : ℕ) × Reaches parts.now q q) }
{
    let mut opened: Vec<bool> = vec![in alloc; false; parts.len()]?;
    let mut done: Vec<bool> = vec![in alloc; false; parts.len()]?;
    let mut order: Vec<usize> = Vec::new(alloc);
    let mut visits = all_visits(alloc, parts.len())?;
    while let Some(visit) = visits.pop() {
        if !visit_place(
            parts,
            targets,
            &mut opened,
            &mut done,
            &mut order,
            &mut visits,
            visit,
        )? {
            return Ok(order);
        }
    }
    Ok(order)
}
