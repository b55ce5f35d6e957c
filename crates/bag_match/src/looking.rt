//! Ticks for a search: where it finds places, for states that are looked at on the way to them, and where it finds none, for
//! the opening state and for each of the counts that failed.

ghost use Rattle.std.specs.Prelude.{◌≡◌, ◌↔◌, ◌<◌, ◌≤◌, ◌+◌, ◌*◌, ◌^◌, ℕ, List, Contains, IfOk, IfSome, IsNone, IsTrue, length};
ghost use Rattle.schema_tree.specs.Loaded.{BodyOk};
ghost use Rattle.schema_tree.specs.States.{no_counts};
ghost use Rattle.schema_tree.specs.declared.verdicts.Place.{Place};
ghost use Rattle.bag_match.specs.Bounds.{AreApart, IsBound};
ghost use Rattle.bag_match.specs.Least.{AreLeast, AreOffered};
ghost use Rattle.bag_match.specs.Searches.{FinishesNever, HavePlaces, failed_at};
ghost use Rattle.bag_match.specs.Sets.{lists_of};

use crate::layers::{Question, places_at};
use crate::place_lists::PlaceLists;
use crate::places::Judge;
use crate::search::Way;
use schema_tree::verdicts::Place;
use std::alloc::{AllocError, Global};
use std::collections::BTreeSet;
use std::sync::ledger::Ledger;
use tally::Steps;

/// Ticks once for each state that is looked at for one triple: for each of the places up to that which is taken.
fn tick_up_to<L: Ledger>(places: &[Place], taken: Place, steps: &mut Steps<L>)
    ensures some { 0 < length places.now → steps.old + 1 ≤ steps.new }
    ensures few { steps.new ≤ steps.old + length places.now }
{
    for place in places {
        steps.tick();
        if *place == taken {
            return;
        }
    }
}

/// Ticks once for each of the counts in the set.
fn tick_each<L: Ledger>(found: &BTreeSet<Vec<u32>>, steps: &mut Steps<L>)
    ensures ticked { steps.new ≡ steps.old + length (lists_of found.now) }
    ensures apart { AreApart (lists_of found.now) }
{
    for _counts in found {
        steps.tick();
    }
}

/// Ticks once for each of the counts that failed with so many triples left.
fn tick_failed<L: Ledger>(failed: &[BTreeSet<Vec<u32>>], left: usize, steps: &mut Steps<L>)
    ensures ticked { steps.new ≡ steps.old + length (failed_at failed.now left) }
    ensures apart { AreApart (failed_at failed.now left) }
{
    if let Some(found) = failed.get(left) {
        tick_each(found, steps);
    }
}

/// Whether no counts failed with so many triples left.
fn none_failed(failed: &[BTreeSet<Vec<u32>>], left: usize) -> bool {
    match failed.get(left) {
        Some(found) => found.is_empty(),
        None => true,
    }
}

/// Ticks once for each state that is looked at for one triple, with so many triples behind it: for each of the places up to
/// that which is taken, or, where counts failed there, for each of these and once for those that the taken place leads to.
fn tick_layer<L: Ledger>(
    failed: &[BTreeSet<Vec<u32>>],
    left: usize,
    places: &[Place],
    taken: Place,
    steps: &mut Steps<L>,
)
    ensures some { 0 < length places.now → steps.old + 1 ≤ steps.new }
    ensures few { (bound : ℕ) → length places.now ≤ bound → (AreApart (failed_at failed.now left) → length (failed_at failed.now left) + 1 ≤ bound) → steps.new ≤ steps.old + bound }
{
    if none_failed(failed, left) {
        tick_up_to(places, taken, steps);
    } else {
        tick_failed(failed, left, steps);
        steps.tick();
    }
}

/// Ticks once for each state that is looked at on the way by the places that are taken, one for each of the lists, and once
/// for the opening state.
fn tick_looked<L: Ledger>(
    failed: &[BTreeSet<Vec<u32>>],
    offered: &PlaceLists,
    taken: &[Place],
    steps: &mut Steps<L>,
)
    requires beside { length offered.now ≡ length taken.now }
    requires some { (places : List Place) → Contains offered.now places → 0 < length places }
    ensures least { steps.old + length taken.now ≤ steps.new }
    ensures most { (bound : ℕ) → 1 ≤ bound → ((places : List Place) → Contains offered.now places → length places ≤ bound) → ((left : ℕ) → left < length taken.now → AreApart (failed_at failed.now left) → length (failed_at failed.now left) + 1 ≤ bound) → steps.new ≤ steps.old + (length taken.now + 1) * bound }
{
    steps.tick();
    for done in 0..taken.len() {
        let left = taken.len() - 1 - done;
        tick_layer(failed, left, places_at(offered, done), taken[done], steps);
    }
}

/// Ticks once for the opening state, and once for each of the counts behind it that failed.
fn tick_lost<L: Ledger>(failed: &[BTreeSet<Vec<u32>>], triples: usize, steps: &mut Steps<L>)
    ensures most { (bound : ℕ) → 1 ≤ bound → ((left : ℕ) → left < triples → AreApart (failed_at failed.now left) → length (failed_at failed.now left) ≤ bound) → steps.new ≤ steps.old + (triples + 1) * bound }
{
    steps.tick();
    for left in 0..triples {
        tick_failed(failed, left, steps);
    }
}

impl<J: Judge> Question<'_, J> {
    /// The least places, by a search among those that are allowed for each triple, which the lists are, if there are any. Where
    /// there are none, it has not ticked: the layers tick, which look at its states again.
    pub fn search_places<L: Ledger>(
        &self,
        alloc: Global,
        offered: &PlaceLists,
        steps: &mut Steps<L>,
    ) -> Result<Option<Vec<Place>>, AllocError>
        requires offered { AreOffered (J.hold self.now.judge.now) (J.fail self.now.judge.now) self.now.shape.now self.now.node self.now.triples.now (length self.now.triples.now) offered.now }
        requires body { BodyOk self.now.shape.now.occs self.now.shape.now.body }
        requires few { length self.now.triples.now < 2 ^ 31 }
        requires few_occurrences { length self.now.shape.now.occs ≤ 256 }
        ensures places { IfOk result (λ o. IfSome o (λ v. AreLeast (J.hold self.now.judge.now) (J.fail self.now.judge.now) self.now.shape.now self.now.node self.now.triples.now v.items)) }
        ensures none { IfOk result (λ o. IsNone o → FinishesNever (J.hold self.now.judge.now) (J.fail self.now.judge.now) self.now.shape.now self.now.node self.now.triples.now 0 (no_counts self.now.shape.now.occs)) }
        ensures ticked { IfOk result (λ o. IfSome o (λ v. steps.old + length v.items ≤ steps.new)) }
        ensures still { IfOk result (λ o. IsNone o → steps.new ≡ steps.old) }
        ensures most { (bound : ℕ) → IsBound (J.hold self.now.judge.now) (J.fail self.now.judge.now) self.now.shape.now self.now.node self.now.triples.now bound → steps.new ≤ steps.old + (length self.now.triples.now + 1) * bound }
    {
        let mut way = self.way(alloc, offered)?;
        if self.search(alloc, offered, &mut way)? {
            tick_looked(way.failed.as_slice(), offered, way.places.as_slice(), steps);
            let Way { places, .. } = way;
            Ok(Some(places))
        } else {
            Ok(None)
        }
    }

    /// The least places, by a search among those that are allowed for each triple, which the lists are, if there are any. Where
    /// there are none, it ticks for the opening state and for the counts that failed.
    pub fn find_places<L: Ledger>(
        &self,
        alloc: Global,
        offered: &PlaceLists,
        steps: &mut Steps<L>,
    ) -> Result<Option<Vec<Place>>, AllocError>
        requires offered { AreOffered (J.hold self.now.judge.now) (J.fail self.now.judge.now) self.now.shape.now self.now.node self.now.triples.now (length self.now.triples.now) offered.now }
        requires body { BodyOk self.now.shape.now.occs self.now.shape.now.body }
        requires few { length self.now.triples.now < 2 ^ 31 }
        requires few_occurrences { length self.now.shape.now.occs ≤ 256 }
        ensures places { IfOk result (λ o. IfSome o (λ v. AreLeast (J.hold self.now.judge.now) (J.fail self.now.judge.now) self.now.shape.now self.now.node self.now.triples.now v.items)) }
        ensures none { IfOk result (λ o. IsNone o → ¬ HavePlaces (J.hold self.now.judge.now) (J.fail self.now.judge.now) self.now.shape.now self.now.node self.now.triples.now) }
        ensures most { (bound : ℕ) → IsBound (J.hold self.now.judge.now) (J.fail self.now.judge.now) self.now.shape.now self.now.node self.now.triples.now bound → steps.new ≤ steps.old + (length self.now.triples.now + 1) * bound }
    {
        let mut way = self.way(alloc, offered)?;
        if self.search(alloc, offered, &mut way)? {
            tick_looked(way.failed.as_slice(), offered, way.places.as_slice(), steps);
            let Way { places, .. } = way;
            return Ok(Some(places));
        }
        tick_lost(way.failed.as_slice(), self.triples.len(), steps);
        Ok(None)
    }
}
