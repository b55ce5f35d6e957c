//! Matches without a choice: each triple has one place alone.

ghost use Rattle.std.specs.Prelude.{◌≡◌, ◌↔◌, ◌<◌, ◌≤◌, ◌+◌, ◌^◌, IfOk, IfSome, IsTrue, false, length, map, true};
ghost use Rattle.schema_tree.specs.Loaded.{BodyOk};
ghost use Rattle.bag_match.specs.Least.{AreLeast, AreOffered, sole};
ghost use Rattle.bag_match.specs.Searches.{HavePlaces};

use crate::counts::have_counts;
use crate::layers::Question;
use crate::place_lists::PlaceLists;
use crate::places::Judge;
use schema_tree::verdicts::Place;
use std::alloc::{AllocError, Global};
use std::sync::ledger::Ledger;
use tally::Steps;

/// The place of each list, where each has one alone.
pub fn sole_places(alloc: Global, offered: &PlaceLists) -> Result<Option<Vec<Place>>, AllocError>
    ensures { IfOk result (λ o. IfSome o (λ v. map sole v.items ≡ offered.now)) }
{
    let mut places = Vec::with_capacity(alloc, offered.len())?;
    for i in 0..offered.len() {
        match offered.at(i) {
            [place] => places.push(*place)?,
            _ => return Ok(None),
        }
    }
    Ok(Some(places))
}

/// Ticks once for each of the places.
fn tick_all<L: Ledger>(places: &[Place], steps: &mut Steps<L>)
    ensures { steps.new ≡ steps.old + length places.now }
{
    for _place in places {
        steps.tick();
    }
}

impl<J: Judge> Question<'_, J> {
    /// Whether the only places that are allowed, where each triple has one alone, have matching counts. Neither a search nor
    /// states are made for them. It ticks once for each where they have.
    pub fn sole_match<L: Ledger>(
        &self,
        alloc: Global,
        offered: &PlaceLists,
        places: &[Place],
        steps: &mut Steps<L>,
    ) -> Result<bool, AllocError>
        requires offered { AreOffered (J.hold self.now.judge.now) (J.fail self.now.judge.now) self.now.shape.now self.now.node self.now.triples.now (length self.now.triples.now) offered.now }
        requires body { BodyOk self.now.shape.now.occs self.now.shape.now.body }
        requires few { length self.now.triples.now < 2 ^ 31 }
        requires sole { map sole places.now ≡ offered.now }
        ensures least { IfOk result (λ b. b ≡ true → AreLeast (J.hold self.now.judge.now) (J.fail self.now.judge.now) self.now.shape.now self.now.node self.now.triples.now places.now) }
        ensures decided { IfOk result (λ b. IsTrue b ↔ HavePlaces (J.hold self.now.judge.now) (J.fail self.now.judge.now) self.now.shape.now self.now.node self.now.triples.now) }
        ensures ticked { IfOk result (λ b. b ≡ true → steps.new ≡ steps.old + length places.now) }
        ensures still { IfOk result (λ b. b ≡ false → steps.new ≡ steps.old) }
        ensures few { steps.new ≤ steps.old + length self.now.triples.now }
    {
        if !have_counts(alloc, self.shape, places)? {
            return Ok(false);
        }
        tick_all(places, steps);
        Ok(true)
    }
}
