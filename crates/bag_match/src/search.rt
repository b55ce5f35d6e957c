//! A search for the least places: least place first, and back where no place leads on. From counts that failed nothing is
//! searched again.

ghost use Rattle.std.specs.Prelude.{◌≡◌, ◌<◌, ◌≤◌, ◌+◌, ◌-◌, ◌++◌, ◌∷◌, ◌⊎◌, ◌^◌, [], ℕ, List, IfOk, IfSome, IsNone, IsTrue, OnOk, Some, drop, false, length, replicate, slice_get, slice_index, suc, take, true};
ghost use Rattle.schema_tree.specs.Loaded.{BodyOk};
ghost use Rattle.schema_tree.specs.declared.verdicts.Place.{Place};
ghost use Rattle.schema_tree.specs.States.{no_counts};
ghost use Rattle.bag_match.specs.Counts.{ArePlacesOf, IsPlaceOf, raised};
ghost use Rattle.bag_match.specs.Hopes.{AreOffers, IsHopeless};
ghost use Rattle.bag_match.specs.Least.{AreLeast, AreOffered};
ghost use Rattle.bag_match.specs.Searches.{AreFailed, AreLost, FinishesNever, HasFailed, IsLost, IsOpenFrom, IsSearch, IsWay, turns_left};

use crate::hopes::is_hopeless;
use crate::layers::{Question, places_at};
use crate::offering::{add_all, offers_of, take_all};
use crate::place_lists::PlaceLists;
use crate::places::Judge;
use crate::raising::{lower, put, raise, zeros};
use schema_tree::schema::Shape;
use schema_tree::verdicts::Place;
use std::alloc::{AllocError, Global};
use std::collections::BTreeSet;
use tally::laws::interval_has_copies;

/// What is known of the counts that places of one triple lead to.
#[derive(Clone, Copy)]
pub struct Ahead<'a> {
    /// The Shape.
    pub shape: &'a Shape,
    /// For each occurrence how many places of the triples behind it are this occurrence.
    pub more: &'a [u32],
    /// Counts from which nothing finishes, by how many triples have no place there.
    pub failed: &'a [BTreeSet<Vec<u32>>],
    /// How many triples are behind it.
    pub left: usize,
}

/// Whether the counts are in the set of this number.
fn has_failed(failed: &[BTreeSet<Vec<u32>>], left: usize, counts: &[u32]) -> bool
    ensures { IsTrue result → HasFailed failed.now left counts.now }
{
    match failed.get(left) {
        Some(found) => found.contains(counts),
        None => false,
    }
}

impl Ahead<'_> {
    /// Whether the counts are hopeless or have failed.
    fn is_lost(&self, counts: &[u32]) -> bool
        requires body { BodyOk self.now.shape.now.occs self.now.shape.now.body }
        requires few { length self.now.shape.now.occs ≤ 256 }
        requires one_each { length counts.now ≡ length self.now.shape.now.occs }
        requires beside { length self.now.more.now ≡ length self.now.shape.now.occs }
        requires small { (i : ℕ) → slice_index counts.now i + slice_index self.now.more.now i < 2 ^ 32 }
        ensures lost { IsTrue result → IsLost self.now.shape.now.body self.now.more.now self.now.failed.now self.now.left counts.now }
        ensures hopes { result ≡ false → ¬ IsHopeless self.now.shape.now.body counts.now self.now.more.now }
    {
        if is_hopeless(self.shape, counts, self.more) {
            return true;
        }
        has_failed(self.failed, self.left, counts)
    }

    /// Whether the place leads to counts that are hopeless or have failed. The counts are given back as they were.
    fn leads_nowhere(&self, counts: &mut Vec<u32>, place: Place) -> bool
        requires body { BodyOk self.now.shape.now.occs self.now.shape.now.body }
        requires few { length self.now.shape.now.occs ≤ 256 }
        requires one_each { length counts.old.items ≡ length self.now.shape.now.occs }
        requires beside { length self.now.more.now ≡ length self.now.shape.now.occs }
        requires small { (i : ℕ) → slice_index counts.old.items i < 2 ^ 31 }
        requires small_more { (i : ℕ) → slice_index self.now.more.now i < 2 ^ 31 }
        requires there { IsPlaceOf (length counts.old.items) place }
        ensures same { counts.new.items ≡ counts.old.items }
        ensures lost { IsTrue result → IsLost self.now.shape.now.body self.now.more.now self.now.failed.now self.now.left (raised counts.old.items place) }
        ensures hopes { result ≡ false → ¬ IsHopeless self.now.shape.now.body (raised counts.old.items place) self.now.more.now }
    {
        raise(counts, place);
        let lost = self.is_lost(counts.as_slice());
        lower(counts, place);
        lost
    }

    /// The number of the first of the places from one on that leads to counts that may finish. The counts are given back as
    /// they were.
    pub fn first_open(&self, counts: &mut Vec<u32>, places: &[Place], from: usize) -> Option<usize>
        requires body { BodyOk self.now.shape.now.occs self.now.shape.now.body }
        requires few { length self.now.shape.now.occs ≤ 256 }
        requires one_each { length counts.old.items ≡ length self.now.shape.now.occs }
        requires beside { length self.now.more.now ≡ length self.now.shape.now.occs }
        requires small { (i : ℕ) → slice_index counts.old.items i < 2 ^ 31 }
        requires small_more { (i : ℕ) → slice_index self.now.more.now i < 2 ^ 31 }
        requires there { ArePlacesOf (length counts.old.items) places.now }
        ensures same { counts.new.items ≡ counts.old.items }
        ensures within { IfSome result (λ at. from ≤ at) }
        ensures first { IfSome result (λ at. IsOpenFrom self.now.shape.now.body self.now.more.now self.now.failed.now self.now.left counts.old.items places.now from at) }
        ensures none { IsNone result → AreLost self.now.shape.now.body self.now.more.now self.now.failed.now self.now.left counts.old.items (take from places.now) places.now }
    {
        for at in from..places.len() {
            if !self.leads_nowhere(counts, places[at]) {
                return Some(at);
            }
        }
        None
    }
}

/// Puts the counts into the set of this number.
fn put_failed(
    alloc: Global,
    failed: &mut Vec<BTreeSet<Vec<u32>>>,
    left: usize,
    counts: &[u32],
) -> Result<(), AllocError>
    ensures { OnOk result ((k : ℕ) (c : List ℕ) → HasFailed failed.new.items k c → HasFailed failed.old.items k c ⊎ ((k ≡ left) × (counts.now ≡ c))) }
{
    while failed.len() <= left {
        failed.push(BTreeSet::new(alloc))?;
    }
    put(alloc, counts, &mut failed[left])
}

/// Where a search stands.
#[derive(Drop)]
pub struct Way {
    /// The place of each triple that has one.
    pub places: Vec<Place>,
    /// The number of each of them among those that are allowed for its triple.
    tried: Vec<usize>,
    /// The counts that they lead to.
    counts: Vec<u32>,
    /// For each occurrence how many places of the other triples are this occurrence.
    more: Vec<u32>,
    /// Counts from which nothing finishes, by how many triples have no place there.
    pub failed: Vec<BTreeSet<Vec<u32>>>,
}

impl Way {
    /// The next triple takes the place, which has this number among those that are allowed for it.
    fn enter(&mut self, place: Place, at: usize) -> Result<(), AllocError>
        requires small { (i : ℕ) → slice_index self.old.counts.items i < 2 ^ 31 }
        requires there { IsPlaceOf (length self.old.counts.items) place }
        ensures places { OnOk result (self.new.places.items ≡ self.old.places.items ++ place ∷ []) }
        ensures tried { OnOk result (self.new.tried.items ≡ self.old.tried.items ++ at ∷ []) }
        ensures counts { OnOk result (self.new.counts.items ≡ raised self.old.counts.items place) }
        ensures more { self.new.more.items ≡ self.old.more.items }
        ensures failed { self.new.failed.items ≡ self.old.failed.items }
    {
        raise(&mut self.counts, place);
        self.places.push(place)?;
        self.tried.push(at)?;
        Ok(())
    }
}

/// The place of this number.
fn place_at(places: &[Place], at: usize) -> Place
    requires { at < length places.now }
    ensures { slice_get places.now at ≡ Some result }
{
    places[at]
}

/// The number after that of one of the places.
fn number_after(places: &[Place], at: usize) -> usize
    requires { at < length places.now }
    ensures { result ≡ suc at }
{
    at + 1
}

impl<J: Judge> Question<'_, J> {
    /// A search at its beginning: no triple has a place.
    pub fn way(&self, alloc: Global, offered: &PlaceLists) -> Result<Way, AllocError>
        requires offered { AreOffered (J.hold self.now.judge.now) (J.fail self.now.judge.now) self.now.shape.now self.now.node self.now.triples.now (length self.now.triples.now) offered.now }
        requires few { length self.now.triples.now < 2 ^ 31 }
        ensures places { IfOk result (λ w. w.places.items ≡ []) }
        ensures tried { IfOk result (λ w. w.tried.items ≡ []) }
        ensures counts { IfOk result (λ w. w.counts.items ≡ replicate (length self.now.shape.now.occs) 0) }
        ensures more { IfOk result (λ w. AreOffers (length self.now.shape.now.occs) offered.now w.more.items) }
        ensures failed { IfOk result (λ w. w.failed.items ≡ []) }
    {
        let occurrences = self.shape.occs.as_slice().len();
        let more = offers_of(alloc, occurrences, offered)?;
        let counts = zeros(alloc, occurrences)?;
        let places = Vec::with_capacity(alloc, self.triples.len())?;
        let tried = Vec::with_capacity(alloc, self.triples.len())?;
        Ok(Way {
            places,
            tried,
            counts,
            more,
            failed: Vec::new(alloc),
        })
    }

    /// The last triple that has a place, from whose counts nothing finishes, gives it back: the number of the next place for
    /// it, if there is such a triple.
    fn back(&self, offered: &PlaceLists, way: &mut Way) -> Option<usize>
        requires offered { AreOffered (J.hold self.now.judge.now) (J.fail self.now.judge.now) self.now.shape.now self.now.node self.now.triples.now (length self.now.triples.now) offered.now }
        requires few { length self.now.triples.now < 2 ^ 31 }
        requires within { length way.old.places.items < length self.now.triples.now }
        requires way { IsWay (J.hold self.now.judge.now) (J.fail self.now.judge.now) self.now.shape.now self.now.node self.now.triples.now offered.now 0 (no_counts self.now.shape.now.occs) way.old.places.items way.old.tried.items way.old.counts.items }
        requires more { AreOffers (length self.now.shape.now.occs) (drop (length way.old.places.items) offered.now) way.old.more.items }
        requires failed { AreFailed (J.hold self.now.judge.now) (J.fail self.now.judge.now) self.now.shape.now self.now.node self.now.triples.now way.old.failed.items }
        requires never { FinishesNever (J.hold self.now.judge.now) (J.fail self.now.judge.now) self.now.shape.now self.now.node self.now.triples.now (length way.old.places.items) way.old.counts.items }
        ensures goes { IfSome result (λ from. IsSearch (J.hold self.now.judge.now) (J.fail self.now.judge.now) self.now.shape.now self.now.node self.now.triples.now offered.now way.new.places.items way.new.tried.items way.new.counts.items way.new.more.items way.new.failed.items from) }
        ensures less { (next : ℕ) → IfSome result (λ from. turns_left offered.now way.new.tried.items from < turns_left offered.now way.old.tried.items next) }
        ensures failed { AreFailed (J.hold self.now.judge.now) (J.fail self.now.judge.now) self.now.shape.now self.now.node self.now.triples.now way.new.failed.items }
        ensures ends { IsNone result → FinishesNever (J.hold self.now.judge.now) (J.fail self.now.judge.now) self.now.shape.now self.now.node self.now.triples.now 0 (no_counts self.now.shape.now.occs) }
    {
        let Some(place) = way.places.pop() else {
            return None;
        };
        let Some(at) = way.tried.pop() else {
            return None;
        };
        let places = places_at(offered, way.places.len());
        lower(&mut way.counts, place);
        add_all(&mut way.more, places);
        Some(number_after(places, at))
    }

    /// One turn of the search, where places from one on are left to the next triple: it goes to the first that may lead on, or
    /// back where none does. What is given is from which place on it goes on; there is no such where the search is at its end.
    fn turn(
        &self,
        alloc: Global,
        offered: &PlaceLists,
        way: &mut Way,
        from: usize,
    ) -> Result<Option<usize>, AllocError>
        requires offered { AreOffered (J.hold self.now.judge.now) (J.fail self.now.judge.now) self.now.shape.now self.now.node self.now.triples.now (length self.now.triples.now) offered.now }
        requires body { BodyOk self.now.shape.now.occs self.now.shape.now.body }
        requires few { length self.now.triples.now < 2 ^ 31 }
        requires few_occurrences { length self.now.shape.now.occs ≤ 256 }
        requires within { length way.old.places.items < length self.now.triples.now }
        requires stands { IsSearch (J.hold self.now.judge.now) (J.fail self.now.judge.now) self.now.shape.now self.now.node self.now.triples.now offered.now way.old.places.items way.old.tried.items way.old.counts.items way.old.more.items way.old.failed.items from }
        ensures goes { IfOk result (λ o. IfSome o (λ next. IsSearch (J.hold self.now.judge.now) (J.fail self.now.judge.now) self.now.shape.now self.now.node self.now.triples.now offered.now way.new.places.items way.new.tried.items way.new.counts.items way.new.more.items way.new.failed.items next)) }
        ensures less { IfOk result (λ o. IfSome o (λ next. turns_left offered.now way.new.tried.items next < turns_left offered.now way.old.tried.items from)) }
        ensures failed { IfOk result (λ o. AreFailed (J.hold self.now.judge.now) (J.fail self.now.judge.now) self.now.shape.now self.now.node self.now.triples.now way.new.failed.items) }
        ensures ends { IfOk result (λ o. IsNone o → FinishesNever (J.hold self.now.judge.now) (J.fail self.now.judge.now) self.now.shape.now self.now.node self.now.triples.now 0 (no_counts self.now.shape.now.occs)) }
    {
        let left = self.triples.len() - way.places.len();
        let places = places_at(offered, way.places.len());
        take_all(&mut way.more, places);
        let ahead = Ahead {
            shape: self.shape,
            more: way.more.as_slice(),
            failed: way.failed.as_slice(),
            left: left - 1,
        };
        match ahead.first_open(&mut way.counts, places, from) {
            Some(at) => {
                way.enter(place_at(places, at), at)?;
                Ok(Some(0))
            }
            None => {
                add_all(&mut way.more, places);
                put_failed(alloc, &mut way.failed, left, way.counts.as_slice())?;
                Ok(self.back(offered, way))
            }
        }
    }

    /// Whether a search from its beginning comes to places for all triples.
    pub fn search(
        &self,
        alloc: Global,
        offered: &PlaceLists,
        way: &mut Way,
    ) -> Result<bool, AllocError>
        requires offered { AreOffered (J.hold self.now.judge.now) (J.fail self.now.judge.now) self.now.shape.now self.now.node self.now.triples.now (length self.now.triples.now) offered.now }
        requires body { BodyOk self.now.shape.now.occs self.now.shape.now.body }
        requires few { length self.now.triples.now < 2 ^ 31 }
        requires few_occurrences { length self.now.shape.now.occs ≤ 256 }
        requires places { way.old.places.items ≡ [] }
        requires tried { way.old.tried.items ≡ [] }
        requires counts { way.old.counts.items ≡ replicate (length self.now.shape.now.occs) 0 }
        requires more { AreOffers (length self.now.shape.now.occs) offered.now way.old.more.items }
        requires failed { way.old.failed.items ≡ [] }
        ensures found { IfOk result (λ b. b ≡ true → AreLeast (J.hold self.now.judge.now) (J.fail self.now.judge.now) self.now.shape.now self.now.node self.now.triples.now way.new.places.items) }
        ensures failed { IfOk result (λ b. AreFailed (J.hold self.now.judge.now) (J.fail self.now.judge.now) self.now.shape.now self.now.node self.now.triples.now way.new.failed.items) }
        ensures none { IfOk result (λ b. b ≡ false → FinishesNever (J.hold self.now.judge.now) (J.fail self.now.judge.now) self.now.shape.now self.now.node self.now.triples.now 0 (no_counts self.now.shape.now.occs)) }
    {
        interval_has_copies();
        if is_hopeless(self.shape, way.counts.as_slice(), way.more.as_slice()) {
            return Ok(false);
        }
        let mut from = 0;
        while way.places.len() < self.triples.len() {
            match self.turn(alloc, offered, way, from)? {
                Some(next) => from = next,
                None => return Ok(false),
            }
        }
        Ok(true)
    }
}
