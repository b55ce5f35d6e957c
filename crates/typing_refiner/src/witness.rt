//! Places that show that a pair matches, and that are kept up where some of them are no longer allowed.

ghost use Rattle.std.specs.Prelude.{ℕ, List, ◌≡◌, ◌≢◌, OnOk, ◌∷◌, ◌≤◌, ◌<◌, ◌^◌, ◌↔◌, Contains, IfOk, IfSome, IsTrue, Some, length, slice_get, slice_index, slice_set};
ghost use Rattle.std.specs.Bool.{OnTrue};
ghost use Rattle.bag_match.specs.Counts.{ArePlacesOf, IsPlaceOf};
ghost use Rattle.lists.specs.Distinct.{AreDistinct};
ghost use Rattle.rdf_terms.specs.declared.terms.Triple.{Triple as Arc};
ghost use Rattle.schema_tree.specs.Loaded.{BodyOk};
ghost use Rattle.schema_tree.specs.Places.{HaveCounts, times};
ghost use Rattle.schema_tree.specs.declared.verdicts.Place.{Place as Spot};
ghost use Rattle.tally.specs.Copies.{Copies};
ghost use Rattle.tally.specs.Span.{IsSound};
ghost use Rattle.tally.specs.Symbols.{Covers, IsDistinct};
ghost use Rattle.typing_refiner.specs.Witnessed.{ArePlaced, IsStanding, IsTally, Takes};

use crate::triple_table::{TripleTable, table_of};
use bag_match::arcs::RelevantTriples;
use bag_match::places::{Judge, allowed_places};
use bag_match::raising::{lower, raise, zeros};
use rdf_terms::terms::{TermId, Triple};
use schema_tree::body::Body;
use schema_tree::schema::Shape;
use schema_tree::verdicts::Place;
use std::alloc::{AllocError, Global};
use tally::counting::interval;

/// A place for each relevant triple of a pair, and how many of them are each occurrence.
#[derive(Drop)]
pub struct Witness {
    /// The triples.
    pub triples: TripleTable,
    /// A place for each.
    pub places: Vec<Place>,
    /// How many of the places are each occurrence.
    pub counts: Vec<u32>,
    /// From which number on triples were tried for the place that another lost.
    pub untried: usize,
}

/// Whether the counts spell the expression once.
fn spell_once(body: &Body, counts: &[u32]) -> bool
    requires distinct { IsDistinct body.now }
    requires sound { IsSound body.now }
    requires covered { Covers (length counts.now) body.now }
    ensures { IsTrue result ↔ Copies body.now (slice_index counts.now) 1 }
{
    match interval(body.count(), counts, counts) {
        Some(copies) => copies.contains(1),
        None => false,
    }
}

/// The place of a number.
fn place_at(places: &[Place], at: usize) -> Place
    requires { at < length places.now }
    ensures { slice_get places.now at ≡ Some result }
{
    places[at]
}

/// Whether a place is one of these.
fn is_among(places: &[Place], place: Place) -> bool
    ensures { IsTrue result ↔ Contains places.now place }
{
    places.contains(&place)
}

/// Puts a place at a number.
fn put_place(places: &mut Vec<Place>, at: usize, place: Place)
    requires { at < length places.old.items }
    ensures { places.new.items ≡ slice_set places.old.items at place }
{
    places[at] = place;
}

/// How many of the places are each occurrence, for so many occurrences.
fn counts_of(alloc: Global, occurrences: usize, places: &[Place]) -> Result<Vec<u32>, AllocError>
    requires few { length places.now < 2 ^ 31 }
    requires inside { ArePlacesOf occurrences places.now }
    ensures long { IfOk result (λ v. length v.items ≡ occurrences) }
    ensures counted { IfOk result (λ v. (i : ℕ) → slice_index v.items i ≡ times places.now i) }
{
    let mut counts = zeros(alloc, occurrences)?;
    for place in places {
        raise(&mut counts, *place);
    }
    Ok(counts)
}

impl Witness {
    /// The witness of places for triples, where these are distinct and not too many.
    pub fn of(
        alloc: Global,
        triples: &RelevantTriples<'_>,
        occurrences: usize,
        places: &[Place],
    ) -> Result<Option<Witness>, AllocError>
        requires inside { ArePlacesOf occurrences places.now }
        ensures triples { IfOk result (λ o. IfSome o (λ w. w.triples ≡ triples.now)) }
        ensures places { IfOk result (λ o. IfSome o (λ w. w.places.items ≡ places.now)) }
        ensures tally { IfOk result (λ o. IfSome o (λ w. IsTally occurrences w)) }
    {
        if triples.len() != places.len() || places.len() >= 1 << 31 {
            return Ok(None);
        }
        let counts = counts_of(alloc, occurrences, places)?;
        let untried = places.len();
        let places = places.to_vec(alloc)?;
        match table_of(alloc, triples)? {
            Some(triples) => Ok(Some(Witness {
                triples,
                places,
                counts,
                untried,
            })),
            None => Ok(None),
        }
    }

    /// Gives the triple of a number another place.
    fn set_place(&mut self, at: usize, place: Place)
        requires there { at < length self.old.places.items }
        requires tally { IsTally (length self.old.counts.items) self.old }
        requires inside { IsPlaceOf (length self.old.counts.items) place }
        ensures triples { self.new.triples ≡ self.old.triples }
        ensures untried { self.new.untried ≡ self.old.untried }
        ensures places { self.new.places.items ≡ slice_set self.old.places.items at place }
        ensures long { length self.new.counts.items ≡ length self.old.counts.items }
        ensures tally { IsTally (length self.old.counts.items) self.new }
    {
        let before = place_at(self.places.as_slice(), at);
        lower(&mut self.counts, before);
        raise(&mut self.counts, place);
        put_place(&mut self.places, at, place);
    }

    /// Whether the counts match.
    fn matches(&self, shape: &Shape) -> bool
        requires body { BodyOk shape.now.occs shape.now.body }
        requires tally { IsTally (length shape.now.occs) self.now }
        ensures { IsTrue result → HaveCounts shape.now.body (times self.now.places.items) }
    {
        match &shape.body {
            Some(body) => spell_once(body, self.counts.as_slice()),
            None => false,
        }
    }

    /// Gives the triple of a number the first of the places from which the counts match, and answers whether there is one.
    fn take_one(&mut self, shape: &Shape, at: usize, allowed: &[Place]) -> bool
        requires there { at < length self.old.places.items }
        requires body { BodyOk shape.now.occs shape.now.body }
        requires tally { IsTally (length shape.now.occs) self.old }
        requires inside { ArePlacesOf (length shape.now.occs) allowed.now }
        ensures triples { self.new.triples ≡ self.old.triples }
        ensures untried { self.new.untried ≡ self.old.untried }
        ensures tally { IsTally (length shape.now.occs) self.new }
        ensures others { (i : ℕ) → i ≢ at → slice_get self.new.places.items i ≡ slice_get self.old.places.items i }
        ensures takes { OnTrue result (Takes shape.now.body at allowed.now self.old.places.items self.new.places.items) }
    {
        for place in allowed {
            self.set_place(at, *place);
            if self.matches(shape) {
                return true;
            }
        }
        false
    }

    /// Gives the triple of a number the first allowed place from which the counts match, and answers whether there is one.
    /// Where there is none, it has the place that it had.
    fn settles<J: Judge>(
        &mut self,
        alloc: Global,
        judge: &J,
        shape: &Shape,
        node: TermId,
        triple: Triple,
        at: usize,
    ) -> Result<bool, AllocError>
        requires ready { J.ready judge.now }
        requires body { BodyOk shape.now.occs shape.now.body }
        requires few { length shape.now.occs ≤ 256 }
        requires tally { IsTally (length shape.now.occs) self.old }
        requires distinct { AreDistinct self.old.triples }
        requires there { slice_get self.old.triples at ≡ Some triple }
        ensures triples { self.new.triples ≡ self.old.triples }
        ensures untried { self.new.untried ≡ self.old.untried }
        ensures tally { IsTally (length shape.now.occs) self.new }
        ensures placed { OnOk result ((free : List Arc) →
            ArePlaced (J.hold judge.now) (J.fail judge.now) shape.now node free self.old →
            ArePlaced (J.hold judge.now) (J.fail judge.now) shape.now node free self.new) }
        ensures spelled { IfOk result (λ b. OnTrue b (HaveCounts shape.now.body (times self.new.places.items))) }
    {
        let allowed = allowed_places(alloc, judge, shape, node, triple)?;
        let before = place_at(self.places.as_slice(), at);
        if self.take_one(shape, at, allowed.as_slice()) {
            return Ok(true);
        }
        self.set_place(at, before);
        Ok(false)
    }

    /// Gives one of the triples that were not tried an allowed place from which the counts match, the last of them that has
    /// one, and answers whether there is one.
    fn exchange<J: Judge>(
        &mut self,
        alloc: Global,
        judge: &J,
        shape: &Shape,
        node: TermId,
    ) -> Result<bool, AllocError>
        requires ready { J.ready judge.now }
        requires body { BodyOk shape.now.occs shape.now.body }
        requires few { length shape.now.occs ≤ 256 }
        requires tally { IsTally (length shape.now.occs) self.old }
        requires distinct { AreDistinct self.old.triples }
        ensures triples { self.new.triples ≡ self.old.triples }
        ensures tally { IsTally (length shape.now.occs) self.new }
        ensures stands { IfOk result (λ b. OnTrue b ((free : List Arc) →
            ArePlaced (J.hold judge.now) (J.fail judge.now) shape.now node free self.old →
            IsStanding (J.hold judge.now) (J.fail judge.now) shape.now node free self.new)) }
    {
        let mut at = self.untried;
        while at > 0 {
            at -= 1;
            self.untried = at;
            let Some(triple) = self.triples.at(at) else {
                continue;
            };
            if self.settles(alloc, judge, shape, node, triple, at)? {
                return Ok(true);
            }
        }
        Ok(false)
    }

    /// Looks again at the place of the triple of a number, gives it another one where that place is no longer allowed, and
    /// answers whether the witness stands.
    pub fn keeps<J: Judge>(
        &mut self,
        alloc: Global,
        judge: &J,
        shape: &Shape,
        node: TermId,
        triple: Triple,
        at: usize,
    ) -> Result<bool, AllocError>
        requires ready { J.ready judge.now }
        requires body { BodyOk shape.now.occs shape.now.body }
        requires few { length shape.now.occs ≤ 256 }
        requires tally { IsTally (length shape.now.occs) self.old }
        requires distinct { AreDistinct self.old.triples }
        requires there { slice_get self.old.triples at ≡ Some triple }
        ensures triples { self.new.triples ≡ self.old.triples }
        ensures tally { IsTally (length shape.now.occs) self.new }
        ensures stands { IfOk result (λ b. OnTrue b ((free : List Arc) →
            IsStanding (J.hold judge.now) (J.fail judge.now) shape.now node (triple ∷ free) self.old →
            IsStanding (J.hold judge.now) (J.fail judge.now) shape.now node free self.new)) }
    {
        let allowed = allowed_places(alloc, judge, shape, node, triple)?;
        if is_among(allowed.as_slice(), place_at(self.places.as_slice(), at)) {
            return Ok(true);
        }
        if self.take_one(shape, at, allowed.as_slice()) {
            return Ok(true);
        }
        if !is_among(allowed.as_slice(), Place::Rest) {
            return Ok(false);
        }
        self.set_place(at, Place::Rest);
        self.exchange(alloc, judge, shape, node)
    }
}
