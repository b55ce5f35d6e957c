//! The states of a match, layer by layer.

ghost use Rattle.std.specs.Prelude.{◌≡◌, ◌↔◌, ◌<◌, ◌≤◌, ◌+◌, ◌*◌, ◌^◌, ℕ, List, Contains, IfOk, OnOk, Some, drop, length, slice_get};
ghost use Rattle.std.specs.List.{flat_map};
ghost use Rattle.rdf_terms.specs.declared.terms.TermId.{TermId};
ghost use Rattle.rdf_terms.specs.declared.terms.Triple.{Triple};
ghost use Rattle.schema_tree.specs.Loaded.{BodyOk};
ghost use Rattle.bag_match.specs.Bounds.{AreApart, IsBound};
ghost use Rattle.bag_match.specs.Counts.{AreLeft};
ghost use Rattle.bag_match.specs.Layers.{AreLayers, AreLiving, IsLayer};
ghost use Rattle.bag_match.specs.Least.{AreOffered, ArePlacesFor};
ghost use Rattle.bag_match.specs.Sets.{AreSmall, lists_of};

use crate::arcs::RelevantTriples;
use crate::dying::{fits_of, is_dead, pass_next};
use crate::place_lists::PlaceLists;
use crate::places::{Judge, find_allowed};
use crate::raising::{successors, zeros};
use rdf_terms::items::Items;
use rdf_terms::terms::TermId;
use schema_tree::schema::Shape;
use schema_tree::verdicts::{Place, State};
use std::alloc::{AllocError, Global};
use std::collections::BTreeSet;
use std::sync::ledger::Ledger;
use tally::Steps;

/// A Shape at a node, with its relevant triples in their order, and what judges values.
#[derive(Drop)]
pub struct Question<'a, J> {
    /// The Shape.
    pub shape: &'a Shape,
    /// The node.
    pub node: TermId,
    /// The relevant triples.
    pub triples: &'a RelevantTriples<'a>,
    /// What judges values.
    pub judge: &'a J,
}

/// The states with so many triples done and counts of the set that are not dead, where the numbers say how many of the
/// later triples each occurrence fits.
fn living<L: Ledger>(
    alloc: Global,
    shape: &Shape,
    done: u32,
    found: BTreeSet<Vec<u32>>,
    left: &[u32],
    steps: &mut Steps<L>,
) -> Result<Vec<State>, AllocError>
    requires body { BodyOk shape.now.occs shape.now.body }
    requires few { length shape.now.occs ≤ 256 }
    requires beside { length left.now ≡ length shape.now.occs }
    requires small { AreSmall (length shape.now.occs) left.now (lists_of found) }
    ensures living { IfOk result (λ v. (n : TermId) (ts : List Triple) → AreLeft shape.now.occs n (drop done ts) left.now →
        AreLiving shape.now n ts done (lists_of found) v.items) }
    ensures least { IfOk result (λ v. steps.old + length v.items ≤ steps.new) }
    ensures most { steps.new ≤ steps.old + length (lists_of found) }
    ensures apart { AreApart (lists_of found) }
{
    let mut states = Vec::new(alloc);
    for counts in found {
        steps.tick();
        if !is_dead(shape, counts.as_slice(), left) {
            states.push(State {
                done,
                counts: Items::of(counts),
            })?;
        }
    }
    Ok(states)
}

/// The layer of so many triples done.
pub fn layer_at(layers: &[Items<State>], done: usize) -> &[State]
    requires { done < length layers.now }
    ensures { slice_get layers.now done ≡ Some result.now }
{
    layers[done].as_slice()
}

/// The places of the triple with so many triples before it.
pub fn places_at(lists: &PlaceLists, done: usize) -> &[Place]
    requires { done < length lists.now }
    ensures { slice_get lists.now done ≡ Some result.now }
{
    lists.at(done)
}

impl<J: Judge> Question<'_, J> {
    /// The opening state, unless it is dead.
    fn first<L: Ledger>(
        &self,
        alloc: Global,
        left: &[u32],
        steps: &mut Steps<L>,
    ) -> Result<Vec<State>, AllocError>
        requires body { BodyOk self.now.shape.now.occs self.now.shape.now.body }
        requires few { length self.now.triples.now < 2 ^ 31 }
        requires few_occurrences { length self.now.shape.now.occs ≤ 256 }
        requires left { AreLeft self.now.shape.now.occs self.now.node self.now.triples.now left.now }
        ensures layer { IfOk result (λ v. IsLayer (J.hold self.now.judge.now) (J.fail self.now.judge.now) self.now.shape.now self.now.node self.now.triples.now 0 v.items) }
        ensures least { IfOk result (λ v. steps.old + length v.items ≤ steps.new) }
        ensures most { steps.new ≤ steps.old + 1 }
    {
        let mut states = Vec::new(alloc);
        let counts = zeros(alloc, self.shape.occs.as_slice().len())?;
        steps.tick();
        if is_dead(self.shape, counts.as_slice(), left) {
            return Ok(states);
        }
        let counts = Items::of(counts);
        states.push(State { done: 0, counts })?;
        Ok(states)
    }

    /// The states that allowed places for the next triple reach from those of a layer.
    fn next<L: Ledger>(
        &self,
        alloc: Global,
        done: usize,
        layer: &[State],
        places: &[Place],
        left: &[u32],
        steps: &mut Steps<L>,
    ) -> Result<Vec<State>, AllocError>
        requires body { BodyOk self.now.shape.now.occs self.now.shape.now.body }
        requires few { length self.now.triples.now < 2 ^ 31 }
        requires few_occurrences { length self.now.shape.now.occs ≤ 256 }
        requires within { done < length self.now.triples.now }
        requires layer { IsLayer (J.hold self.now.judge.now) (J.fail self.now.judge.now) self.now.shape.now self.now.node self.now.triples.now done layer.now }
        requires places { (t : Triple) → slice_get self.now.triples.now done ≡ Some t → ArePlacesFor (J.hold self.now.judge.now) (J.fail self.now.judge.now) self.now.shape.now self.now.node t places.now }
        requires left { AreLeft self.now.shape.now.occs self.now.node (drop (done + 1) self.now.triples.now) left.now }
        ensures layer { IfOk result (λ v. IsLayer (J.hold self.now.judge.now) (J.fail self.now.judge.now) self.now.shape.now self.now.node self.now.triples.now (done + 1) v.items) }
        ensures least { IfOk result (λ v. steps.old + length v.items ≤ steps.new) }
        ensures most { (bound : ℕ) → IsBound (J.hold self.now.judge.now) (J.fail self.now.judge.now) self.now.shape.now self.now.node self.now.triples.now bound → steps.new ≤ steps.old + bound }
    {
        if layer.is_empty() {
            return Ok(Vec::new(alloc));
        }
        let occurrences = self.shape.occs.as_slice().len();
        let found = successors(alloc, layer, places, occurrences)?;
        living(alloc, self.shape, (done + 1) as u32, found, left, steps)
    }

    /// The places that are allowed for each triple.
    pub fn offered(&self, alloc: Global) -> Result<PlaceLists, AllocError>
        requires ready { J.ready self.now.judge.now }
        requires few_occurrences { length self.now.shape.now.occs ≤ 256 }
        ensures { IfOk result (λ v. AreOffered (J.hold self.now.judge.now) (J.fail self.now.judge.now) self.now.shape.now self.now.node self.now.triples.now (length self.now.triples.now) v) }
    {
        let mut lists = PlaceLists::with_capacity(alloc, self.triples.len())?;
        let mut found = Vec::new(alloc);
        for i in 0..self.triples.len() {
            let triple = self.triples.at(i);
            find_allowed(alloc, self.judge, self.shape, self.node, triple, &mut found)?;
            lists.push(found.as_slice())?;
        }
        Ok(lists)
    }

    /// Puts the layer that allowed places for the next triple reach behind those that are there, where the numbers say how
    /// many of the triples after it each occurrence fits.
    fn add_next<L: Ledger>(
        &self,
        alloc: Global,
        offered: &PlaceLists,
        done: usize,
        left: &[u32],
        layers: &mut Vec<Items<State>>,
        steps: &mut Steps<L>,
    ) -> Result<(), AllocError>
        requires offered { AreOffered (J.hold self.now.judge.now) (J.fail self.now.judge.now) self.now.shape.now self.now.node self.now.triples.now (length self.now.triples.now) offered.now }
        requires body { BodyOk self.now.shape.now.occs self.now.shape.now.body }
        requires few { length self.now.triples.now < 2 ^ 31 }
        requires few_occurrences { length self.now.shape.now.occs ≤ 256 }
        requires within { done < length self.now.triples.now }
        requires layers { AreLayers (J.hold self.now.judge.now) (J.fail self.now.judge.now) self.now.shape.now self.now.node self.now.triples.now done layers.old.items }
        requires left { AreLeft self.now.shape.now.occs self.now.node (drop (done + 1) self.now.triples.now) left.now }
        ensures layers { OnOk result (AreLayers (J.hold self.now.judge.now) (J.fail self.now.judge.now) self.now.shape.now self.now.node self.now.triples.now (done + 1) layers.new.items) }
        ensures least { OnOk result (steps.old + length (flat_map (λ xs. xs) layers.new.items) ≤ steps.new + length (flat_map (λ xs. xs) layers.old.items)) }
        ensures most { (bound : ℕ) → IsBound (J.hold self.now.judge.now) (J.fail self.now.judge.now) self.now.shape.now self.now.node self.now.triples.now bound → steps.new ≤ steps.old + bound }
    {
        let layer = layer_at(layers.as_slice(), done);
        let places = places_at(offered, done);
        let next = self.next(alloc, done, layer, places, left, steps)?;
        layers.push(Items::of(next))?;
        Ok(())
    }

    /// The layers, one for each number of triples done, where the lists are the places that are allowed for each triple.
    pub fn layers<L: Ledger>(
        &self,
        alloc: Global,
        offered: &PlaceLists,
        steps: &mut Steps<L>,
    ) -> Result<Vec<Items<State>>, AllocError>
        requires offered { AreOffered (J.hold self.now.judge.now) (J.fail self.now.judge.now) self.now.shape.now self.now.node self.now.triples.now (length self.now.triples.now) offered.now }
        requires body { BodyOk self.now.shape.now.occs self.now.shape.now.body }
        requires few { length self.now.triples.now < 2 ^ 31 }
        requires few_occurrences { length self.now.shape.now.occs ≤ 256 }
        ensures layers { IfOk result (λ v. AreLayers (J.hold self.now.judge.now) (J.fail self.now.judge.now) self.now.shape.now self.now.node self.now.triples.now (length self.now.triples.now) v.items) }
        ensures least { IfOk result (λ v. steps.old + length (flat_map (λ xs. xs) v.items) ≤ steps.new) }
        ensures most { (bound : ℕ) → IsBound (J.hold self.now.judge.now) (J.fail self.now.judge.now) self.now.shape.now self.now.node self.now.triples.now bound → steps.new ≤ steps.old + (length self.now.triples.now + 1) * bound }
    {
        let occs = self.shape.occs.as_slice();
        let mut left = fits_of(alloc, occs, self.node, self.triples)?;
        let mut layers = Vec::new(alloc);
        let first = self.first(alloc, left.as_slice(), steps)?;
        layers.push(Items::of(first))?;
        for done in 0..self.triples.len() {
            pass_next(&mut left, occs, self.node, self.triples, done);
            self.add_next(alloc, offered, done, left.as_slice(), &mut layers, steps)?;
        }
        Ok(layers)
    }
}
