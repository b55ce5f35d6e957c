//! Whether states leave no match.

ghost use Rattle.std.specs.Prelude.{◌≡◌, ◌↔◌, ◌<◌, ◌≤◌, ◌+◌, ◌^◌, ℕ, Contains, IfOk, IsTrue, Some, drop, length, slice_get, slice_index, take};
ghost use Rattle.rdf_terms.specs.declared.terms.Triple.{Triple};
ghost use Rattle.schema_tree.specs.declared.verdicts.State.{State};
ghost use Rattle.schema_tree.specs.States.{IsCovered, after, opening, IsStateBefore};
ghost use Rattle.bag_match.specs.Counts.{AreLeft, ArePlacesOf, IsPlaceOf, state_of};
ghost use Rattle.bag_match.specs.Least.{ArePlacesFor};
ghost use Rattle.proof_file.specs.Accepts.{AreStates};
ghost use Rattle.schema_tree.specs.Rising.{Rises};
ghost use Rattle.proof_checker.specs.Stated.{AllLeadOn, AreShaped, AreShapedBy, DecideSettled, IsLayer, IsListed, IsSettled, IsShapedBy, IsShapedAt, compare_states};

use bag_match::arcs::RelevantTriples;
use bag_match::dying::{fits_of, is_dead, pass_next};
use bag_match::places::{Judge, allowed_places};
use bag_match::raising::{lower, raise, zeros};
use rdf_terms::terms::TermId;
use schema_tree::schema::Shape;
use schema_tree::verdicts::{Place, State};
use std::alloc::{AllocError, Global};
use std::cmp::Ordering;

/// Compares a state with the one that has so many triples done and these counts: by the triples, and then the counts.
fn compare(state: &State, done: u32, counts: &[u32]) -> Ordering
    ensures { result ≡ compare_states state.now (state_of done counts.now) }
{
    match state.done.cmp(&done) {
        Ordering::Equal => state.counts.as_slice().cmp(&counts),
        other => other,
    }
}

/// Whether a state with these triples done and these counts is listed, by halving.
fn is_listed(states: &[State], done: u32, counts: &[u32]) -> bool
    requires { Rises IsStateBefore states.now }
    ensures { IsTrue result ↔ Contains states.now (state_of done counts.now) }
{
    match states.binary_search_by(|state| compare(state, done, counts)) {
        Ok(_) => true,
        Err(_) => false,
    }
}

/// Whether the state has one count for each occurrence, and neither more triples done nor a count than there are triples.
fn is_shaped(state: &State, occurrences: usize, triples: usize) -> bool
    ensures { IsTrue result ↔ IsShapedBy occurrences triples state.now }
{
    let counts = state.counts.as_slice();
    if counts.len() != occurrences || state.done as usize > triples {
        return false;
    }
    are_most(counts, triples)
}

/// Whether no count is above a number.
fn are_most(counts: &[u32], most: usize) -> bool
    ensures { IsTrue result ↔ ((i : ℕ) → slice_index counts.now i ≤ most) }
{
    for count in counts {
        if *count as usize > most {
            return false;
        }
    }
    true
}

/// Whether each of the states is so.
fn are_shaped(states: &[State], occurrences: usize, triples: usize) -> bool
    ensures { IsTrue result ↔ AreShapedBy occurrences triples states.now }
{
    for state in states {
        if !is_shaped(state, occurrences, triples) {
            return false;
        }
    }
    true
}

/// How many states at the front have so many triples done.
fn layer_len(states: &[State], done: usize) -> usize
    requires rising { Rises IsStateBefore states.now }
    requires from { (x : State) → Contains states.now x → done ≤ x.done }
    ensures within { result ≤ length states.now }
    ensures layer { (x : State) → Contains (take result states.now) x → x.done ≡ done }
    ensures later { (x : State) → Contains (drop result states.now) x → done < x.done }
{
    for i in 0..states.len() {
        if states[i].done as usize != done {
            return i;
        }
    }
    states.len()
}

/// States in their order, among which are all those that are listed with so many triples done, and how many of the later
/// triples each occurrence fits.
#[derive(Clone, Copy)]
struct Layer<'a> {
    /// The states.
    states: &'a [State],
    /// How many of the later triples each occurrence fits.
    left: &'a [u32],
}

/// A Shape at a node, with its relevant triples in their order, states in their order, and what judges values.
#[derive(Drop)]
pub struct Listing<'a, J> {
    /// The Shape.
    pub shape: &'a Shape,
    /// The node.
    pub node: TermId,
    /// The relevant triples.
    pub triples: &'a RelevantTriples<'a>,
    /// The states.
    pub states: &'a [State],
    /// What judges values.
    pub judge: &'a J,
}

impl<J: Judge> Listing<'_, J> {
    /// Whether a state with these triples done and these counts is listed or dead, where the layer is that of these triples.
    fn is_covered(&self, done: usize, layer: &Layer<'_>, counts: &[u32]) -> bool
        requires listed { IsListed self.now.shape.now self.now.triples.now self.now.states.now }
        requires one_each { length counts.now ≡ length self.now.shape.now.occs }
        requires small { (i : ℕ) → slice_index counts.now i < 2 ^ 31 + 1 }
        requires within { done ≤ length self.now.triples.now }
        requires layer { IsLayer self.now.shape.now self.now.node self.now.triples.now self.now.states.now done
            layer.now.states.now layer.now.left.now }
        ensures { IsTrue result ↔ IsCovered self.now.shape.now self.now.node self.now.triples.now self.now.states.now (state_of done counts.now) }
    {
        if is_listed(layer.states, done as u32, counts) {
            return true;
        }
        is_dead(self.shape, counts, layer.left)
    }

    /// Whether the state that the place leads to, which has one more triple done, is listed or dead. The counts are given back
    /// as they were.
    fn leads_on(&self, done: usize, next: &Layer<'_>, counts: &mut Vec<u32>, place: Place) -> bool
        requires listed { IsListed self.now.shape.now self.now.triples.now self.now.states.now }
        requires one_each { length counts.old.items ≡ length self.now.shape.now.occs }
        requires small { (i : ℕ) → slice_index counts.old.items i < 2 ^ 31 }
        requires within { done < length self.now.triples.now }
        requires there { IsPlaceOf (length counts.old.items) place }
        requires next { IsLayer self.now.shape.now self.now.node self.now.triples.now self.now.states.now (done + 1)
            next.now.states.now next.now.left.now }
        ensures same { counts.new.items ≡ counts.old.items }
        ensures covered { IsTrue result ↔
            IsCovered self.now.shape.now self.now.node self.now.triples.now self.now.states.now
            (after place (state_of done counts.old.items)) }
    {
        raise(counts, place);
        let covered = self.is_covered(done + 1, next, counts.as_slice());
        lower(counts, place);
        covered
    }

    /// Whether each of the places does so.
    fn all_lead_on(
        &self,
        alloc: Global,
        done: usize,
        next: &Layer<'_>,
        counts: &[u32],
        places: &[Place],
    ) -> Result<bool, AllocError>
        requires listed { IsListed self.now.shape.now self.now.triples.now self.now.states.now }
        requires one_each { length counts.now ≡ length self.now.shape.now.occs }
        requires small { (i : ℕ) → slice_index counts.now i < 2 ^ 31 }
        requires within { done < length self.now.triples.now }
        requires there { ArePlacesOf (length counts.now) places.now }
        requires next { IsLayer self.now.shape.now self.now.node self.now.triples.now self.now.states.now (done + 1)
            next.now.states.now next.now.left.now }
        ensures { IfOk result (λ b. IsTrue b ↔ AllLeadOn self.now.shape.now self.now.node self.now.triples.now self.now.states.now (state_of done counts.now) places.now) }
    {
        let mut held = counts.to_vec(alloc)?;
        for place in places {
            if !self.leads_on(done, next, &mut held, *place) {
                return Ok(false);
            }
        }
        Ok(true)
    }

    /// Whether a state with so many triples done, but not all, and these counts is dead, or each of the places, which are
    /// those that are allowed for the next triple, leads to a state that is listed or dead.
    fn is_settled(
        &self,
        alloc: Global,
        done: usize,
        next: &Layer<'_>,
        counts: &[u32],
        places: &[Place],
        left: &[u32],
    ) -> Result<bool, AllocError>
        requires listed { IsListed self.now.shape.now self.now.triples.now self.now.states.now }
        requires one_each { length counts.now ≡ length self.now.shape.now.occs }
        requires small { (i : ℕ) → slice_index counts.now i < 2 ^ 31 }
        requires within { done < length self.now.triples.now }
        requires places { (t : Triple) → slice_get self.now.triples.now done ≡ Some t →
            ArePlacesFor (J.hold self.now.judge.now) (J.fail self.now.judge.now) self.now.shape.now self.now.node t places.now }
        requires left { AreLeft self.now.shape.now.occs self.now.node (drop done self.now.triples.now) left.now }
        requires next { IsLayer self.now.shape.now self.now.node self.now.triples.now self.now.states.now (done + 1)
            next.now.states.now next.now.left.now }
        ensures { IfOk result (λ b. IsTrue b ↔
            IsSettled (J.hold self.now.judge.now) (J.fail self.now.judge.now) self.now.shape.now self.now.node self.now.triples.now self.now.states.now (state_of done counts.now)) }
    {
        if self.all_lead_on(alloc, done, next, counts, places)? {
            return Ok(true);
        }
        Ok(is_dead(self.shape, counts, left))
    }

    /// Whether each state of a layer is so. All of them have so many triples done, but not all.
    fn is_layer_settled(
        &self,
        alloc: Global,
        done: usize,
        layer: &Layer<'_>,
        next: &Layer<'_>,
    ) -> Result<bool, AllocError>
        requires ready { J.ready self.now.judge.now }
        requires listed { IsListed self.now.shape.now self.now.triples.now self.now.states.now }
        requires within { done < length self.now.triples.now }
        requires layer { (x : State) → Contains layer.now.states.now x → IsShapedAt self.now.shape.now self.now.triples.now done x }
        requires left { AreLeft self.now.shape.now.occs self.now.node (drop done self.now.triples.now) layer.now.left.now }
        requires next { IsLayer self.now.shape.now self.now.node self.now.triples.now self.now.states.now (done + 1)
            next.now.states.now next.now.left.now }
        ensures { IfOk result (DecideSettled (J.hold self.now.judge.now) (J.fail self.now.judge.now) self.now.shape.now self.now.node self.now.triples.now self.now.states.now layer.now.states.now) }
    {
        if layer.states.is_empty() {
            return Ok(true);
        }
        let triple = self.triples.at(done);
        let places = allowed_places(alloc, self.judge, self.shape, self.node, triple)?;
        for state in layer.states {
            let counts = state.counts.as_slice();
            if !self.is_settled(alloc, done, next, counts, places.as_slice(), layer.left)? {
                return Ok(false);
            }
        }
        Ok(true)
    }

    /// Whether each of the states, which have all triples done, is dead.
    fn are_dead(&self, states: &[State], left: &[u32]) -> bool
        requires listed { IsListed self.now.shape.now self.now.triples.now self.now.states.now }
        requires last { (x : State) → Contains states.now x → IsShapedAt self.now.shape.now self.now.triples.now (length self.now.triples.now) x }
        requires left { AreLeft self.now.shape.now.occs self.now.node (drop (length self.now.triples.now) self.now.triples.now) left.now }
        ensures { DecideSettled (J.hold self.now.judge.now) (J.fail self.now.judge.now) self.now.shape.now self.now.node self.now.triples.now self.now.states.now states.now result }
    {
        for state in states {
            if !is_dead(self.shape, state.counts.as_slice(), left) {
                return false;
            }
        }
        true
    }

    /// How many of the triples behind the next each occurrence fits, where `left` says it of the next and those behind it.
    fn behind_next(&self, alloc: Global, done: usize, left: &[u32]) -> Result<Vec<u32>, AllocError>
        requires within { done < length self.now.triples.now }
        requires left { AreLeft self.now.shape.now.occs self.now.node (drop done self.now.triples.now) left.now }
        ensures { IfOk result (λ v. AreLeft self.now.shape.now.occs self.now.node (drop (done + 1) self.now.triples.now) v.items) }
    {
        let mut behind = left.to_vec(alloc)?;
        pass_next(
            &mut behind,
            self.shape.occs.as_slice(),
            self.node,
            self.triples,
            done,
        );
        Ok(behind)
    }

    /// Whether each listed state is dead, or has triples left and leads to states that are listed or dead, where `fits` says
    /// how many of the triples each occurrence fits.
    fn all_settled(&self, alloc: Global, fits: Vec<u32>) -> Result<bool, AllocError>
        requires ready { J.ready self.now.judge.now }
        requires listed { IsListed self.now.shape.now self.now.triples.now self.now.states.now }
        requires shaped { AreShaped self.now.shape.now self.now.triples.now self.now.states.now }
        requires fits { AreLeft self.now.shape.now.occs self.now.node self.now.triples.now fits.items }
        ensures { IfOk result (DecideSettled (J.hold self.now.judge.now) (J.fail self.now.judge.now) self.now.shape.now self.now.node self.now.triples.now self.now.states.now self.now.states.now) }
    {
        let mut left = fits;
        let mut rest = self.states;
        let mut size = layer_len(rest, 0);
        for done in 0..self.triples.len() {
            let (states, later) = rest.split_at(size);
            size = layer_len(later, done + 1);
            let behind = self.behind_next(alloc, done, left.as_slice())?;
            let layer = Layer {
                states,
                left: left.as_slice(),
            };
            let next = Layer {
                states: &later[..size],
                left: behind.as_slice(),
            };
            if !self.is_layer_settled(alloc, done, &layer, &next)? {
                return Ok(false);
            }
            left = behind;
            rest = later;
        }
        Ok(self.are_dead(rest, left.as_slice()))
    }

    /// Whether each state has its counts, and neither more triples done nor a count than there are triples.
    fn are_shaped(&self) -> bool
        ensures { IsTrue result ↔ AreShaped self.now.shape.now self.now.triples.now self.now.states.now }
    {
        are_shaped(
            self.states,
            self.shape.occs.as_slice().len(),
            self.triples.len(),
        )
    }

    /// Whether the opening state is listed or dead, where `fits` says how many of the triples each occurrence fits.
    fn is_opened(&self, alloc: Global, fits: &[u32]) -> Result<bool, AllocError>
        requires listed { IsListed self.now.shape.now self.now.triples.now self.now.states.now }
        requires fits { AreLeft self.now.shape.now.occs self.now.node self.now.triples.now fits.now }
        ensures { IfOk result (λ b. IsTrue b ↔ IsCovered self.now.shape.now self.now.node self.now.triples.now self.now.states.now (opening self.now.shape.now)) }
    {
        let none = zeros(alloc, self.shape.occs.as_slice().len())?;
        let all = Layer {
            states: self.states,
            left: fits,
        };
        Ok(self.is_covered(0, &all, none.as_slice()))
    }

    /// Whether the states show that no allowed places match.
    pub fn are_states(&self, alloc: Global) -> Result<bool, AllocError>
        requires ready { J.ready self.now.judge.now }
        requires listed { IsListed self.now.shape.now self.now.triples.now self.now.states.now }
        ensures { IfOk result (λ b. IsTrue b ↔ AreStates (J.hold self.now.judge.now) (J.fail self.now.judge.now) self.now.shape.now self.now.node self.now.triples.now self.now.states.now) }
    {
        if !self.are_shaped() {
            return Ok(false);
        }
        let occs = self.shape.occs.as_slice();
        let fits = fits_of(alloc, occs, self.node, self.triples)?;
        if !self.is_opened(alloc, fits.as_slice())? {
            return Ok(false);
        }
        self.all_settled(alloc, fits)
    }
}
