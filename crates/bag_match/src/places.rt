//! Which places of triples are allowed.

ghost use Rattle.std.specs.Prelude.{◌≡◌, ◌↔◌, ◌<◌, ◌≤◌, ◌++◌, ◌∷◌, ◌⊎◌, [], Contains, IfOk, IsTrue, OnOk, filter, length, true};
ghost use Rattle.std.specs.List.{AllByRecursion, list_any};
ghost use Rattle.schema_tree.specs.Matches.{fits, other_end};
ghost use Rattle.schema_tree.specs.Places.{AreAllowed, IsAllowed, MayStayOut};
ghost use Rattle.schema_tree.specs.Relevant.{is_forward};
ghost use Rattle.schema_tree.specs.declared.verdicts.Place.TheVariants.{At};
ghost use Rattle.bag_match.specs.Least.{ArePlacesFor, PushesAllowed};

use crate::arcs::RelevantTriples;
use rdf_terms::table::TermTable;
use rdf_terms::terms::{TermId, Triple};
use schema_tree::schema::{ExprId, Occurrence, Schema, Shape};
use schema_tree::sure::{View, may_fail, may_hold};
use schema_tree::verdicts::{Lean, Place};
use std::alloc::{AllocError, Global};

/// What says of a value at a node whether it may be satisfied, and whether it may not be.
pub trait Judge {
    ghost use Rattle.std.specs.Prelude.{◌↔◌, IfOk, IsTrue, Option};
    ghost use Rattle.rdf_terms.specs.declared.terms.TermId.{TermId};
    ghost use Rattle.schema_tree.specs.declared.schema.ExprId.{ExprId};

    /// What it needs for its answers.
    ghost ready: { Self → Type 0 };

    /// The value may be satisfied at the node.
    ghost hold: { Self → TermId → Option ExprId → Type 0 };

    /// The value may not be satisfied at the node.
    ghost fail: { Self → TermId → Option ExprId → Type 0 };

    /// Whether the value, if there is one, may be satisfied at the node.
    fn holds(&self, alloc: Global, node: TermId, value: Option<ExprId>) -> Result<bool, AllocError>
        requires { ready self.now }
        ensures { IfOk result (λ b. IsTrue b ↔ hold self.now node value) };

    /// Whether the value, if there is one, may not be satisfied at the node.
    fn fails(&self, alloc: Global, node: TermId, value: Option<ExprId>) -> Result<bool, AllocError>
        requires { ready self.now }
        ensures { IfOk result (λ b. IsTrue b ↔ fail self.now node value) };
}

/// A judge of predicates and directions alone: any value may be satisfied, and may not be.
#[derive(Clone, Copy)]
pub struct Form;

impl Judge for Form {
    ghost use Rattle.std.specs.Prelude.{⊤};

    ghost ready = { λ j. ⊤ };

    ghost hold = { λ j m v. ⊤ };

    ghost fail = { λ j m v. ⊤ };

    fn holds(
        &self,
        _alloc: Global,
        _node: TermId,
        _value: Option<ExprId>,
    ) -> Result<bool, AllocError> {
        Ok(true)
    }

    fn fails(
        &self,
        _alloc: Global,
        _node: TermId,
        _value: Option<ExprId>,
    ) -> Result<bool, AllocError> {
        Ok(true)
    }
}

/// A judge of values by what is known of pairs.
#[derive(Drop)]
pub struct Values<'a, V> {
    /// The schema, which is loaded.
    pub schema: &'a Schema,
    /// The terms.
    pub terms: &'a TermTable,
    /// What is known.
    pub view: &'a V,
    /// How what is Unknown counts.
    pub lean: Lean,
}

impl<V: View> Judge for Values<'_, V> {
    ghost use Rattle.schema_tree.specs.Loaded.{IsLoaded};
    ghost use Rattle.schema_tree.specs.Places.{MayFail, MayHold};

    ghost ready = { λ j. IsLoaded j.schema.now };

    ghost hold = { λ j m v. MayHold j.schema.now j.terms.now (V.known j.view.now) j.lean m v };

    ghost fail = { λ j m v. MayFail j.schema.now j.terms.now (V.known j.view.now) j.lean m v };

    fn holds(
        &self,
        alloc: Global,
        node: TermId,
        value: Option<ExprId>,
    ) -> Result<bool, AllocError> {
        may_hold(
            alloc,
            self.schema,
            self.terms,
            self.view,
            self.lean,
            node,
            value,
        )
    }

    fn fails(
        &self,
        alloc: Global,
        node: TermId,
        value: Option<ExprId>,
    ) -> Result<bool, AllocError> {
        may_fail(
            alloc,
            self.schema,
            self.terms,
            self.view,
            self.lean,
            node,
            value,
        )
    }
}

/// Whether some occurrence takes arcs out and fits the triple.
pub fn fits_any_forward(occs: &[Occurrence], node: TermId, triple: Triple) -> bool
    ensures { result ≡ list_any (is_forward node triple) occs.now }
{
    for o in occs {
        if o.fits_forward(node, triple) {
            return true;
        }
    }
    false
}

/// Whether the occurrence takes no arcs out, or does not fit the triple, or its value may not be satisfied.
fn lets_stay<J: Judge>(
    alloc: Global,
    judge: &J,
    o: Occurrence,
    node: TermId,
    triple: Triple,
) -> Result<bool, AllocError>
    requires { J.ready judge.now }
    ensures { IfOk result (λ b. IsTrue b ↔ (is_forward node triple o ≡ true → J.fail judge.now triple.o o.value)) }
{
    if o.fits_forward(node, triple) {
        judge.fails(alloc, triple.o, o.value)
    } else {
        Ok(true)
    }
}

/// Whether the values of all occurrences that take arcs out and fit the triple may not be satisfied.
fn all_fail<J: Judge>(
    alloc: Global,
    judge: &J,
    occs: &[Occurrence],
    node: TermId,
    triple: Triple,
) -> Result<bool, AllocError>
    requires { J.ready judge.now }
    ensures { IfOk result (λ b. IsTrue b ↔ AllByRecursion (λ o. J.fail judge.now triple.o o.value) (filter (is_forward node triple) occs.now)) }
{
    for o in occs {
        if !lets_stay(alloc, judge, *o, node, triple)? {
            return Ok(false);
        }
    }
    Ok(true)
}

/// Whether the predicate is one of these.
pub fn is_among(predicates: &[TermId], predicate: TermId) -> bool
    ensures { IsTrue result ↔ Contains predicates.now predicate }
{
    predicates.contains(&predicate)
}

/// Whether an arc out may stay in the remainder.
fn may_stay_out<J: Judge>(
    alloc: Global,
    judge: &J,
    shape: &Shape,
    node: TermId,
    triple: Triple,
) -> Result<bool, AllocError>
    requires { J.ready judge.now }
    ensures { IfOk result (λ b. IsTrue b ↔ MayStayOut (J.hold judge.now) (J.fail judge.now) shape.now node triple (list_any (is_forward node triple) shape.now.occs)) }
{
    let occs = shape.occs.as_slice();
    if !fits_any_forward(occs, node, triple) {
        return Ok(!shape.closed);
    }
    if !is_among(shape.extra.as_slice(), triple.p) {
        return Ok(false);
    }
    all_fail(alloc, judge, occs, node, triple)
}

/// Whether the occurrence may take the triple.
fn may_take<J: Judge>(
    alloc: Global,
    judge: &J,
    o: Occurrence,
    node: TermId,
    triple: Triple,
) -> Result<bool, AllocError>
    requires { J.ready judge.now }
    ensures { IfOk result (λ b. IsTrue b ↔ (fits o node triple ≡ true) × J.hold judge.now (other_end o.inverse triple) o.value) }
{
    if o.fits(node, triple) {
        judge.holds(alloc, o.other_end(triple), o.value)
    } else {
        Ok(false)
    }
}

/// Whether the place is allowed for the triple at the node.
fn is_allowed<J: Judge>(
    alloc: Global,
    judge: &J,
    shape: &Shape,
    node: TermId,
    triple: Triple,
    place: Place,
) -> Result<bool, AllocError>
    requires { J.ready judge.now }
    ensures { IfOk result (λ b. IsTrue b ↔ IsAllowed (J.hold judge.now) (J.fail judge.now) shape.now node triple place) }
{
    match place {
        Place::At(i) => match shape.occs.as_slice().get(i as usize) {
            Some(o) => may_take(alloc, judge, *o, node, triple),
            None => Ok(false),
        },
        Place::Rest => {
            if triple.s == node {
                may_stay_out(alloc, judge, shape, node, triple)
            } else {
                Ok(true)
            }
        }
    }
}

/// Whether the places are one for each triple, in their order, and each is allowed.
pub fn are_allowed<J: Judge>(
    alloc: Global,
    judge: &J,
    shape: &Shape,
    node: TermId,
    triples: &RelevantTriples<'_>,
    places: &[Place],
) -> Result<bool, AllocError>
    requires { J.ready judge.now }
    ensures { IfOk result (λ b. IsTrue b ↔ AreAllowed (J.hold judge.now) (J.fail judge.now) shape.now node triples.now places.now) }
{
    if triples.len() != places.len() {
        return Ok(false);
    }
    for i in 0..triples.len() {
        if !is_allowed(alloc, judge, shape, node, triples.at(i), places[i])? {
            return Ok(false);
        }
    }
    Ok(true)
}

/// The place that is the occurrence of this number.
fn occurrence(i: usize) -> Place
    requires { i < 256 }
    ensures { result ≡ At i }
{
    Place::At(i as u16)
}

/// The place behind those that are found, where it is allowed.
fn push_allowed<J: Judge>(
    alloc: Global,
    judge: &J,
    shape: &Shape,
    node: TermId,
    triple: Triple,
    place: Place,
    found: &mut Vec<Place>,
) -> Result<(), AllocError>
    requires { J.ready judge.now }
    ensures { OnOk result (PushesAllowed (J.hold judge.now) (J.fail judge.now) shape.now node triple place found.old.items found.new.items) }
{
    if is_allowed(alloc, judge, shape, node, triple, place)? {
        found.push(place)?;
    }
    Ok(())
}

/// Puts the places that are allowed for the triple, in their order, in the stead of what was there.
pub(crate) fn find_allowed<J: Judge>(
    alloc: Global,
    judge: &J,
    shape: &Shape,
    node: TermId,
    triple: Triple,
    found: &mut Vec<Place>,
) -> Result<(), AllocError>
    requires ready { J.ready judge.now }
    requires few { length shape.now.occs ≤ 256 }
    ensures { OnOk result (ArePlacesFor (J.hold judge.now) (J.fail judge.now) shape.now node triple found.new.items) }
{
    found.clear();
    for i in 0..shape.occs.as_slice().len() {
        push_allowed(alloc, judge, shape, node, triple, occurrence(i), found)?;
    }
    push_allowed(alloc, judge, shape, node, triple, Place::Rest, found)?;
    Ok(())
}

/// The places that are allowed for the triple, in their order.
pub fn allowed_places<J: Judge>(
    alloc: Global,
    judge: &J,
    shape: &Shape,
    node: TermId,
    triple: Triple,
) -> Result<Vec<Place>, AllocError>
    requires ready { J.ready judge.now }
    requires few { length shape.now.occs ≤ 256 }
    ensures { IfOk result (λ v. ArePlacesFor (J.hold judge.now) (J.fail judge.now) shape.now node triple v.items) }
{
    let mut found = Vec::new(alloc);
    find_allowed(alloc, judge, shape, node, triple, &mut found)?;
    Ok(found)
}
