//! Matches of pairs.

ghost use Rattle.std.specs.Prelude.{◌≡◌, ◌↔◌, ◌<◌, ◌≤◌, ◌+◌, ◌*◌, ◌^◌, ℕ, List, Contains, ◌++◌, IfOk, IfSome, IsNone, IsTrue, OnOk, length, map, option_map};
ghost use Rattle.std.specs.List.{flat_map};
ghost use Rattle.rdf_terms.specs.declared.terms.Term.{Term};
ghost use Rattle.graph_index.specs.Contents.{IsSealed, IsSealedWith};
ghost use Rattle.schema_tree.specs.Loaded.{BodyOk, IsLoaded};
ghost use Rattle.schema_tree.specs.Places.{PairCanMatch};
ghost use Rattle.schema_tree.specs.Width.{HasWidth};
ghost use Rattle.bag_match.specs.Bounds.{IsBound, most_ticks};
ghost use Rattle.bag_match.specs.Least.{AreLeast, AreOffered, sole};
ghost use Rattle.bag_match.specs.Outcomes.{AreFound, IsFound, IsOpenShape, IsOutcome, IsPlaced, ticks_of};
ghost use Rattle.bag_match.specs.Searches.{HavePlaces};

use crate::arcs::{is_shut, relevant};
use crate::layers::Question;
use crate::outcome::Outcome;
use crate::place_lists::PlaceLists;
use crate::places::{Judge, Values};
use crate::sole::sole_places;
use graph_index::graph::Graph;
use rdf_terms::items::Items;
use rdf_terms::table::TermTable;
use schema_tree::schema::{Pair, Schema, Shape};
use schema_tree::sure::View;
use schema_tree::verdicts::{Lean, Place, State};
use std::alloc::{AllocError, Global};
use std::sync::ledger::Ledger;
use tally::Steps;
use tally::laws::interval_has_copies;

/// Puts the states of a layer behind those that are there.
fn put_all(layer: Vec<State>, states: &mut Vec<State>) -> Result<(), AllocError>
    ensures { OnOk result (states.new.items ≡ states.old.items ++ layer.items) }
{
    for state in layer {
        states.push(state)?;
    }
    Ok(())
}

/// The states of the layers, one behind the other.
fn joined(alloc: Global, layers: Vec<Items<State>>) -> Result<Vec<State>, AllocError>
    ensures { IfOk result (λ v. v.items ≡ flat_map (λ xs. xs) layers.items) }
{
    let mut states = Vec::new(alloc);
    for layer in layers {
        put_all(layer.into_vec(), &mut states)?;
    }
    Ok(states)
}

impl<J: Judge> Question<'_, J> {
    /// The states that are reached, layer by layer, where the lists are the places that are allowed for each triple and none of
    /// them have matching counts.
    fn by_layers<L: Ledger>(
        &self,
        alloc: Global,
        offered: &PlaceLists,
        steps: &mut Steps<L>,
    ) -> Result<Outcome, AllocError>
        requires offered { AreOffered (J.hold self.now.judge.now) (J.fail self.now.judge.now) self.now.shape.now self.now.node self.now.triples.now (length self.now.triples.now) offered.now }
        requires body { BodyOk self.now.shape.now.occs self.now.shape.now.body }
        requires few { length self.now.triples.now < 2 ^ 31 }
        requires few_occurrences { length self.now.shape.now.occs ≤ 256 }
        requires none { ¬ HavePlaces (J.hold self.now.judge.now) (J.fail self.now.judge.now) self.now.shape.now self.now.node self.now.triples.now }
        ensures found { IfOk result (IsFound (J.hold self.now.judge.now) (J.fail self.now.judge.now) self.now.shape.now self.now.node self.now.triples.now) }
        ensures least { IfOk result (λ r. steps.old + ticks_of r ≤ steps.new) }
        ensures most { (bound : ℕ) → IsBound (J.hold self.now.judge.now) (J.fail self.now.judge.now) self.now.shape.now self.now.node self.now.triples.now bound → steps.new ≤ steps.old + (length self.now.triples.now + 1) * bound }
    {
        interval_has_copies();
        let layers = self.layers(alloc, offered, steps)?;
        Ok(Outcome::Never(Items::of(joined(alloc, layers)?)))
    }

    /// The least places, or the states that are reached where there are none, where each triple has one place alone, which are
    /// these. There are no layers where their counts match.
    fn by_sole<L: Ledger>(
        &self,
        alloc: Global,
        offered: &PlaceLists,
        places: Vec<Place>,
        steps: &mut Steps<L>,
    ) -> Result<Outcome, AllocError>
        requires offered { AreOffered (J.hold self.now.judge.now) (J.fail self.now.judge.now) self.now.shape.now self.now.node self.now.triples.now (length self.now.triples.now) offered.now }
        requires body { BodyOk self.now.shape.now.occs self.now.shape.now.body }
        requires few { length self.now.triples.now < 2 ^ 31 }
        requires few_occurrences { length self.now.shape.now.occs ≤ 256 }
        requires sole { map sole places.items ≡ offered.now }
        ensures found { IfOk result (IsFound (J.hold self.now.judge.now) (J.fail self.now.judge.now) self.now.shape.now self.now.node self.now.triples.now) }
        ensures least { IfOk result (λ r. steps.old + ticks_of r ≤ steps.new) }
        ensures most { (bound : ℕ) → IsBound (J.hold self.now.judge.now) (J.fail self.now.judge.now) self.now.shape.now self.now.node self.now.triples.now bound → steps.new ≤ steps.old + (length self.now.triples.now + 1) * bound }
    {
        if self.sole_match(alloc, offered, places.as_slice(), steps)? {
            Ok(Outcome::Placed(Items::of(places)))
        } else {
            self.by_layers(alloc, offered, steps)
        }
    }

    /// The least places, or the states that are reached where there are none, where the lists are the places that are allowed
    /// for each triple. There are no layers where there are places.
    fn by_choice<L: Ledger>(
        &self,
        alloc: Global,
        offered: &PlaceLists,
        steps: &mut Steps<L>,
    ) -> Result<Outcome, AllocError>
        requires offered { AreOffered (J.hold self.now.judge.now) (J.fail self.now.judge.now) self.now.shape.now self.now.node self.now.triples.now (length self.now.triples.now) offered.now }
        requires body { BodyOk self.now.shape.now.occs self.now.shape.now.body }
        requires few { length self.now.triples.now < 2 ^ 31 }
        requires few_occurrences { length self.now.shape.now.occs ≤ 256 }
        ensures found { IfOk result (IsFound (J.hold self.now.judge.now) (J.fail self.now.judge.now) self.now.shape.now self.now.node self.now.triples.now) }
        ensures least { IfOk result (λ r. steps.old + ticks_of r ≤ steps.new) }
        ensures most { (bound : ℕ) → IsBound (J.hold self.now.judge.now) (J.fail self.now.judge.now) self.now.shape.now self.now.node self.now.triples.now bound → steps.new ≤ steps.old + (length self.now.triples.now + 1) * bound }
    {
        match self.search_places(alloc, offered, steps)? {
            Some(places) => Ok(Outcome::Placed(Items::of(places))),
            None => self.by_layers(alloc, offered, steps),
        }
    }

    /// The least places, or the states that are reached where there are none.
    fn outcome<L: Ledger>(&self, alloc: Global, steps: &mut Steps<L>) -> Result<Outcome, AllocError>
        requires ready { J.ready self.now.judge.now }
        requires body { BodyOk self.now.shape.now.occs self.now.shape.now.body }
        requires few { length self.now.triples.now < 2 ^ 31 }
        requires few_occurrences { length self.now.shape.now.occs ≤ 256 }
        ensures found { IfOk result (IsFound (J.hold self.now.judge.now) (J.fail self.now.judge.now) self.now.shape.now self.now.node self.now.triples.now) }
        ensures least { IfOk result (λ r. steps.old + ticks_of r ≤ steps.new) }
        ensures most { (bound : ℕ) → IsBound (J.hold self.now.judge.now) (J.fail self.now.judge.now) self.now.shape.now self.now.node self.now.triples.now bound → steps.new ≤ steps.old + (length self.now.triples.now + 1) * bound }
    {
        let offered = self.offered(alloc)?;
        match sole_places(alloc, &offered)? {
            Some(places) => self.by_sole(alloc, &offered, places, steps),
            None => self.by_choice(alloc, &offered, steps),
        }
    }

    /// The least places, where there are any. No layers are made.
    fn places<L: Ledger>(
        &self,
        alloc: Global,
        steps: &mut Steps<L>,
    ) -> Result<Option<Vec<Place>>, AllocError>
        requires ready { J.ready self.now.judge.now }
        requires body { BodyOk self.now.shape.now.occs self.now.shape.now.body }
        requires few { length self.now.triples.now < 2 ^ 31 }
        requires few_occurrences { length self.now.shape.now.occs ≤ 256 }
        ensures places { IfOk result (λ o. IfSome o (λ v. AreLeast (J.hold self.now.judge.now) (J.fail self.now.judge.now) self.now.shape.now self.now.node self.now.triples.now v.items)) }
        ensures none { IfOk result (λ o. IsNone o → ¬ HavePlaces (J.hold self.now.judge.now) (J.fail self.now.judge.now) self.now.shape.now self.now.node self.now.triples.now) }
        ensures most { (bound : ℕ) → IsBound (J.hold self.now.judge.now) (J.fail self.now.judge.now) self.now.shape.now self.now.node self.now.triples.now bound → steps.new ≤ steps.old + (length self.now.triples.now + 1) * bound }
    {
        let offered = self.offered(alloc)?;
        let Some(places) = sole_places(alloc, &offered)? else {
            return self.find_places(alloc, &offered, steps);
        };
        if self.sole_match(alloc, &offered, places.as_slice(), steps)? {
            return Ok(Some(places));
        }
        Ok(None)
    }
}

/// The Shape of the pair, where there is one and the pair is not shut.
fn open_shape<'a>(schema: &'a Schema, graph: &Graph, pair: Pair) -> Option<&'a Shape>
    requires { IsSealed graph.now }
    ensures { (terms : List Term) → IsSealedWith terms graph.now → IsOpenShape schema.now graph.now.triples pair (option_map (λ sh. sh.now) result) }
{
    let Some(shape) = schema.shapes.as_slice().get(pair.shape.0 as usize) else {
        return None;
    };
    if is_shut(graph, shape, pair.node) {
        return None;
    }
    Some(shape)
}

/// The least places, by their numbers and the remainder last, that are allowed for the relevant triples of a pair and
/// have matching counts, where there are such and the pair is not shut (ShEx 2.1, section 5.5.2); and else the states
/// that allowed places reach through states that are not dead, sorted by the number of triples done and then the counts,
/// and none where the pair is shut. Values have the verdicts that the view leaves, Unknown as `lean` says.
pub fn match_pair<V: View, L: Ledger>(
    alloc: Global,
    schema: &Schema,
    graph: &Graph,
    terms: &TermTable,
    view: &V,
    lean: Lean,
    pair: Pair,
    steps: &mut Steps<L>,
) -> Result<Outcome, AllocError>
    requires loaded { IsLoaded schema.now }
    requires sealed { IsSealedWith terms.now graph.now }
    ensures outcome { IfOk result (IsOutcome schema.now terms.now graph.now.triples (V.known view.now) lean pair) }
    ensures placed { IfOk result (λ r. IsPlaced r ↔ PairCanMatch schema.now terms.now graph.now.triples (V.known view.now) lean pair) }
    ensures least { IfOk result (λ r. steps.old + ticks_of r ≤ steps.new) }
    ensures most { (w : ℕ) → HasWidth schema.now terms.now graph.now.triples pair w → steps.new ≤ steps.old + most_ticks schema.now terms.now graph.now.triples pair w }
{
    let node = pair.node;
    let Some(shape) = open_shape(schema, graph, pair) else {
        return Ok(Outcome::Never(Items::of(Vec::new(alloc))));
    };
    // The length of a graph tells contracts that it is within the limit.
    let _held = graph.len();
    let triples = relevant(alloc, graph, shape, node)?;
    let judge = Values {
        schema,
        terms,
        view,
        lean,
    };
    let question = Question {
        shape,
        node,
        triples: &triples,
        judge: &judge,
    };
    question.outcome(alloc, steps)
}

/// The least places, by their numbers and the remainder last, that are allowed for the relevant triples of a pair and
/// have matching counts, where there are such and the pair is not shut (ShEx 2.1, section 5.5.2); and else none. Values
/// have the verdicts that the view leaves, Unknown as `lean` says. No states are listed.
pub fn find_match<V: View, L: Ledger>(
    alloc: Global,
    schema: &Schema,
    graph: &Graph,
    terms: &TermTable,
    view: &V,
    lean: Lean,
    pair: Pair,
    steps: &mut Steps<L>,
) -> Result<Option<Items<Place>>, AllocError>
    requires loaded { IsLoaded schema.now }
    requires sealed { IsSealedWith terms.now graph.now }
    ensures found { IfOk result (AreFound schema.now terms.now graph.now.triples (V.known view.now) lean pair) }
    ensures most { (w : ℕ) → HasWidth schema.now terms.now graph.now.triples pair w → steps.new ≤ steps.old + most_ticks schema.now terms.now graph.now.triples pair w }
{
    let node = pair.node;
    let Some(shape) = open_shape(schema, graph, pair) else {
        return Ok(None);
    };
    // The length of a graph tells contracts that it is within the limit.
    let _held = graph.len();
    let triples = relevant(alloc, graph, shape, node)?;
    let judge = Values {
        schema,
        terms,
        view,
        lean,
    };
    let question = Question {
        shape,
        node,
        triples: &triples,
        judge: &judge,
    };
    match question.places(alloc, steps)? {
        Some(places) => Ok(Some(Items::of(places))),
        None => Ok(None),
    }
}

/// Whether there are places that are allowed for the relevant triples of a pair and have matching counts, and the pair is not
/// shut (ShEx 2.1, section 5.5.2). Values have the verdicts that the view leaves, Unknown as `lean` says. No states are
/// listed.
pub fn can_match<V: View, L: Ledger>(
    alloc: Global,
    schema: &Schema,
    graph: &Graph,
    terms: &TermTable,
    view: &V,
    lean: Lean,
    pair: Pair,
    steps: &mut Steps<L>,
) -> Result<bool, AllocError>
    requires loaded { IsLoaded schema.now }
    requires sealed { IsSealedWith terms.now graph.now }
    ensures decided { IfOk result (λ b. IsTrue b ↔ PairCanMatch schema.now terms.now graph.now.triples (V.known view.now) lean pair) }
    ensures most { (w : ℕ) → HasWidth schema.now terms.now graph.now.triples pair w → steps.new ≤ steps.old + most_ticks schema.now terms.now graph.now.triples pair w }
{
    let found = find_match(alloc, schema, graph, terms, view, lean, pair, steps)?;
    Ok(found.is_some())
}
