//! What a refinement reads.

ghost use Rattle.std.specs.Prelude.{ℕ, ◌≡◌, ◌≤◌, ◌<◌, ◌+◌, ◌⊎◌, ◌↔◌, Contains, IfOk, IsTrue, OnOk, Some, true, length, slice_get};
ghost use Rattle.schema_tree.specs.Edges.{level};
ghost use Rattle.schema_tree.specs.Places.{PairCanMatch};
ghost use Rattle.schema_tree.specs.declared.schema.Pair.{Pair as Held};
ghost use Rattle.bag_match.specs.Outcomes.{AreFound, IsOutcome};
ghost use Rattle.typing_refiner.specs.Records.{HasPlaces, MatchesAt};
ghost use Rattle.typing_refiner.specs.Spent.{GiveWidths, look_cost};
ghost use Rattle.typing_refiner.specs.Ready.{GoesBack, IsOpen, IsReady, Waits, known_of};

use crate::marks::MarkView;
use crate::wanted::Wanted;
use agenda::Agenda;
use bag_match::{Outcome, can_match, find_match, match_pair};
use demand::table::PairTable;
use graph_index::graph::Graph;
use rdf_terms::items::Items;
use rdf_terms::table::TermTable;
use schema_tree::schema::{Pair, Schema};
use schema_tree::sure::View;
use schema_tree::verdicts::{Lean, Place, Verdict};
use std::alloc::{AllocError, Global};
use std::sync::ledger::Ledger;
use tally::Steps;

/// What a refinement reads, and does not change.
#[derive(Clone, Copy)]
pub struct Ground<'a> {
    /// The schema, which is loaded.
    pub schema: &'a Schema,
    /// The graph, which is sealed with the terms.
    pub graph: &'a Graph,
    /// The terms.
    pub terms: &'a TermTable,
    /// The stratum of each Shape.
    pub strata: &'a [u32],
    /// The pairs, in order.
    pub table: &'a PairTable,
    /// Whether the Width of each pair is within the budget.
    pub narrow: &'a [bool],
    /// The numbers of the pairs that need each pair.
    pub needing: &'a [Vec<u32>],
    /// The budget.
    pub budget: u64,
    /// What is to be given.
    pub wanted: Wanted,
}

/// The pair of a number.
fn pair_at(pairs: &[Pair], at: u32) -> Pair
    requires { at < length pairs.now }
    ensures { slice_get pairs.now at ≡ Some result }
{
    pairs[at as usize]
}

/// Whether a number has the mark.
pub(crate) fn has_mark(marks: &[Verdict], at: u32, mark: Verdict) -> bool
    ensures { IsTrue result ↔ (slice_get marks.now at ≡ Some mark) }
{
    match marks.get(at as usize) {
        Some(found) => *found == mark,
        None => false,
    }
}

impl Ground<'_> {
    /// The pair of a number.
    pub fn pair_of(&self, at: u32) -> Pair
        requires { at < length self.now.table.now }
        ensures { slice_get self.now.table.now at ≡ Some result }
    {
        pair_at(self.table.as_slice(), at)
    }

    /// Whether the pair of a number can match as far as is known by the marks and by what is kept.
    pub fn look<K: View, L: Ledger>(
        &self,
        alloc: Global,
        kept: &K,
        marks: &[Verdict],
        lean: Lean,
        at: u32,
        steps: &mut Steps<L>,
    ) -> Result<Outcome, AllocError>
        requires ready { IsReady self.now }
        requires there { at < length self.now.table.now }
        ensures outcome { IfOk result (λ o. (p : Held) → slice_get self.now.table.now at ≡ Some p →
            IsOutcome self.now.schema.now self.now.terms.now self.now.graph.now.triples (known_of self.now (K.known kept.now) marks.now) lean p o) }
        ensures spent { (width : Held → ℕ) → GiveWidths self.now width → steps.new ≤ steps.old + look_cost self.now width at }
    {
        let pair = pair_at(self.table.as_slice(), at);
        let view = MarkView {
            table: self.table,
            marks,
            kept,
        };
        match_pair(
            alloc,
            self.schema,
            self.graph,
            self.terms,
            &view,
            lean,
            pair,
            steps,
        )
    }

    /// Whether the pair of a number can match as far as is known by the marks and by what is kept, with no list of its places
    /// or states.
    pub fn matches<K: View, L: Ledger>(
        &self,
        alloc: Global,
        kept: &K,
        marks: &[Verdict],
        lean: Lean,
        at: u32,
        steps: &mut Steps<L>,
    ) -> Result<bool, AllocError>
        requires ready { IsReady self.now }
        requires there { at < length self.now.table.now }
        ensures decided { IfOk result (λ b. (p : Held) → slice_get self.now.table.now at ≡ Some p →
            IsTrue b ↔ PairCanMatch self.now.schema.now self.now.terms.now self.now.graph.now.triples (known_of self.now (K.known kept.now) marks.now) lean p) }
        ensures spent { (width : Held → ℕ) → GiveWidths self.now width → steps.new ≤ steps.old + look_cost self.now width at }
    {
        let pair = pair_at(self.table.as_slice(), at);
        let view = MarkView {
            table: self.table,
            marks,
            kept,
        };
        can_match(
            alloc,
            self.schema,
            self.graph,
            self.terms,
            &view,
            lean,
            pair,
            steps,
        )
    }

    /// The least places of the pair of a number, where it can match as far as is known by the marks and by what is kept, with
    /// no list of states.
    pub fn find_places<K: View, L: Ledger>(
        &self,
        alloc: Global,
        kept: &K,
        marks: &[Verdict],
        lean: Lean,
        at: u32,
        steps: &mut Steps<L>,
    ) -> Result<Option<Items<Place>>, AllocError>
        requires ready { IsReady self.now }
        requires there { at < length self.now.table.now }
        ensures found { IfOk result (λ o. (p : Held) → slice_get self.now.table.now at ≡ Some p →
            AreFound self.now.schema.now self.now.terms.now self.now.graph.now.triples (known_of self.now (K.known kept.now) marks.now) lean p o) }
        ensures spent { (width : Held → ℕ) → GiveWidths self.now width → steps.new ≤ steps.old + look_cost self.now width at }
    {
        let pair = pair_at(self.table.as_slice(), at);
        let view = MarkView {
            table: self.table,
            marks,
            kept,
        };
        find_match(
            alloc,
            self.schema,
            self.graph,
            self.terms,
            &view,
            lean,
            pair,
            steps,
        )
    }

    /// The least places of a pair that matches where Unknown is impossible.
    pub fn places_of<K: View, L: Ledger>(
        &self,
        alloc: Global,
        kept: &K,
        marks: &[Verdict],
        at: u32,
        steps: &mut Steps<L>,
    ) -> Result<Items<Place>, AllocError>
        requires ready { IsReady self.now }
        requires there { at < length self.now.table.now }
        requires matches { MatchesAt self.now (known_of self.now (K.known kept.now) marks.now) at }
        ensures places { IfOk result (λ ps. (p : Held) → slice_get self.now.table.now at ≡ Some p → HasPlaces self.now (known_of self.now (K.known kept.now) marks.now) p ps) }
        ensures spent { (width : Held → ℕ) → GiveWidths self.now width → steps.new ≤ steps.old + look_cost self.now width at }
    {
        match self.look(alloc, kept, marks, Lean::Impossible, at, steps)? {
            Outcome::Placed(places) => Ok(places),
            Outcome::Never(_) => unreachable!(),
        }
    }

    /// Whether the pair of a number is one of the stratum whose Width is within the budget.
    pub fn is_open(&self, stratum: u32, at: u32) -> bool
        requires ready { IsReady self.now }
        ensures { IsTrue result ↔ IsOpen self.now stratum at }
    {
        match self.table.as_slice().get(at as usize) {
            Some(pair) => { self.is_narrow(at) && self.stratum_of(*pair) == stratum }
            None => false,
        }
    }

    /// Whether the Width of the pair of a number is within the budget, false where there is no such pair.
    fn is_narrow(&self, at: u32) -> bool
        ensures { IsTrue result ↔ (slice_get self.now.narrow.now at ≡ Some true) }
    {
        match self.narrow.get(at as usize) {
            Some(narrow) => *narrow,
            None => false,
        }
    }

    /// The stratum of a pair.
    pub(crate) fn stratum_of(&self, pair: Pair) -> u32
        ensures { result ≡ level self.now.strata.now pair.shape }
    {
        match self.strata.get(pair.shape.0 as usize) {
            Some(stratum) => *stratum,
            None => 0,
        }
    }

    /// Whether the pair of a number is open and has the mark.
    pub(crate) fn waits(&self, stratum: u32, at: u32, marks: &[Verdict], mark: Verdict) -> bool
        requires ready { IsReady self.now }
        ensures { IsTrue result ↔ Waits self.now stratum marks.now mark at }
    {
        self.is_open(stratum, at) && has_mark(marks, at, mark)
    }

    /// Puts those of the numbers whose pairs are open and have the mark on the agenda.
    fn put_waiting(
        &self,
        stratum: u32,
        numbers: &[u32],
        marks: &[Verdict],
        mark: Verdict,
        agenda: &mut Agenda,
    ) -> Result<(), AllocError>
        requires ready { IsReady self.now }
        ensures { OnOk result ((q : ℕ) → Contains agenda.new q ↔ (Contains agenda.old q ⊎ (Contains numbers.now q × Waits self.now stratum marks.now mark q))) }
    {
        for other in numbers {
            if self.waits(stratum, *other, marks, mark) {
                agenda.put(*other)?;
            }
        }
        Ok(())
    }

    /// Puts the pairs that need the pair of a number on the agenda, if they are open and have this mark.
    pub fn put_back(
        &self,
        stratum: u32,
        at: u32,
        marks: &[Verdict],
        mark: Verdict,
        agenda: &mut Agenda,
    ) -> Result<(), AllocError>
        requires ready { IsReady self.now }
        ensures { OnOk result ((q : ℕ) → Contains agenda.new q ↔ (Contains agenda.old q ⊎ GoesBack self.now stratum at marks.now mark q)) }
    {
        match self.needing.get(at as usize) {
            Some(needing) => {
                self.put_waiting(stratum, needing.as_slice(), marks, mark, agenda)?;
                Ok(())
            }
            None => Ok(()),
        }
    }
}
