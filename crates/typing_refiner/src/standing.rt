//! Witnesses that are looked at again when a pair that they need has gone.

ghost use Rattle.std.specs.Prelude.{ℕ, List, [], ◌≡◌, ◌≢◌, ◌<◌, ◌≤◌, ◌↔◌, ◌⊎◌, Contains, IfOk, IfSome, IsTrue, OnOk, Some, length, slice_get, slice_set};
ghost use Rattle.std.specs.Bool.{OnTrue};
ghost use Rattle.std.specs.List.{Any};
ghost use Rattle.bag_match.specs.Outcomes.{IsOutcome};
ghost use Rattle.bag_match.specs.declared.outcome.Outcome.TheVariants.{Placed};
ghost use Rattle.schema_tree.specs.declared.schema.Pair.{Pair as Held};
ghost use Rattle.schema_tree.specs.declared.verdicts.Lean.TheVariants.{Possible};
ghost use Rattle.schema_tree.specs.declared.verdicts.Verdict.{Verdict as Mark};
ghost use Rattle.schema_tree.specs.declared.verdicts.Verdict.TheVariants.{No, Unknown};
ghost use Rattle.schema_tree.specs.Loaded.{BodyOk};
ghost use Rattle.schema_tree.specs.Sure.{Known};
ghost use Rattle.typing_refiner.specs.Holding.{AllShow, AllShowBut, CanMatchAt, Holds};
ghost use Rattle.typing_refiner.specs.Ready.{GoesBack, IsAmong, IsReady, Waits, known_of};
ghost use Rattle.typing_refiner.specs.Witnessed.{FitAlike, IsStanding, IsTally, IsWitnessBut, IsWitnessOf, all_between, between};
ghost use Rattle.typing_refiner.specs.declared.witness.Witness.{Witness as Found};

use crate::ground::Ground;
use crate::marks::MarkView;
use crate::witness::Witness;
use crate::witnesses::Witnesses;
use agenda::Agenda;
use bag_match::arcs::relevant;
use bag_match::places::{Judge, Values};
use rdf_terms::terms::{TermId, Triple};
use schema_tree::schema::{Occurrence, Pair, Shape};
use schema_tree::sure::View;
use schema_tree::verdicts::{Lean, Place, Verdict};
use std::alloc::{AllocError, Global};

/// Pairs with fewer triples are looked at from nothing.
const FEW: usize = 8;

/// What is still to be done while pairs are removed.
#[derive(Drop)]
pub struct Pending {
    /// The numbers of the pairs that are to be looked at.
    pub agenda: Agenda,
    /// Witnesses of pairs that were looked at again.
    pub witnesses: Witnesses,
}

/// The triple that an occurrence fits at a node, whose other end is the second node.
fn between(occ: Occurrence, node: TermId, end: TermId) -> Triple
    ensures { result ≡ between occ.inverse occ.predicate node end }
{
    let p = occ.predicate;
    if occ.inverse {
        Triple { s: end, p, o: node }
    } else {
        Triple { s: node, p, o: end }
    }
}

/// Whether two occurrences have one predicate and one direction.
fn fit_alike(a: Occurrence, b: Occurrence) -> bool
    ensures { IsTrue result ↔ FitAlike a b }
{
    a.predicate == b.predicate && a.inverse == b.inverse
}

/// Whether an occurrence has the predicate and the direction of one of these.
fn is_repeated(occs: &[Occurrence], occ: Occurrence) -> bool
    ensures { IsTrue result ↔ Any (FitAlike occ) occs.now }
{
    occs.iter().any(|other| fit_alike(occ, *other))
}

/// Whether a witness stands, once its triples that end at a node are looked at again.
fn stands_at<J: Judge>(
    alloc: Global,
    judge: &J,
    shape: &Shape,
    node: TermId,
    end: TermId,
    witness: &mut Witness,
) -> Result<bool, AllocError>
    requires ready { J.ready judge.now }
    requires body { BodyOk shape.now.occs shape.now.body }
    requires few { length shape.now.occs ≤ 256 }
    requires tally { IsTally (length shape.now.occs) witness.old }
    ensures triples { witness.new.triples ≡ witness.old.triples }
    ensures tally { IsTally (length shape.now.occs) witness.new }
    ensures stands { IfOk result (λ b. OnTrue b (
        IsStanding (J.hold judge.now) (J.fail judge.now) shape.now node (all_between shape.now.occs node end) witness.old →
        IsStanding (J.hold judge.now) (J.fail judge.now) shape.now node [] witness.new)) }
{
    let mut rest = shape.occs.as_slice();
    while let Some((occ, later)) = rest.split_first() {
        rest = later;
        let triple = between(*occ, node, end);
        let Some(at) = witness.triples.find(triple) else {
            continue;
        };
        if is_repeated(later, *occ) {
            continue;
        }
        if !witness.keeps(alloc, judge, shape, node, triple, at)? {
            return Ok(false);
        }
    }
    Ok(true)
}

impl Ground<'_> {
    /// Whether the witness of a pair stands, once its triples that end at the node of another are looked at again.
    fn stands<K: View>(
        &self,
        alloc: Global,
        kept: &K,
        marks: &[Verdict],
        pair: Pair,
        gone: Pair,
        witness: &mut Witness,
    ) -> Result<bool, AllocError>
        requires ready { IsReady self.now }
        requires shows { IsWitnessBut self.now (known_of self.now (K.known kept.now) marks.now) gone pair witness.old }
        ensures { IfOk result (λ b. OnTrue b (IsWitnessOf self.now (known_of self.now (K.known kept.now) marks.now) pair witness.new)) }
    {
        let Some(shape) = self.schema.shapes.as_slice().get(pair.shape.0 as usize) else {
            return Ok(false);
        };
        let view = MarkView {
            table: self.table,
            marks,
            kept,
        };
        let judge = Values {
            schema: self.schema,
            terms: self.terms,
            view: &view,
            lean: Lean::Possible,
        };
        stands_at(alloc, &judge, shape, pair.node, gone.node, witness)
    }

    /// Whether the pair of a number has a witness that stands, once a pair that it may need has gone; one that does not is
    /// dropped.
    fn is_shown<K: View>(
        &self,
        alloc: Global,
        kept: &K,
        marks: &[Verdict],
        other: u32,
        gone: Pair,
        witnesses: &mut Witnesses,
    ) -> Result<bool, AllocError>
        requires ready { IsReady self.now }
        requires shows { (w : Found) (p : Held) → Holds witnesses.old other w → slice_get self.now.table.now other ≡ Some p →
            IsWitnessBut self.now (known_of self.now (K.known kept.now) marks.now) gone p w }
        ensures witnesses { OnOk result ((i : ℕ) (w : Found) → Holds witnesses.new i w →
            ((i ≢ other) × Holds witnesses.old i w)
            ⊎ ((i ≡ other) × ((p : Held) → slice_get self.now.table.now i ≡ Some p → IsWitnessOf self.now (known_of self.now (K.known kept.now) marks.now) p w))) }
        ensures shown { IfOk result (λ b. OnTrue b (CanMatchAt self.now (known_of self.now (K.known kept.now) marks.now) other)) }
    {
        let Some(mut witness) = witnesses.take(other) else {
            return Ok(false);
        };
        let Some(pair) = self.table.as_slice().get(other as usize) else {
            return Ok(false);
        };
        if !self.stands(alloc, kept, marks, *pair, gone, &mut witness)? {
            return Ok(false);
        }
        witnesses.put(other, witness)?;
        Ok(true)
    }

    /// Puts the pair of a number on the agenda, if it is open and Unknown and has no witness that stands.
    fn put_unshown<K: View>(
        &self,
        alloc: Global,
        kept: &K,
        stratum: u32,
        other: u32,
        gone: Pair,
        marks: &[Verdict],
        pending: &mut Pending,
    ) -> Result<(), AllocError>
        requires ready { IsReady self.now }
        requires shows { (w : Found) (p : Held) → Holds pending.old.witnesses other w → slice_get self.now.table.now other ≡ Some p →
            IsWitnessBut self.now (known_of self.now (K.known kept.now) marks.now) gone p w }
        ensures witnesses { OnOk result ((i : ℕ) (w : Found) → Holds pending.new.witnesses i w →
            ((i ≢ other) × Holds pending.old.witnesses i w)
            ⊎ ((i ≡ other) × ((p : Held) → slice_get self.now.table.now i ≡ Some p → IsWitnessOf self.now (known_of self.now (K.known kept.now) marks.now) p w))) }
        ensures put { OnOk result ((q : ℕ) → Contains pending.new.agenda q → Contains pending.old.agenda q ⊎ ((q ≡ other) × Waits self.now stratum marks.now Unknown q)) }
        ensures kept { OnOk result ((q : ℕ) → Contains pending.old.agenda q → Contains pending.new.agenda q) }
        ensures settled { OnOk result (Waits self.now stratum marks.now Unknown other →
            Contains pending.new.agenda other ⊎ CanMatchAt self.now (known_of self.now (K.known kept.now) marks.now) other) }
    {
        if self.is_shown(alloc, kept, marks, other, gone, &mut pending.witnesses)? {
            return Ok(());
        }
        if !self.waits(stratum, other, marks, Verdict::Unknown) {
            return Ok(());
        }
        pending.witnesses.note_back(other)?;
        pending.agenda.put(other)?;
        Ok(())
    }

    /// Puts those of the numbers whose pairs are open and Unknown on the agenda, but for those that have a witness that
    /// stands.
    fn put_each_unshown<K: View>(
        &self,
        alloc: Global,
        kept: &K,
        stratum: u32,
        numbers: &[u32],
        gone: Pair,
        marks: &[Verdict],
        pending: &mut Pending,
    ) -> Result<(), AllocError>
        requires ready { IsReady self.now }
        requires shows { AllShowBut self.now (known_of self.now (K.known kept.now) marks.now) gone (Some numbers.now) pending.old.witnesses }
        ensures shows { OnOk result (AllShow self.now (known_of self.now (K.known kept.now) marks.now) pending.new.witnesses) }
        ensures put { OnOk result ((q : ℕ) → Contains pending.new.agenda q → Contains pending.old.agenda q ⊎ (Contains numbers.now q × Waits self.now stratum marks.now Unknown q)) }
        ensures kept { OnOk result ((q : ℕ) → Contains pending.old.agenda q → Contains pending.new.agenda q) }
        ensures settled { OnOk result ((q : ℕ) → Contains numbers.now q → Waits self.now stratum marks.now Unknown q →
            Contains pending.new.agenda q ⊎ CanMatchAt self.now (known_of self.now (K.known kept.now) marks.now) q) }
    {
        for other in numbers {
            self.put_unshown(alloc, kept, stratum, *other, gone, marks, pending)?;
        }
        Ok(())
    }

    /// Puts the pairs that need the pair of a number on the agenda, if they are open and Unknown and have no witness that
    /// stands now that it has gone.
    pub(crate) fn put_back_unshown<K: View>(
        &self,
        alloc: Global,
        kept: &K,
        stratum: u32,
        at: u32,
        gone: Pair,
        marks: &[Verdict],
        pending: &mut Pending,
    ) -> Result<(), AllocError>
        requires ready { IsReady self.now }
        requires pair { slice_get self.now.table.now at ≡ Some gone }
        requires shows { (before : List Mark) × (marks.now ≡ slice_set before at No) × (slice_get before at ≡ Some Unknown)
            × AllShow self.now (known_of self.now (K.known kept.now) before) pending.old.witnesses }
        ensures shows { OnOk result (AllShow self.now (known_of self.now (K.known kept.now) marks.now) pending.new.witnesses) }
        ensures put { OnOk result ((q : ℕ) → Contains pending.new.agenda q → Contains pending.old.agenda q ⊎ GoesBack self.now stratum at marks.now Unknown q) }
        ensures kept { OnOk result ((q : ℕ) → Contains pending.old.agenda q → Contains pending.new.agenda q) }
        ensures settled { OnOk result ((q : ℕ) → GoesBack self.now stratum at marks.now Unknown q →
            Contains pending.new.agenda q ⊎ CanMatchAt self.now (known_of self.now (K.known kept.now) marks.now) q) }
    {
        match self.needing.get(at as usize) {
            Some(needing) => {
                let numbers = needing.as_slice();
                self.put_each_unshown(alloc, kept, stratum, numbers, gone, marks, pending)?;
                Ok(())
            }
            None => Ok(()),
        }
    }

    /// Keeps a witness of the places of a pair, if it was put back and has many.
    pub(crate) fn remember<K: View>(
        &self,
        alloc: Global,
        kept: &K,
        marks: &[Verdict],
        at: u32,
        places: &[Place],
        witnesses: &mut Witnesses,
    ) -> Result<(), AllocError>
        requires ready { IsReady self.now }
        requires there { at < length self.now.table.now }
        requires placed { (p : Held) → slice_get self.now.table.now at ≡ Some p →
            IsOutcome self.now.schema.now self.now.terms.now self.now.graph.now.triples (known_of self.now (K.known kept.now) marks.now) Possible p (Placed places.now) }
        requires shows { AllShow self.now (known_of self.now (K.known kept.now) marks.now) witnesses.old }
        ensures { OnOk result (AllShow self.now (known_of self.now (K.known kept.now) marks.now) witnesses.new) }
    {
        if places.len() < FEW || !witnesses.wants(at, places.len()) {
            return Ok(());
        }
        let pair = self.pair_of(at);
        match self.witness_of(alloc, pair, places)? {
            Some(witness) => {
                let held = Box::new(alloc, witness)?;
                witnesses.put(at, held)?;
                Ok(())
            }
            None => Ok(()),
        }
    }

    /// A witness of the places of a pair.
    fn witness_of(
        &self,
        alloc: Global,
        pair: Pair,
        places: &[Place],
    ) -> Result<Option<Witness>, AllocError>
        requires ready { IsReady self.now }
        requires placed { (view : Known) × IsOutcome self.now.schema.now self.now.terms.now self.now.graph.now.triples view Possible pair (Placed places.now) }
        ensures { IfOk result (λ o. IfSome o (λ w. (view : Known) →
            IsOutcome self.now.schema.now self.now.terms.now self.now.graph.now.triples view Possible pair (Placed places.now) → IsWitnessOf self.now view pair w)) }
    {
        let Some(shape) = self.schema.shapes.as_slice().get(pair.shape.0 as usize) else {
            return Ok(None);
        };
        let triples = relevant(alloc, self.graph, shape, pair.node)?;
        Witness::of(alloc, &triples, shape.occs.as_slice().len(), places)
    }
}
