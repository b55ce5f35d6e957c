//! Refinement of all strata, from the lowest on.

ghost use Rattle.std.specs.Prelude.{ℕ, [], suc, true, ◌≡◌, ◌<◌, ◌≤◌, ◌+◌, ◌*◌, ◌↔◌, ◌⊎◌, List, Contains, IfOk, OnOk, Some, length, map, max, slice_get};
ghost use Rattle.schema_tree.specs.Sure.{Known};
ghost use Rattle.schema_tree.specs.Typings.{top_of};
ghost use Rattle.schema_tree.specs.declared.verdicts.Verdict.TheVariants.{Unknown, Yes};
ghost use Rattle.typing_refiner.specs.Ready.{IsBefore, IsOpen, IsReady, known_of};
ghost use Rattle.removal_laws.specs.Marks.{known_by};
ghost use Rattle.removal_laws.specs.Costs.{total};
ghost use Rattle.schema_tree.specs.declared.schema.Pair.{Pair as Held};
ghost use Rattle.typing_refiner.specs.Spent.{GiveWidths, narrow_test, phase_ticks, record_ticks};
ghost use Rattle.typing_refiner.specs.Confirmed.{HavePlaces, numbers_of};
ghost use Rattle.typing_refiner.specs.Records.{HaveStates, IsShownOver, MatchesAt};
ghost use Rattle.typing_refiner.specs.declared.wanted.Wanted.TheVariants as Wanteds;
ghost use Rattle.schema_tree.specs.declared.schema.ShapeId.{ShapeId as OfShape};
ghost use Rattle.schema_tree.specs.Edges.{level};
ghost use Rattle.typing_refiner.specs.Building.{HasAt};
ghost use Rattle.schema_tree.specs.Needs.{HoldNeeds};
ghost use Rattle.typing_refiner.specs.Evidence.{AreShownBy};
ghost use Rattle.typing_refiner.specs.Refined.{IsRefinedOn, IsRefinedOver, IsStratumDone, verdicts_of};

use crate::building::{add_number, empty_lists};
use crate::ground::{Ground, has_mark};
use crate::records::{Records, no_kinds, put_all_confirmed, put_all_removed};
use crate::removal::Removed;
use crate::wanted::Wanted;
use rdf_terms::items::Items;
use schema_tree::sure::View;
use schema_tree::verdicts::{Place, Verdict};
use std::alloc::{AllocError, Global};
use std::sync::ledger::Ledger;
use tally::Steps;

/// The higher of two numbers.
fn higher(a: u32, b: u32) -> u32
    ensures { result ≡ max a b }
{
    if a < b { b } else { a }
}

/// The highest of the numbers, 0 where there is none.
pub(crate) fn top(strata: &[u32]) -> u32
    ensures { result ≡ top_of strata.now }
{
    let mut top = 0;
    for stratum in strata {
        top = higher(top, *stratum);
    }
    top
}

/// A pair that is confirmed, and its least places.
#[derive(Debug, Drop)]
pub struct Confirmed {
    /// Its number.
    pub at: u32,
    /// A place for each relevant triple.
    pub places: Items<Place>,
}

/// The verdicts on pairs, and what shows them.
#[derive(Drop)]
pub struct Verdicts {
    /// The verdicts.
    pub marks: Vec<Verdict>,
    /// The records of them, and none where none are wanted.
    pub records: Records,
}

/// The verdicts on pairs, and the pairs that went.
#[derive(Drop)]
pub struct Refining {
    /// The verdicts.
    pub marks: Vec<Verdict>,
    /// The pairs that went from each stratum, in turn.
    pub gone: Vec<Vec<Removed>>,
}

/// Unknown, as often as this.
fn unknown(alloc: Global, count: usize) -> Result<Vec<Verdict>, AllocError>
    ensures count { IfOk result (λ v. length v.items ≡ count) }
    ensures unknown { IfOk result (λ v. (i : ℕ) → i < length v.items → slice_get v.items i ≡ Some Unknown) }
{
    let mut marks = Vec::new(alloc);
    for _ in 0..count {
        marks.push(Verdict::Unknown)?;
    }
    Ok(marks)
}

/// The list of a number.
fn list_at(lists: &[Vec<u32>], at: usize) -> &[u32]
    requires { at < length lists.now }
    ensures { slice_get (map (λ l. l.items) lists.now) at ≡ Some result.now }
{
    lists[at].as_slice()
}

impl Ground<'_> {
    /// Puts the number of a pair behind those of its stratum, if its Width is within the budget.
    fn add_member(&self, at: u32, lists: &mut Vec<Vec<u32>>) -> Result<(), AllocError>
        requires ready { IsReady self.now }
        requires there { at < length self.now.table.now }
        requires strata { (i : OfShape) → level self.now.strata.now i < length lists.old.items }
        ensures added { OnOk result ((k i : ℕ) → HasAt (map (λ l. l.items) lists.new.items) k i ↔ (HasAt (map (λ l. l.items) lists.old.items) k i ⊎ ((i ≡ at) × IsOpen self.now k i))) }
        ensures same { length lists.new.items ≡ length lists.old.items }
    {
        let stratum = self.stratum_of(self.pair_of(at));
        if !self.is_open(stratum, at) {
            return Ok(());
        }
        add_number(lists, stratum, at)?;
        Ok(())
    }

    /// The numbers of the open pairs of each stratum.
    fn members(&self, alloc: Global, count: usize) -> Result<Vec<Vec<u32>>, AllocError>
        requires ready { IsReady self.now }
        requires strata { (i : OfShape) → level self.now.strata.now i < count }
        ensures count { IfOk result (λ v. length v.items ≡ count) }
        ensures members { IfOk result (λ v. (k i : ℕ) → HasAt (map (λ l. l.items) v.items) k i ↔ IsOpen self.now k i) }
    {
        let mut lists = empty_lists(alloc, count)?;
        for at in 0..self.table.len() {
            self.add_member(at as u32, &mut lists)?;
        }
        Ok(lists)
    }

    /// Refines a stratum over those below it, and gives the pairs that went in their turns.
    fn refine_stratum<K: View, L: Ledger>(
        &self,
        alloc: Global,
        kept: &K,
        stratum: u32,
        members: &[u32],
        marks: &mut [Verdict],
        steps: &mut Steps<L>,
    ) -> Result<Vec<Removed>, AllocError>
        requires ready { IsReady self.now }
        requires members { (i : ℕ) → Contains members.now i ↔ IsOpen self.now stratum i }
        requires marked { length marks.old ≡ length self.now.table.now }
        requires fresh { (i : ℕ) → IsOpen self.now stratum i → slice_get marks.old i ≡ Some Unknown }
        ensures spent { (width : Held → ℕ) → GiveWidths self.now width → steps.new ≤ steps.old + 2 * phase_ticks self.now width stratum }
        ensures states { IfOk result (λ gone. (lower : Known) → IsBefore self.now (K.known kept.now) lower stratum marks.old → HaveStates self.now lower gone.items) }
        ensures done { IfOk result (λ gone. (lower : Known) → IsBefore self.now (K.known kept.now) lower stratum marks.old →
            IsStratumDone self.now (K.known kept.now) lower stratum (map (λ r. r.pair) gone.items) marks.new) }
    {
        let gone = self.remove(alloc, kept, stratum, members, marks, steps)?;
        self.confirm(alloc, kept, stratum, members, marks, steps)?;
        Ok(gone)
    }

    /// Refines the strata, from the lowest on, and gives for each the pairs that went; the lists are the numbers of the open
    /// pairs of each stratum, and at first no pair has a verdict.
    fn refine_each<K: View, L: Ledger>(
        &self,
        alloc: Global,
        kept: &K,
        members: &[Vec<u32>],
        marks: &mut [Verdict],
        steps: &mut Steps<L>,
    ) -> Result<Vec<Vec<Removed>>, AllocError>
        requires ready { IsReady self.now }
        requires each { length members.now ≡ suc (top_of self.now.strata.now) }
        requires few { length members.now ≤ 4294967296 }
        requires members { (k i : ℕ) → HasAt (map (λ l. l.items) members.now) k i ↔ IsOpen self.now k i }
        requires marked { length marks.old ≡ length self.now.table.now }
        requires unknown { (i : ℕ) → i < length marks.old → slice_get marks.old i ≡ Some Unknown }
        ensures spent { (width : Held → ℕ) → GiveWidths self.now width → steps.new ≤ steps.old + total (λ k. 2 * phase_ticks self.now width k) (suc (top_of self.now.strata.now)) }
        ensures refined { IfOk result (λ all. IsRefinedOver self.now (K.known kept.now) (known_of self.now (K.known kept.now) marks.old) (suc (top_of self.now.strata.now)) marks.new) }
        ensures shown { IfOk result (λ all. IsShownOver self.now (K.known kept.now) (known_of self.now (K.known kept.now) marks.old) (suc (top_of self.now.strata.now)) marks.new (map (λ v. v.items) all.items)) }
    {
        let mut all = Vec::new(alloc);
        let count = members.len();
        for stratum in 0..count {
            let members = list_at(members, stratum);
            let gone = self.refine_stratum(alloc, kept, stratum as u32, members, marks, steps)?;
            all.push(gone)?;
        }
        Ok(all)
    }

    /// Refines all strata, and gives for each the pairs that went; at first no pair has a verdict.
    pub fn refine_strata<K: View, L: Ledger>(
        &self,
        alloc: Global,
        kept: &K,
        marks: &mut [Verdict],
        steps: &mut Steps<L>,
    ) -> Result<Vec<Vec<Removed>>, AllocError>
        requires ready { IsReady self.now }
        requires marked { length marks.old ≡ length self.now.table.now }
        requires unknown { (i : ℕ) → i < length marks.old → slice_get marks.old i ≡ Some Unknown }
        ensures spent { (width : Held → ℕ) → GiveWidths self.now width → steps.new ≤ steps.old + total (λ k. 2 * phase_ticks self.now width k) (suc (top_of self.now.strata.now)) }
        ensures refined { IfOk result (λ all. IsRefinedOver self.now (K.known kept.now) (known_of self.now (K.known kept.now) marks.old) (suc (top_of self.now.strata.now)) marks.new) }
        ensures shown { IfOk result (λ all. IsShownOver self.now (K.known kept.now) (known_of self.now (K.known kept.now) marks.old) (suc (top_of self.now.strata.now)) marks.new (map (λ v. v.items) all.items)) }
    {
        let count = u64::from(top(self.strata)) + 1;
        let members = self.members(alloc, count as usize)?;
        self.refine_each(alloc, kept, members.as_slice(), marks, steps)
    }

    /// The pairs that are Yes, with their least places.
    fn confirmations<K: View, L: Ledger>(
        &self,
        alloc: Global,
        kept: &K,
        marks: &[Verdict],
        steps: &mut Steps<L>,
    ) -> Result<Vec<Confirmed>, AllocError>
        requires ready { IsReady self.now }
        requires matches { (i : ℕ) → slice_get marks.now i ≡ Some Yes → MatchesAt self.now (known_of self.now (K.known kept.now) marks.now) i }
        requires narrow { (i : ℕ) → i < length self.now.table.now → slice_get marks.now i ≡ Some Yes → narrow_test self.now i ≡ true }
        ensures spent { (width : Held → ℕ) → GiveWidths self.now width → steps.new ≤ steps.old + record_ticks self.now width }
        ensures numbers { IfOk result (λ v. (i : ℕ) → Contains (numbers_of v.items) i ↔ ((i < length self.now.table.now) × (slice_get marks.now i ≡ Some Yes))) }
        ensures places { IfOk result (λ v. HavePlaces self.now (known_of self.now (K.known kept.now) marks.now) v.items) }
    {
        let mut confirmed = Vec::new(alloc);
        for at in 0..self.table.len() {
            if has_mark(marks, at as u32, Verdict::Yes) {
                let places = self.places_of(alloc, kept, marks, at as u32, steps)?;
                confirmed.push(Confirmed {
                    at: at as u32,
                    places,
                })?;
            }
        }
        Ok(confirmed)
    }

    /// Refines all strata.
    pub fn refine_all<K: View, L: Ledger>(
        &self,
        alloc: Global,
        kept: &K,
        steps: &mut Steps<L>,
    ) -> Result<Refining, AllocError>
        requires ready { IsReady self.now }
        ensures spent { (width : Held → ℕ) → GiveWidths self.now width → steps.new ≤ steps.old + total (λ k. 2 * phase_ticks self.now width k) (suc (top_of self.now.strata.now)) }
        ensures refined { IfOk result (λ v. IsRefinedOn self.now.schema.now self.now.terms.now self.now.graph.now.triples self.now.strata.now self.now.table.now self.now.budget (K.known kept.now) (known_by (K.known kept.now) self.now.table.now v.marks.items)) }
        ensures matches { IfOk result (λ v. (i : ℕ) → slice_get v.marks.items i ≡ Some Yes → MatchesAt self.now (known_of self.now (K.known kept.now) v.marks.items) i) }
        ensures shown { IfOk result (λ v. IsShownOver self.now (K.known kept.now) (known_by (K.known kept.now) self.now.table.now []) (suc (top_of self.now.strata.now)) v.marks.items (map (λ x. x.items) v.gone.items)) }
    {
        let mut marks = unknown(alloc, self.table.len())?;
        let gone = self.refine_strata(alloc, kept, marks.as_mut_slice(), steps)?;
        Ok(Refining { marks, gone })
    }

    /// The records of the verdicts.
    fn evidence<K: View, L: Ledger>(
        &self,
        alloc: Global,
        kept: &K,
        marks: &[Verdict],
        gone: Vec<Vec<Removed>>,
        steps: &mut Steps<L>,
    ) -> Result<Records, AllocError>
        requires ready { IsReady self.now }
        requires matches { (i : ℕ) → slice_get marks.now i ≡ Some Yes → MatchesAt self.now (known_of self.now (K.known kept.now) marks.now) i }
        requires shown { IsShownOver self.now (K.known kept.now) (known_by (K.known kept.now) self.now.table.now []) (suc (top_of self.now.strata.now)) marks.now (map (λ x. x.items) gone.items) }
        ensures spent { (width : Held → ℕ) → GiveWidths self.now width → steps.new ≤ steps.old + record_ticks self.now width }
        ensures shown { (self.now.wanted ≡ Wanteds.Records) → HoldNeeds self.now.schema.now self.now.graph.now.triples self.now.table.now → IfOk result (λ r. AreShownBy self.now.schema.now self.now.terms.now self.now.graph.now.triples self.now.strata.now self.now.table.now self.now.budget (verdicts_of self.now.table.now marks.now) r.nodes.items r.sections.items) }
    {
        let confirmed = self.confirmations(alloc, kept, marks, steps)?;
        let mut kinds = no_kinds(alloc, self.table.len())?;
        put_all_removed(&mut kinds, gone);
        put_all_confirmed(&mut kinds, confirmed);
        let records = self.records(alloc, kinds)?;
        Ok(records)
    }

    /// Refines all strata, and gives the verdicts on the pairs, and records of them where these are wanted.
    pub fn refine_shown<K: View, L: Ledger>(
        &self,
        alloc: Global,
        kept: &K,
        steps: &mut Steps<L>,
    ) -> Result<Verdicts, AllocError>
        requires ready { IsReady self.now }
        ensures spent { (width : Held → ℕ) → GiveWidths self.now width →
            steps.new ≤ steps.old + (total (λ k. 2 * phase_ticks self.now width k) (suc (top_of self.now.strata.now)) + record_ticks self.now width) }
        ensures refined { IfOk result (λ v. IsRefinedOn self.now.schema.now self.now.terms.now self.now.graph.now.triples self.now.strata.now self.now.table.now self.now.budget (K.known kept.now) (known_by (K.known kept.now) self.now.table.now v.marks.items)) }
        ensures unrecorded { (self.now.wanted ≡ Wanteds.Verdicts) →
            IfOk result (λ v. (v.records.nodes.items ≡ []) × (v.records.sections.items ≡ [])) }
        ensures shown { (self.now.wanted ≡ Wanteds.Records) → HoldNeeds self.now.schema.now self.now.graph.now.triples self.now.table.now → IfOk result (λ v. AreShownBy self.now.schema.now self.now.terms.now self.now.graph.now.triples self.now.strata.now self.now.table.now self.now.budget (verdicts_of self.now.table.now v.marks.items) v.records.nodes.items v.records.sections.items) }
    {
        let Refining { marks, gone } = self.refine_all(alloc, kept, steps)?;
        match self.wanted {
            Wanted::Verdicts => Ok(Verdicts {
                marks,
                records: Records {
                    nodes: Vec::new(alloc),
                    sections: Vec::new(alloc),
                },
            }),
            Wanted::Records => {
                let records = self.evidence(alloc, kept, marks.as_slice(), gone, steps)?;
                Ok(Verdicts { marks, records })
            }
        }
    }
}
