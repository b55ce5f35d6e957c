//! Removal of the pairs of a stratum that cannot match.

ghost use Rattle.std.specs.Prelude.{ℕ, ◌≡◌, ◌≢◌, ◌<◌, ◌≤◌, ◌+◌, ◌⊎◌, ◌↔◌, [], Contains, IfOk, OnOk, Some, length, map, slice_get, slice_set};
ghost use Rattle.schema_tree.specs.Sure.{Known};
ghost use Rattle.schema_tree.specs.declared.verdicts.Verdict.TheVariants.{Unknown};
ghost use Rattle.schema_tree.specs.declared.schema.Pair.{Pair as Held};
ghost use Rattle.typing_refiner.specs.declared.wanted.Wanted.TheVariants as Wanteds;
ghost use Rattle.typing_refiner.specs.Spent.{GiveWidths, look_cost, phase_ticks, still_to_tick};
ghost use Rattle.typing_refiner.specs.Ready.{AllWait, IsBefore, IsNearer, IsOpen, IsReady, IsRemoving, Waits, count_of, known_of};
ghost use Rattle.typing_refiner.specs.Findings.{IsFinding};
ghost use Rattle.typing_refiner.specs.Holding.{AllShow};
ghost use Rattle.typing_refiner.specs.Records.{HaveStates, pairs_gone};

use crate::ground::Ground;
use crate::standing::Pending;
use crate::wanted::Wanted;
use crate::witnesses::Witnesses;
use agenda::Agenda;
use bag_match::Outcome;
use rdf_terms::items::Items;
use schema_tree::schema::Pair;
use schema_tree::sure::View;
use schema_tree::verdicts::{Lean, Place, State, Verdict};
use std::alloc::{AllocError, Global};
use std::sync::ledger::Ledger;
use tally::Steps;

/// A pair that went, and the states that showed that it cannot match.
#[derive(Debug, Drop)]
pub struct Removed {
    /// Its number.
    pub at: u32,
    /// The pair.
    pub pair: Pair,
    /// Its place among those that went from its stratum, from 1.
    pub rank: u32,
    /// The states.
    pub states: Items<State>,
}

/// What a look at a pair comes to while pairs are removed.
#[derive(Debug, Drop)]
pub enum Finding {
    /// It can match, with these places.
    Placed(Items<Place>),
    /// It cannot match, and where records are wanted these states show it.
    Goes(Items<State>),
}

/// Marks a pair.
pub(crate) fn set_mark(marks: &mut [Verdict], at: u32, mark: Verdict)
    requires { at < length marks.old }
    ensures { marks.new ≡ slice_set marks.old at mark }
{
    marks[at as usize] = mark;
}

/// Puts numbers on an agenda.
fn put_all(agenda: &mut Agenda, numbers: &[u32]) -> Result<(), AllocError>
    ensures { OnOk result ((q : ℕ) → Contains agenda.new q ↔ (Contains agenda.old q ⊎ Contains numbers.now q)) }
{
    for number in numbers {
        agenda.put(*number)?;
    }
    Ok(())
}

/// The rank of the pair that goes next.
fn next_rank(gone: &[Removed]) -> u32
    requires { length gone.now < 4294967295 }
    ensures { result ≡ length gone.now + 1 }
{
    gone.len() as u32 + 1
}

impl Ground<'_> {
    /// The states where records are wanted, and else none.
    fn kept(&self, alloc: Global, states: Items<State>) -> Items<State>
        ensures { (self.now.wanted ≡ Wanteds.Records) → result ≡ states }
    {
        match self.wanted {
            Wanted::Records => states,
            Wanted::Verdicts => Items::of(Vec::new(alloc)),
        }
    }

    /// The pair of a number, which goes next after these, and the states that showed that it cannot match.
    fn removed(&self, alloc: Global, at: u32, gone: &[Removed], states: Items<State>) -> Removed
        requires there { at < length self.now.table.now }
        requires few { length gone.now < 4294967295 }
        ensures at { result.at ≡ at }
        ensures pair { slice_get self.now.table.now at ≡ Some result.pair }
        ensures rank { result.rank ≡ length gone.now + 1 }
        ensures states { (self.now.wanted ≡ Wanteds.Records) → result.states ≡ states }
    {
        Removed {
            at,
            pair: self.pair_of(at),
            rank: next_rank(gone),
            states: self.kept(alloc, states),
        }
    }

    /// What a look at the pair of a number comes to, with its states.
    fn look_whole<K: View, L: Ledger>(
        &self,
        alloc: Global,
        kept: &K,
        marks: &[Verdict],
        at: u32,
        steps: &mut Steps<L>,
    ) -> Result<Finding, AllocError>
        requires ready { IsReady self.now }
        requires there { at < length self.now.table.now }
        ensures found { IfOk result (λ f. (p : Held) → slice_get self.now.table.now at ≡ Some p → IsFinding self.now (known_of self.now (K.known kept.now) marks.now) p f) }
        ensures spent { (width : Held → ℕ) → GiveWidths self.now width → steps.new ≤ steps.old + look_cost self.now width at }
    {
        match self.look(alloc, kept, marks, Lean::Possible, at, steps)? {
            Outcome::Placed(places) => Ok(Finding::Placed(places)),
            Outcome::Never(states) => Ok(Finding::Goes(states)),
        }
    }

    /// What a look at the pair of a number comes to, where no record is wanted.
    fn look_only<K: View, L: Ledger>(
        &self,
        alloc: Global,
        kept: &K,
        marks: &[Verdict],
        at: u32,
        steps: &mut Steps<L>,
    ) -> Result<Finding, AllocError>
        requires ready { IsReady self.now }
        requires there { at < length self.now.table.now }
        requires only { self.now.wanted ≢ Wanteds.Records }
        ensures found { IfOk result (λ f. (p : Held) → slice_get self.now.table.now at ≡ Some p → IsFinding self.now (known_of self.now (K.known kept.now) marks.now) p f) }
        ensures spent { (width : Held → ℕ) → GiveWidths self.now width → steps.new ≤ steps.old + look_cost self.now width at }
    {
        match self.find_places(alloc, kept, marks, Lean::Possible, at, steps)? {
            Some(places) => Ok(Finding::Placed(places)),
            None => Ok(Finding::Goes(Items::of(Vec::new(alloc)))),
        }
    }

    /// What a look at the pair of a number comes to: its places, or, if records are wanted, the states that show that there
    /// are none.
    fn find<K: View, L: Ledger>(
        &self,
        alloc: Global,
        kept: &K,
        marks: &[Verdict],
        at: u32,
        steps: &mut Steps<L>,
    ) -> Result<Finding, AllocError>
        requires ready { IsReady self.now }
        requires there { at < length self.now.table.now }
        ensures found { IfOk result (λ f. (p : Held) → slice_get self.now.table.now at ≡ Some p → IsFinding self.now (known_of self.now (K.known kept.now) marks.now) p f) }
        ensures spent { (width : Held → ℕ) → GiveWidths self.now width → steps.new ≤ steps.old + look_cost self.now width at }
    {
        match self.wanted {
            Wanted::Records => self.look_whole(alloc, kept, marks, at, steps),
            Wanted::Verdicts => self.look_only(alloc, kept, marks, at, steps),
        }
    }

    /// Looks at the pair of a number, the least of those that are to be looked at: where it cannot match, it goes.
    fn remove_next<K: View, L: Ledger>(
        &self,
        alloc: Global,
        kept: &K,
        stratum: u32,
        at: u32,
        marks: &mut [Verdict],
        gone: &mut Vec<Removed>,
        pending: &mut Pending,
        steps: &mut Steps<L>,
    ) -> Result<(), AllocError>
        requires ready { IsReady self.now }
        requires there { at < length self.now.table.now }
        requires marked { length marks.old ≡ length self.now.table.now }
        requires least { (i : ℕ) → Contains pending.old.agenda i → at < i }
        requires waits { Waits self.now stratum marks.old Unknown at }
        requires few { length gone.old.items < length self.now.table.now }
        requires all { AllWait self.now stratum marks.old Unknown pending.old.agenda }
        requires shows { AllShow self.now (known_of self.now (K.known kept.now) marks.old) pending.old.witnesses }
        ensures shows { OnOk result (AllShow self.now (known_of self.now (K.known kept.now) marks.new) pending.new.witnesses) }
        ensures looked { OnOk result ((lower : Known) →
            IsRemoving self.now (K.known kept.now) lower stratum marks.old (map (λ r. r.pair) gone.old.items) (λ i. Contains pending.old.agenda i ⊎ (i ≡ at)) →
            IsRemoving self.now (K.known kept.now) lower stratum marks.new (map (λ r. r.pair) gone.new.items) (λ i. Contains pending.new.agenda i)) }
        ensures states { OnOk result ((lower : Known) →
            IsRemoving self.now (K.known kept.now) lower stratum marks.old (pairs_gone gone.old.items) (λ i. Contains pending.old.agenda i ⊎ (i ≡ at)) →
            HaveStates self.now lower gone.old.items → HaveStates self.now lower gone.new.items) }
        ensures all { OnOk result (AllWait self.now stratum marks.new Unknown pending.new.agenda) }
        ensures few { OnOk result (length gone.new.items + count_of Unknown marks.new ≤ length gone.old.items + count_of Unknown marks.old) }
        ensures nearer { OnOk result (IsNearer (length self.now.table.now) Unknown marks.old pending.old.agenda marks.new pending.new.agenda) }
        ensures spent { (width : Held → ℕ) → GiveWidths self.now width → steps.new ≤ steps.old + look_cost self.now width at }
        ensures paid { (width : Held → ℕ) → GiveWidths self.now width → OnOk result (steps.new + still_to_tick self.now width stratum Unknown marks.new pending.new.agenda ≤ steps.old + (still_to_tick self.now width stratum Unknown marks.old pending.old.agenda + look_cost self.now width at)) }
    {
        match self.find(alloc, kept, marks, at, steps)? {
            Finding::Placed(places) => {
                self.remember(
                    alloc,
                    kept,
                    marks,
                    at,
                    places.as_slice(),
                    &mut pending.witnesses,
                )?;
                Ok(())
            }
            Finding::Goes(states) => {
                let removed = self.removed(alloc, at, gone.as_slice(), states);
                gone.push(removed)?;
                set_mark(marks, at, Verdict::No);
                let pair = self.pair_of(at);
                self.put_back_unshown(alloc, kept, stratum, at, pair, marks, pending)?;
                let _count = pending.agenda.len();
                Ok(())
            }
        }
    }

    /// Removes the open pairs of a stratum that cannot match, the first of them next, until there is none; `members` are
    /// the numbers of the open pairs.
    pub fn remove<K: View, L: Ledger>(
        &self,
        alloc: Global,
        kept: &K,
        stratum: u32,
        members: &[u32],
        marks: &mut [Verdict],
        steps: &mut Steps<L>,
    ) -> Result<Vec<Removed>, AllocError>
        requires ready { IsReady self.now }
        requires marked { length marks.old ≡ length self.now.table.now }
        requires members { (i : ℕ) → Contains members.now i ↔ IsOpen self.now stratum i }
        requires fresh { (i : ℕ) → Contains members.now i → slice_get marks.old i ≡ Some Unknown }
        ensures spent { (width : Held → ℕ) → GiveWidths self.now width → steps.new ≤ steps.old + phase_ticks self.now width stratum }
        ensures states { IfOk result (λ gone. (lower : Known) → IsBefore self.now (K.known kept.now) lower stratum marks.old → HaveStates self.now lower gone.items) }
        ensures few { IfOk result (λ gone. length gone.items ≤ length self.now.table.now) }
        ensures removed { IfOk result (λ gone. (lower : Known) → IsBefore self.now (K.known kept.now) lower stratum marks.old →
            IsRemoving self.now (K.known kept.now) lower stratum marks.new (map (λ r. r.pair) gone.items) (λ i. ⊥)) }
    {
        let mut agenda = Agenda::new(alloc);
        put_all(&mut agenda, members)?;
        let mut gone = Vec::new(alloc);
        let witnesses = Witnesses::none(alloc);
        let mut pending = Pending { agenda, witnesses };
        while let Some(at) = pending.agenda.take_least() {
            self.remove_next(
                alloc,
                kept,
                stratum,
                at,
                marks,
                &mut gone,
                &mut pending,
                steps,
            )?;
        }
        Ok(gone)
    }
}
