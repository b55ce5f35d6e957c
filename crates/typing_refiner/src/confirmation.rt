//! Confirmation of the pairs of a stratum that did not go.

ghost use Rattle.std.specs.Prelude.{ℕ, ◌≡◌, ◌<◌, ◌≤◌, ◌+◌, ◌⊎◌, ◌↔◌, [], List, Contains, OnOk, Some, length, slice_get};
ghost use Rattle.schema_tree.specs.Sure.{Known};
ghost use Rattle.schema_tree.specs.declared.schema.Pair.{Pair as Held};
ghost use Rattle.schema_tree.specs.declared.verdicts.Verdict.TheVariants.{Unknown, Yes};
ghost use Rattle.typing_refiner.specs.Spent.{GiveWidths, look_cost, phase_ticks, still_to_tick};
ghost use Rattle.typing_refiner.specs.Ready.{AllWait, IsConfirming, IsLow, IsNearer, IsOpen, IsRaisedBy, IsReady, IsRemoving, Waits};

use crate::ground::{Ground, has_mark};
use crate::removal::set_mark;
use agenda::Agenda;
use schema_tree::sure::View;
use schema_tree::verdicts::{Lean, Verdict};
use std::alloc::{AllocError, Global};
use std::sync::ledger::Ledger;
use tally::Steps;

/// Marks those of the numbers that are Unknown as Yes, and puts them on the agenda.
fn raise(numbers: &[u32], marks: &mut [Verdict], agenda: &mut Agenda) -> Result<(), AllocError>
    requires there { (i : ℕ) → Contains numbers.now i → i < length marks.old }
    requires none { agenda.old ≡ [] }
    ensures raised { OnOk result ((i : ℕ) → IsRaisedBy numbers.now marks.old marks.new i) }
    ensures put { OnOk result ((i : ℕ) → Contains agenda.new i ↔ (Contains numbers.now i × (slice_get marks.old i ≡ Some Unknown))) }
{
    for number in numbers {
        if has_mark(marks, *number, Verdict::Unknown) {
            set_mark(marks, *number, Verdict::Yes);
            agenda.put(*number)?;
        }
    }
    Ok(())
}

impl Ground<'_> {
    /// Looks at the pair of a number, the least of those that are to be looked at: where it does not match though Unknown
    /// is impossible, it becomes Unknown.
    fn confirm_next<K: View, L: Ledger>(
        &self,
        alloc: Global,
        kept: &K,
        stratum: u32,
        at: u32,
        marks: &mut [Verdict],
        agenda: &mut Agenda,
        steps: &mut Steps<L>,
    ) -> Result<(), AllocError>
        requires ready { IsReady self.now }
        requires there { at < length self.now.table.now }
        requires marked { length marks.old ≡ length self.now.table.now }
        requires least { (i : ℕ) → Contains agenda.old i → at < i }
        requires waits { Waits self.now stratum marks.old Yes at }
        requires all { AllWait self.now stratum marks.old Yes agenda.old }
        ensures looked { OnOk result ((lower : Known) (gone : List Held) →
            IsConfirming self.now (K.known kept.now) lower stratum marks.old gone (λ i. Contains agenda.old i ⊎ (i ≡ at)) →
            IsConfirming self.now (K.known kept.now) lower stratum marks.new gone (λ i. Contains agenda.new i)) }
        ensures all { OnOk result (AllWait self.now stratum marks.new Yes agenda.new) }
        ensures nearer { OnOk result (IsNearer (length self.now.table.now) Yes marks.old agenda.old marks.new agenda.new) }
        ensures spent { (width : Held → ℕ) → GiveWidths self.now width → steps.new ≤ steps.old + look_cost self.now width at }
        ensures paid { (width : Held → ℕ) → GiveWidths self.now width → OnOk result (steps.new + still_to_tick self.now width stratum Yes marks.new agenda.new ≤ steps.old + (still_to_tick self.now width stratum Yes marks.old agenda.old + look_cost self.now width at)) }
    {
        if self.matches(alloc, kept, marks, Lean::Impossible, at, steps)? {
            return Ok(());
        }
        set_mark(marks, at, Verdict::Unknown);
        self.put_back(stratum, at, marks, Verdict::Yes, agenda)?;
        let _count = agenda.len();
        Ok(())
    }

    /// Marks the open pairs of a stratum that did not go as Yes, and then those of them as Unknown that the others do not
    /// confirm, until all that are left confirm one another; `members` are the numbers of the open pairs.
    pub fn confirm<K: View, L: Ledger>(
        &self,
        alloc: Global,
        kept: &K,
        stratum: u32,
        members: &[u32],
        marks: &mut [Verdict],
        steps: &mut Steps<L>,
    ) -> Result<(), AllocError>
        requires ready { IsReady self.now }
        requires marked { length marks.old ≡ length self.now.table.now }
        requires members { (i : ℕ) → Contains members.now i ↔ IsOpen self.now stratum i }
        ensures spent { (width : Held → ℕ) → GiveWidths self.now width → steps.new ≤ steps.old + phase_ticks self.now width stratum }
        ensures confirmed { OnOk result ((lower : Known) (gone : List Held) → IsLow self.now lower stratum →
            IsRemoving self.now (K.known kept.now) lower stratum marks.old gone (λ i. ⊥) →
            IsConfirming self.now (K.known kept.now) lower stratum marks.new gone (λ i. ⊥)) }
    {
        let mut agenda = Agenda::new(alloc);
        raise(members, marks, &mut agenda)?;
        while let Some(at) = agenda.take_least() {
            self.confirm_next(alloc, kept, stratum, at, marks, &mut agenda, steps)?;
        }
        Ok(())
    }
}
