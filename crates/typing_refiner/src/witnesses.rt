//! Witnesses by the numbers of their pairs.

ghost use Rattle.std.specs.Prelude.{ℕ, [], ◌≡◌, ◌≢◌, ◌≤◌, ◌+◌, ◌⊎◌, IfSome, IsTrue, OnOk, length, ◌↔◌};
ghost use Rattle.typing_refiner.specs.declared.witness.Witness.{Witness as Found};
ghost use Rattle.typing_refiner.specs.Holding.{Holds, most_triples, triples_of};

use crate::witness::Witness;
use indexmap::{IndexMap, IndexSet};
use std::alloc::{AllocError, Global};
use std::marker::Model;

/// How many triples the witnesses have together at most.
const MOST_TRIPLES: usize = 4_194_304;

/// The witnesses of pairs that were looked at again, by the numbers of the pairs.
#[derive(Drop)]
pub struct Witnesses {
    /// The witness of each pair that has one.
    held: IndexMap<u32, Box<Witness>>,
    /// How many triples they have together.
    triples: usize,
    /// The pairs that were put back on the agenda.
    back: IndexSet<u32>,
}

impl Model for Witnesses {
    ghost use Rattle.std.specs.Prelude.{ℕ, List, ◌≡◌, ◌≤◌};
    ghost use Rattle.std.specs.Global.{Box as Boxed};
    ghost use Rattle.typing_refiner.specs.declared.witness.Witness.{Witness};
    ghost use Rattle.typing_refiner.specs.Holding.{most_triples, triples_of};

    ghost Value = { List (ℕ × Boxed Witness) };

    ghost view = { λ w. w.held.entries };

    ghost invariant = { λ w. (w.triples ≡ triples_of w.held.entries) × (w.triples ≤ most_triples) };
}

impl Witnesses {
    /// No witnesses.
    pub fn none(alloc: Global) -> Witnesses
        ensures { result ≡ [] }
    {
        Witnesses {
            held: IndexMap::new(alloc),
            triples: 0,
            back: IndexSet::new(alloc),
        }
    }

    /// Takes the witness of a pair out.
    pub fn take(&mut self, at: u32) -> Option<Box<Witness>>
        ensures taken { IfSome result (λ b. Holds self.old at b.value) }
        ensures left { (i : ℕ) (w : Found) → Holds self.new i w → (i ≢ at) × Holds self.old i w }
    {
        let witness = self.held.swap_remove(&at)?;
        self.triples -= witness.triples.len();
        Some(witness)
    }

    /// Whether there is room for a witness of so many triples.
    fn has_room(&self, triples: usize) -> bool
        ensures { IsTrue result ↔ (triples_of self.now + triples ≤ most_triples) }
    {
        triples <= MOST_TRIPLES - self.triples
    }

    /// Puts the witness of a pair, if there is room for it.
    pub fn put(&mut self, at: u32, witness: Box<Witness>) -> Result<(), AllocError>
        ensures { OnOk result ((i : ℕ) (w : Found) → Holds self.new i w → Holds self.old i w ⊎ ((i ≡ at) × (w ≡ witness.value))) }
    {
        drop(self.take(at));
        let triples = witness.triples.len();
        if !self.has_room(triples) {
            return Ok(());
        }
        self.held.insert(at, witness)?;
        self.triples += triples;
        Ok(())
    }

    /// Notes that a pair was put back on the agenda.
    pub fn note_back(&mut self, at: u32) -> Result<(), AllocError>
        ensures { OnOk result (self.new ≡ self.old) }
    {
        self.back.insert(at)?;
        Ok(())
    }

    /// Whether a pair was put back on the agenda.
    pub fn was_back(&self, at: u32) -> bool {
        self.back.contains(&at)
    }

    /// Whether a witness of so many triples is to be made of a pair: the pair was put back on the agenda, and there is room.
    pub fn wants(&self, at: u32, triples: usize) -> bool
        ensures { IsTrue result → triples_of self.now + triples ≤ most_triples }
    {
        self.was_back(at) && self.has_room(triples)
    }
}
