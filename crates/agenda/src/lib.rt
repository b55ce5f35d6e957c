//! Numbers that are still to be looked at, each once, and taken from either end.
#![tactic(auto)]

ghost use Rattle.std.specs.Prelude.{ℕ, [], ◌≡◌, ◌≤◌, ◌<◌, ◌+◌, ◌⊎◌, ◌↔◌, Contains, IfSome, IsNone, OnOk, length};

use std::alloc::{AllocError, Global};
use std::collections::BTreeSet;
use std::marker::Model;

/// A set of numbers, of which the least or the greatest is taken next.
#[derive(Drop)]
pub struct Agenda {
    numbers: BTreeSet<u32>,
}

impl Model for Agenda {
    ghost use Rattle.std.specs.Prelude.{List, ℕ};

    ghost Value = { List ℕ };

    ghost view = { λ a. a.numbers.keys };
}

impl Agenda {
    /// No numbers.
    pub fn new(alloc: Global) -> Agenda
        ensures { result ≡ [] }
    {
        Agenda {
            numbers: BTreeSet::new(alloc),
        }
    }

    /// How many numbers there are.
    pub fn len(&self) -> usize
        ensures count { result ≡ length self.now }
        ensures few { (n : ℕ) → ((q : ℕ) → Contains self.now q → q < n) → length self.now ≤ n }
    {
        self.numbers.len()
    }

    /// Adds a number, where it is not there.
    pub fn put(&mut self, number: u32) -> Result<(), AllocError>
        ensures { OnOk result ((q : ℕ) → Contains self.new q ↔ (Contains self.old q ⊎ (q ≡ number))) }
    {
        self.numbers.insert(number)?;
        Ok(())
    }

    /// Takes the least number, and `None` exactly where there is none.
    pub fn take_least(&mut self) -> Option<u32>
        ensures taken { IfSome result (λ k. (q : ℕ) → Contains self.old q ↔ (Contains self.new q ⊎ (q ≡ k))) }
        ensures least { IfSome result (λ k. (q : ℕ) → Contains self.new q → k < q) }
        ensures fewer { IfSome result (λ k. length self.old ≡ length self.new + 1) }
        ensures none { IsNone result → self.old ≡ [] }
    {
        self.numbers.pop_first()
    }

    /// Takes the greatest number, and `None` exactly where there is none.
    pub fn take_greatest(&mut self) -> Option<u32>
        ensures taken { IfSome result (λ k. (q : ℕ) → Contains self.old q ↔ (Contains self.new q ⊎ (q ≡ k))) }
        ensures greatest { IfSome result (λ k. (q : ℕ) → Contains self.new q → q < k) }
        ensures none { IsNone result → self.old ≡ [] }
    {
        self.numbers.pop_last()
    }
}
