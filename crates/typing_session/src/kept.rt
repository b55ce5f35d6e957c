//! The verdicts that are kept on pairs.

ghost use Rattle.std.specs.Prelude.{[], ◌∷◌, ◌++◌, ◌≡◌, ◌↔◌, Contains, IfOk, IsTrue, None, OnErr, OnOk, length, take, if◌then◌else◌};
ghost use Rattle.lists.specs.Distinct.{AreDistinct};
ghost use Rattle.schema_tree.specs.declared.schema.Pair.{Pair as Held};
ghost use Rattle.schema_tree.specs.Entries.{same_pair};
ghost use Rattle.typing_session.specs.Kept.{Begins, Gains, fresh_of, kept_on, pairs_of};

use indexmap::IndexMap;
use schema_tree::schema::Pair;
use schema_tree::sure::View;
use schema_tree::verdicts::Verdict;
use std::alloc::{AllocError, Global};
use std::marker::Model;

/// Verdicts on distinct pairs, seen as the list of the pairs with their verdicts.
#[derive(Drop)]
pub struct Kept {
    verdicts: IndexMap<Pair, Verdict>,
}

impl Model for Kept {
    ghost use Rattle.std.specs.Prelude.{List};
    ghost use Rattle.schema_tree.specs.declared.schema.Pair.{Pair};
    ghost use Rattle.schema_tree.specs.declared.verdicts.Verdict.{Verdict};

    ghost Value = { List (Pair × Verdict) };

    ghost view = { λ k. k.verdicts.entries };
}

impl Kept {
    /// No verdicts.
    pub fn new(alloc: Global) -> Kept
        ensures { result ≡ [] }
    {
        Kept {
            verdicts: IndexMap::new(alloc),
        }
    }

    /// On how many pairs there is a verdict.
    pub fn len(&self) -> usize
        ensures count { result ≡ length self.now }
        ensures distinct { AreDistinct (pairs_of self.now) }
    {
        self.verdicts.len()
    }

    /// Whether there is no verdict.
    pub fn is_empty(&self) -> bool
        ensures { IsTrue result ↔ (self.now ≡ []) }
    {
        self.verdicts.is_empty()
    }

    /// The verdict on a pair, and `None` exactly where there is none.
    pub fn get(&self, pair: Pair) -> Option<Verdict>
        ensures { result ≡ kept_on self.now pair }
    {
        self.verdicts.get(&pair).copied()
    }

    /// Those of the pairs on which there is no verdict, in their order.
    pub fn missing(&self, alloc: Global, pairs: &[Pair]) -> Result<Vec<Pair>, AllocError>
        ensures { IfOk result (λ v. v.items ≡ fresh_of self.now pairs.now) }
    {
        let mut found = Vec::new(alloc);
        for pair in pairs {
            if self.get(*pair).is_none() {
                found.push(*pair)?;
            }
        }
        Ok(found)
    }

    /// Keeps a verdict on a pair on which there is none; it goes last. A refusal changes nothing.
    fn keep(&mut self, pair: Pair, verdict: Verdict) -> Result<(), AllocError>
        requires { kept_on self.old pair ≡ None }
        ensures kept { OnOk result (self.new ≡ self.old ++ (pair, verdict) ∷ []) }
        ensures err { OnErr result (self.new ≡ self.old) }
    {
        self.verdicts.insert(pair, verdict)?;
        Ok(())
    }

    /// Keeps the verdicts of a view on pairs on which there is none, one after the other, as far as memory goes.
    fn keep_each<K: View>(&mut self, pairs: &[Pair], found: &K) -> Result<(), AllocError>
        requires distinct { AreDistinct pairs.now }
        requires new { (q : Held) → Contains pairs.now q → kept_on self.old q ≡ None }
        ensures kept { OnOk result (Gains (K.known found.now) pairs.now self.old self.new) }
        ensures begun { Begins self.old self.new }
    {
        for pair in pairs {
            self.keep(*pair, found.pair(*pair))?;
        }
        Ok(())
    }

    /// Keeps the verdicts of a view on pairs on which there is none; they go last. A refusal changes nothing.
    pub fn keep_all<K: View>(&mut self, pairs: &[Pair], found: &K) -> Result<(), AllocError>
        requires distinct { AreDistinct pairs.now }
        requires new { (q : Held) → Contains pairs.now q → kept_on self.old q ≡ None }
        ensures kept { OnOk result (Gains (K.known found.now) pairs.now self.old self.new) }
        ensures err { OnErr result (self.new ≡ self.old) }
    {
        let before = self.len();
        match self.keep_each(pairs, found) {
            Ok(()) => Ok(()),
            Err(error) => {
                self.truncate(before);
                Err(error)
            }
        }
    }

    /// Keeps the first verdicts alone, as many as this.
    pub fn truncate(&mut self, len: usize)
        ensures { self.new ≡ take len self.old }
    {
        self.verdicts.truncate(len);
    }

    /// Forgets the verdict on a pair, if there is one.
    fn forget(&mut self, pair: Pair)
        ensures { (q : Held) → kept_on self.new q ≡ (if same_pair pair q then None else kept_on self.old q) }
    {
        self.verdicts.swap_remove(&pair);
    }

    /// Forgets the verdicts on pairs.
    pub fn forget_all(&mut self, pairs: &[Pair])
        ensures gone { (q : Held) → Contains pairs.now q → kept_on self.new q ≡ None }
        ensures others { (q : Held) → (¬ Contains pairs.now q) → kept_on self.new q ≡ kept_on self.old q }
        ensures distinct { AreDistinct (pairs_of self.new) }
    {
        for pair in pairs {
            self.forget(*pair);
        }
        let _count = self.len();
    }
}

impl View for Kept {
    ghost use Rattle.typing_session.specs.Kept.{known_by_kept};

    ghost known = { λ k. known_by_kept k };

    fn pair(&self, pair: Pair) -> Verdict {
        match self.get(pair) {
            Some(verdict) => verdict,
            None => Verdict::Unknown,
        }
    }
}
