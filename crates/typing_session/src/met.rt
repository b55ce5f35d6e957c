//! Pairs that a walk has met.

ghost use Rattle.std.specs.Prelude.{[], ◌≡◌, OnOk, length};
ghost use Rattle.demand.specs.Closing.{Grows};
ghost use Rattle.lists.specs.Additions.{Adds};
ghost use Rattle.lists.specs.Distinct.{AreDistinct};

use indexmap::IndexSet;
use schema_tree::schema::Pair;
use std::alloc::{AllocError, Global};
use std::marker::Model;

/// Distinct pairs, in the order in which they were met.
#[derive(Drop)]
pub(crate) struct Met {
    pairs: IndexSet<Pair>,
}

impl Model for Met {
    ghost use Rattle.std.specs.Prelude.{List};
    ghost use Rattle.schema_tree.specs.declared.schema.Pair.{Pair};

    ghost Value = { List Pair };

    ghost view = { λ m. m.pairs.keys };
}

impl Met {
    /// No pairs.
    pub(crate) fn new(alloc: Global) -> Met
        ensures { result ≡ [] }
    {
        Met {
            pairs: IndexSet::new(alloc),
        }
    }

    /// How many pairs there are.
    pub(crate) fn len(&self) -> usize
        ensures count { result ≡ length self.now }
        ensures distinct { AreDistinct self.now }
    {
        self.pairs.len()
    }

    /// The pairs.
    pub(crate) fn as_slice(&self) -> &[Pair]
        ensures { result.now ≡ self.now }
    {
        self.pairs.as_slice()
    }

    /// Adds a pair, which goes last where it is new.
    fn put(&mut self, pair: Pair) -> Result<(), AllocError>
        ensures { OnOk result (Adds self.old pair self.new) }
    {
        self.pairs.insert(pair)?;
        Ok(())
    }

    /// Adds pairs, each of which goes last where it is new.
    pub(crate) fn put_all(&mut self, pairs: &[Pair]) -> Result<(), AllocError>
        ensures { OnOk result (Grows self.old pairs.now self.new) }
    {
        for pair in pairs {
            self.put(*pair)?;
        }
        Ok(())
    }
}
