//! The table that numbers pairs.
ghost use Rattle.std.specs.Prelude.{List, ◌≡◌, ◌≤◌, ◌↔◌, [], length, slice_get, Some, IfOk, IfSome, IsNone, IsTrue, OnErr, OnOk, Contains};
ghost use Rattle.lists.specs.Additions.{Adds};
ghost use Rattle.lists.specs.Distinct.{AreDistinct};
ghost use Rattle.demand.specs.Orders.{max_pairs};

use indexmap::IndexSet;
use schema_tree::schema::Pair;
use std::alloc::{AllocError, Global};
use std::marker::Model;

/// The number of pairs that a table holds at most.
pub const MAX_PAIRS: usize = 4_194_304;

/// Why a pair was not put into a table.
#[derive(Debug, Drop)]
pub enum PairError {
    /// The pair is new, and the table holds 4,194,304 pairs.
    Full,
    /// Memory ran out.
    Memory,
}

/// A list of distinct pairs, at most 4,194,304 of them. A pair's number is its place in the list.
#[derive(Drop)]
pub struct PairTable {
    pairs: IndexSet<Pair>,
}

impl Model for PairTable {
    ghost use Rattle.std.specs.Prelude.{List, length, ◌≤◌};
    ghost use Rattle.schema_tree.specs.declared.schema.Pair.{Pair};
    ghost use Rattle.demand.specs.Orders.{max_pairs};

    ghost Value = { List Pair };

    ghost view = { λ t. t.pairs.keys };

    ghost invariant = { λ t. length t.pairs.keys ≤ max_pairs };
}

impl PairTable {
    /// The empty table.
    pub fn new(alloc: Global) -> PairTable
        ensures { result ≡ [] }
    {
        PairTable {
            pairs: IndexSet::new(alloc),
        }
    }

    /// The empty table, with room for so many pairs.
    pub fn with_room(alloc: Global, pairs: usize) -> Result<PairTable, AllocError>
        ensures { IfOk result (λ t. t ≡ []) }
    {
        let pairs = IndexSet::with_capacity(alloc, pairs)?;
        Ok(PairTable { pairs })
    }

    /// How many pairs the table holds.
    pub fn len(&self) -> usize
        ensures count { result ≡ length self.now }
        ensures few { result ≤ max_pairs }
        ensures distinct { AreDistinct self.now }
    {
        self.pairs.len()
    }

    /// The pairs.
    pub fn as_slice(&self) -> &[Pair]
        ensures { result.now ≡ self.now }
    {
        self.pairs.as_slice()
    }

    /// Puts a pair, which goes last where it is new. It fails as `Full` where the pair is new and the table holds
    /// 4,194,304 pairs; a refusal changes nothing.
    pub fn put(&mut self, pair: Pair) -> Result<(), PairError>
        ensures added { OnOk result (Adds self.old pair self.new) }
        ensures full { (result ≡ Err PairError.Full) ↔ ((¬ Contains self.old pair) × (length self.old ≡ max_pairs)) }
        ensures err { OnErr result (self.new ≡ self.old) }
        ensures distinct { AreDistinct self.new }
    {
        if self.lacks_room(pair) {
            return Err(PairError::Full);
        }
        match self.pairs.insert(pair) {
            Ok(_) => Ok(()),
            Err(_) => Err(PairError::Memory),
        }
    }

    /// Whether the pair is new and the table holds 4,194,304 pairs. A pair is looked up only where so many are held.
    fn lacks_room(&self, pair: Pair) -> bool
        ensures lacks { IsTrue result ↔ ((¬ Contains self.now pair) × (length self.now ≡ max_pairs)) }
        ensures distinct { AreDistinct self.now }
    {
        self.len() >= MAX_PAIRS && self.find(pair).is_none()
    }

    /// The number of the pair, and `None` exactly where the table does not hold it.
    pub fn find(&self, pair: Pair) -> Option<u32>
        ensures found { IfSome result (λ i. slice_get self.now i ≡ Some pair) }
        ensures absent { IsNone result ↔ (¬ Contains self.now pair) }
    {
        match self.pairs.get_index_of(&pair) {
            Some(place) => Some(place as u32),
            None => None,
        }
    }
}
