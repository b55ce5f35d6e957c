//! Value sets.

ghost use Rattle.std.specs.Prelude.{◌≡◌, ◌↔◌, IfOk, IsTrue};

use crate::index::ValueIndex;
use crate::value::Value;
use rdf_terms::terms::Term;
use std::alloc::{AllocError, Global};
use std::marker::Model;

/// A set of values, which contracts see as their list (ShEx 2.1, section 5.4, Values Constraint).
#[derive(Debug, Drop)]
pub struct ValueSet {
    values: Vec<Value>,
    index: ValueIndex,
}

impl Model for ValueSet {
    ghost use Rattle.value_sets.specs.Indexed.{IsIndexOf};
    ghost use Rattle.value_sets.specs.Values.{ValueList};

    ghost Value = { ValueList };

    ghost view = { λ s. s.values.items };

    ghost invariant = { λ s. IsIndexOf s.values.items s.index };
}

impl ValueSet {
    ghost use Rattle.value_sets.specs.Values.{HasValue};

    /// The set of these values, with a copy of each term and each stem among them, by which it is found.
    pub fn of(alloc: Global, values: Vec<Value>) -> Result<ValueSet, AllocError>
        ensures { IfOk result (λ s. s ≡ values.items) }
    {
        let index = ValueIndex::of(alloc, values.as_slice())?;
        Ok(ValueSet { values, index })
    }

    /// The values, as they were given.
    pub fn values(&self) -> &[Value]
        ensures { result.now ≡ self.now }
    {
        self.values.as_slice()
    }

    /// Whether some value of the set holds for the term. It takes no memory.
    pub fn has(&self, term: &Term) -> bool
        ensures { IsTrue result ↔ HasValue self.now term.now }
    {
        self.index.has(self.values.as_slice(), term)
    }
}
