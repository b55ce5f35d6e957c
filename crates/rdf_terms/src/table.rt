//! The table that numbers terms.

ghost use Rattle.std.specs.Prelude.{List, ◌≡◌, ◌≤◌, ◌<◌, ◌↔◌, [], ◌==◌, length, slice_get, Some, IfOk, IfSome, IsNone, OnOk, OnErr, Contains};
ghost use Rattle.lists.specs.Distinct.{AreDistinct};
ghost use Rattle.lists.specs.Additions.{Adds};
ghost use Rattle.rdf_terms.specs.Tables.{max_terms};

use crate::terms::{Term, TermId};
use indexmap::IndexSet;
use std::alloc::Global;
use std::marker::Model;
use thiserror::Error;

/// Why a term was not put into a table.
#[derive(Debug, Drop, Error)]
pub enum PutError {
    /// The term is new, and the table holds 4,294,967,295 terms.
    #[error("Full")]
    Full,
    /// Memory ran out.
    #[error("Memory")]
    Memory,
}

/// The number of terms that a table holds at most.
pub const MAX_TERMS: usize = 4_294_967_295;

/// A list of distinct terms, at most 4,294,967,295 of them. A term's number is its place in the list.
#[derive(Drop)]
pub struct TermTable {
    terms: IndexSet<Term>,
}

impl Model for TermTable {
    ghost use Rattle.std.specs.Prelude.{List, length, ◌≤◌};
    ghost use Rattle.rdf_terms.specs.declared.terms.Term.{Term};
    ghost use Rattle.rdf_terms.specs.Tables.{max_terms};

    ghost Value = { List Term };

    ghost view = { λ t. t.terms.keys };

    ghost invariant = { λ t. length t.terms.keys ≤ max_terms };
}

impl TermTable {
    /// The empty table.
    pub fn new(alloc: Global) -> TermTable
        ensures { result ≡ [] }
    {
        TermTable {
            terms: IndexSet::new(alloc),
        }
    }

    /// How many terms the table holds.
    pub fn len(&self) -> usize
        ensures count { result ≡ length self.now }
        ensures few { result ≤ max_terms }
        ensures distinct { AreDistinct self.now }
    {
        self.terms.len()
    }

    /// Whether the table holds no term.
    pub fn is_empty(&self) -> bool
        ensures { result ≡ (length self.now == 0) }
    {
        self.terms.is_empty()
    }

    /// The number of the term, which goes last where it is new. It fails as `Full` where the term is new and the table
    /// holds 4,294,967,295 terms; a refusal changes nothing.
    pub fn put(&mut self, term: Term) -> Result<TermId, PutError>
        ensures number { IfOk result (λ id. slice_get self.new id.0 ≡ Some term) }
        ensures added { OnOk result (Adds self.old term self.new) }
        ensures full { (result ≡ Err PutError.Full) ↔ ((¬ Contains self.old term) × (length self.old ≡ max_terms)) }
        ensures err { OnErr result (self.new ≡ self.old) }
        ensures distinct { AreDistinct self.new }
    {
        if self.terms.len() < MAX_TERMS {
            match self.terms.insert_full(term) {
                Ok((place, _)) => Ok(TermId(place as u32)),
                Err(_) => Err(PutError::Memory),
            }
        } else {
            match self.terms.get_index_of(&term) {
                Some(place) => Ok(TermId(place as u32)),
                None => Err(PutError::Full),
            }
        }
    }

    /// The term of a number of this table.
    pub fn get(&self, id: TermId) -> &Term
        requires { id.0 < length self.now }
        ensures { slice_get self.now id.0 ≡ Some result.now }
    {
        self.terms.get_index(id.0 as usize).unwrap()
    }

    /// The number of the term, and `None` exactly where the table does not hold it.
    pub fn find(&self, term: &Term) -> Option<TermId>
        ensures found { IfSome result (λ id. slice_get self.now id.0 ≡ Some term.now) }
        ensures absent { IsNone result ↔ (¬ Contains self.now term.now) }
    {
        match self.terms.get_index_of(term) {
            Some(place) => Some(TermId(place as u32)),
            None => None,
        }
    }
}
