//! Graphs of triples.

ghost use Rattle.std.specs.Prelude.{List, ◌≡◌, ◌++◌, ◌≤◌, ◌<◌, ◌↔◌, [], ◌∷◌, length, take, IsTrue, IfOk, OnOk, OnErr, None, Some, Contains};
ghost use Rattle.std.specs.Bool.{OnTrue, OnFalse};
ghost use Rattle.std.specs.List.Sorted.{IsPermutation};
ghost use Rattle.rdf_terms.specs.declared.terms.Term.{Term};
ghost use Rattle.rdf_terms.specs.Graphs.{outs, ins};
ghost use Rattle.lists.specs.Distinct.{AreDistinct};
ghost use Rattle.lists.specs.Additions.{Adds};
ghost use Rattle.rdf_terms.specs.Order.{by_object, by_subject, neighbourhood};
ghost use Rattle.lists.specs.Sorting.{sorted_by};
ghost use Rattle.graph_index.specs.Contents.{max_triples, outs_by, ins_by, IsSealed, IsSealedWith};

use crate::neighbours::Neigh;
use crate::rows::{Rows, insert_row, remove_row};
use indexmap::IndexSet;
use rdf_terms::table::TermTable;
use rdf_terms::terms::{TermId, Triple};
use std::alloc::{AllocError, Global};
use std::marker::Model;
use thiserror::Error;

/// Why a triple was not added to a graph.
#[derive(Debug, Drop, Error)]
pub enum AddError {
    /// The triple is new, and the graph holds 4,000,000 triples.
    #[error("Full")]
    Full,
    /// Memory ran out.
    #[error("Memory")]
    Memory,
}

/// The number of triples that a graph holds at most.
pub const MAX_TRIPLES: usize = 4_000_000;

/// A set of triples, at most 4,000,000 of them (RDF 1.1 Concepts, section 3). Once it is sealed with a table of terms, it
/// lends the triples of a node in the order of the texts of that table, until a triple is added or removed; edits that
/// keep it sealed are `insert_sealed` and `remove_sealed`.
#[derive(Drop)]
pub struct Graph {
    alloc: Global,
    held: IndexSet<Triple>,
    rows: Option<Rows>,
}

impl Model for Graph {
    ghost use Rattle.std.specs.Prelude.{length, ◌≤◌};
    ghost use Rattle.graph_index.specs.Contents.{Contents, max_triples};

    ghost Value = { Contents };

    ghost view = { λ g. record { triples = g.held.keys; lent = g.rows } };

    ghost invariant = { λ g. length g.held.keys ≤ max_triples };
}

impl Graph {
    /// The empty graph, which is not sealed.
    pub fn new(alloc: Global) -> Graph
        ensures { result ≡ record { triples = []; lent = None } }
    {
        Graph {
            alloc,
            held: IndexSet::new(alloc),
            rows: None,
        }
    }

    /// How many triples the graph holds.
    pub fn len(&self) -> u64
        ensures count { result ≡ length self.now.triples }
        ensures few { result ≤ max_triples }
        ensures distinct { AreDistinct self.now.triples }
    {
        self.held.len() as u64
    }

    /// Whether the graph holds no triple.
    pub fn is_empty(&self) -> bool
        ensures { IsTrue result ↔ (self.now.triples ≡ []) }
    {
        self.held.is_empty()
    }

    /// Whether the graph holds the triple.
    pub fn holds(&self, t: Triple) -> bool
        ensures { IsTrue result ↔ Contains self.now.triples t }
    {
        self.held.contains(&t)
    }

    /// Adds a triple, and answers whether it is new; then the graph is no longer sealed. It fails as `Full` where the
    /// triple is new and the graph holds 4,000,000; a refusal changes nothing.
    pub fn add(&mut self, t: Triple) -> Result<bool, AddError>
        ensures new { IfOk result (λ new. IsTrue new ↔ (¬ Contains self.old.triples t)) }
        ensures added { OnOk result (Adds self.old.triples t self.new.triples) }
        ensures unsealed { IfOk result (λ new. OnTrue new (¬ IsSealed self.new)) }
        ensures kept { IfOk result (λ new. OnFalse new (self.new ≡ self.old)) }
        ensures full { (result ≡ Err AddError.Full) ↔ ((¬ Contains self.old.triples t) × (length self.old.triples ≡ max_triples)) }
        ensures err { OnErr result (self.new ≡ self.old) }
        ensures distinct { AreDistinct self.new.triples }
    {
        if self.lacks_room(t) {
            return Err(AddError::Full);
        }
        match self.held.insert(t) {
            Ok(true) => {
                self.rows = None;
                Ok(true)
            }
            Ok(false) => Ok(false),
            Err(_) => Err(AddError::Memory),
        }
    }

    /// Whether the triple is new and the graph holds 4,000,000. A triple is looked up only where so many are held.
    fn lacks_room(&self, t: Triple) -> bool
        ensures lacks { IsTrue result ↔ ((¬ Contains self.now.triples t) × (length self.now.triples ≡ max_triples)) }
        ensures distinct { AreDistinct self.now.triples }
    {
        self.len() >= MAX_TRIPLES as u64 && !self.holds(t)
    }

    /// Removes a triple, and answers whether it was held; then the graph is no longer sealed.
    pub fn remove(&mut self, t: Triple) -> bool
        ensures held { IsTrue result ↔ Contains self.old.triples t }
        ensures removed { OnTrue result (IsPermutation self.old.triples (t ∷ self.new.triples)) }
        ensures unsealed { OnTrue result (¬ IsSealed self.new) }
        ensures kept { OnFalse result (self.new ≡ self.old) }
        ensures distinct { AreDistinct self.new.triples }
    {
        let held = self.held.swap_remove(&t);
        if held {
            self.rows = None;
        }
        held
    }

    /// Keeps the first `len` triples, in the order of `triples`, and removes those behind them; where there are such, the
    /// graph is no longer sealed. Triples that were added last are so taken back.
    pub fn truncate(&mut self, len: u64)
        ensures triples { self.new.triples ≡ take len self.old.triples }
        ensures unsealed { len < length self.old.triples → ¬ IsSealed self.new }
        ensures kept { length self.old.triples ≤ len → self.new ≡ self.old }
    {
        if len < self.len() {
            self.held.truncate(len as usize);
            self.rows = None;
        }
    }

    /// Whether the graph is sealed.
    pub fn is_sealed(&self) -> bool
        ensures { IsTrue result ↔ IsSealed self.now }
    {
        self.rows.is_some()
    }

    /// The triples, each once.
    pub fn triples(&self) -> &[Triple]
        ensures { result.now ≡ self.now.triples }
    {
        self.held.as_slice()
    }

    /// Seals the graph with a table, by whose texts it lends its triples; their numbers are to be of the table. A refusal
    /// changes nothing.
    pub fn seal(&mut self, terms: &TermTable) -> Result<(), AllocError>
        ensures same { self.new.triples ≡ self.old.triples }
        ensures sealed { OnOk result (IsSealedWith terms.now self.new) }
        ensures err { OnErr result (self.new ≡ self.old) }
    {
        let rows = Rows::arranged(self.alloc, self.held.as_slice(), terms)?;
        self.rows = Some(rows);
        Ok(())
    }

    /// Adds a triple to a graph that is sealed with the table, answers whether it is new, and keeps the graph sealed; the
    /// triple's numbers are to be of the table. The triples of the subject and those of the object are moved in place (and
    /// copied at the first edit of each), however many the graph has. It fails as `Full` where the triple is new and the
    /// graph holds 4,000,000; a refusal changes nothing.
    pub fn insert_sealed(&mut self, t: Triple, terms: &TermTable) -> Result<bool, AddError>
        requires { IsSealedWith terms.now self.old }
        ensures new { IfOk result (λ new. IsTrue new ↔ (¬ Contains self.old.triples t)) }
        ensures added { OnOk result (Adds self.old.triples t self.new.triples) }
        ensures sealed { IsSealedWith terms.now self.new }
        ensures kept { IfOk result (λ new. OnFalse new (self.new ≡ self.old)) }
        ensures full { (result ≡ Err AddError.Full) ↔ ((¬ Contains self.old.triples t) × (length self.old.triples ≡ max_triples)) }
        ensures err { OnErr result (self.new ≡ self.old) }
        ensures distinct { AreDistinct self.new.triples }
    {
        let count = self.len();
        if self.holds(t) {
            return Ok(false);
        }
        if count >= MAX_TRIPLES as u64 {
            return Err(AddError::Full);
        }
        match self.take_up(t, terms) {
            Ok(()) => Ok(true),
            Err(_) => Err(AddError::Memory),
        }
    }

    /// Removes a triple from a graph that is sealed with the table, answers whether it was held, and keeps the graph
    /// sealed. The triples of the subject and those of the object are moved in place (and copied at the first edit of each),
    /// however many the graph has. A refusal changes nothing.
    pub fn remove_sealed(&mut self, t: Triple, terms: &TermTable) -> Result<bool, AllocError>
        requires { IsSealedWith terms.now self.old }
        ensures held { IfOk result (λ held. IsTrue held ↔ Contains self.old.triples t) }
        ensures removed { IfOk result (λ held. OnTrue held (IsPermutation self.old.triples (t ∷ self.new.triples))) }
        ensures sealed { IsSealedWith terms.now self.new }
        ensures kept { IfOk result (λ held. OnFalse held (self.new ≡ self.old)) }
        ensures err { OnErr result (self.new ≡ self.old) }
        ensures distinct { AreDistinct self.new.triples }
    {
        let _count = self.len();
        if !self.holds(t) {
            return Ok(false);
        }
        self.take_out(t, terms)?;
        Ok(true)
    }

    /// Puts a triple behind those of a sealed graph, and takes it up into its rows.
    fn take_up(&mut self, t: Triple, terms: &TermTable) -> Result<(), AllocError>
        requires sealed { IsSealedWith terms.now self.old }
        requires new { ¬ Contains self.old.triples t }
        requires few { length self.old.triples < max_triples }
        ensures added { OnOk result (self.new.triples ≡ self.old.triples ++ t ∷ []) }
        ensures sealed { OnOk result (IsSealedWith terms.now self.new) }
        ensures err { OnErr result (self.new ≡ self.old) }
    {
        self.held.reserve(1)?;
        insert_row(&mut self.rows, self.alloc, t, terms)?;
        match self.held.insert(t) {
            Ok(_) => Ok(()),
            Err(_) => unreachable!(),
        }
    }

    /// Takes a triple that a sealed graph holds out of it and out of its rows.
    fn take_out(&mut self, t: Triple, terms: &TermTable) -> Result<(), AllocError>
        requires sealed { IsSealedWith terms.now self.old }
        requires held { Contains self.old.triples t }
        ensures removed { OnOk result (IsPermutation self.old.triples (t ∷ self.new.triples)) }
        ensures sealed { OnOk result (IsSealedWith terms.now self.new) }
        ensures err { OnErr result (self.new ≡ self.old) }
        ensures distinct { OnOk result (AreDistinct self.new.triples) }
    {
        remove_row(&mut self.rows, self.alloc, t, terms)?;
        self.held.swap_remove(&t);
        Ok(())
    }

    /// The triples of a subject, by the texts of their predicates and then of their objects.
    pub fn outs(&self, n: TermId) -> &[Triple]
        requires { IsSealed self.now }
        ensures { (terms : List Term) → IsSealedWith terms self.now → result.now ≡ sorted_by (by_object terms) (outs self.now.triples n) }
    {
        self.lent_rows().outs(n)
    }

    /// The triples of an object, by the texts of their predicates and then of their subjects.
    pub fn ins(&self, n: TermId) -> &[Triple]
        requires { IsSealed self.now }
        ensures { (terms : List Term) → IsSealedWith terms self.now → result.now ≡ sorted_by (by_subject terms) (ins self.now.triples n) }
    {
        self.lent_rows().ins(n)
    }

    /// The triples of a subject and a predicate, by the texts of their objects.
    pub fn outs_by(&self, n: TermId, p: TermId) -> &[Triple]
        requires { IsSealed self.now }
        ensures { (terms : List Term) → IsSealedWith terms self.now → result.now ≡ sorted_by (by_object terms) (outs_by self.now.triples n p) }
    {
        self.lent_rows().outs_by(n, p)
    }

    /// The triples of an object and a predicate, by the texts of their subjects.
    pub fn ins_by(&self, n: TermId, p: TermId) -> &[Triple]
        requires { IsSealed self.now }
        ensures { (terms : List Term) → IsSealedWith terms self.now → result.now ≡ sorted_by (by_subject terms) (ins_by self.now.triples n p) }
    {
        self.lent_rows().ins_by(n, p)
    }

    /// The neighbourhood of a node in its order: the triples of the subject, and then those of the object that are no
    /// self-loops (ShEx 2.1, section 5.5.2).
    pub fn neigh(&self, n: TermId) -> Neigh<'_>
        requires { IsSealed self.now }
        ensures { (terms : List Term) → IsSealedWith terms self.now → result ≡ neighbourhood terms self.now.triples n }
    {
        self.lent_rows().neigh(n)
    }

    /// The rows of the sealed graph.
    fn lent_rows(&self) -> &Rows
        requires { IsSealed self.now }
        ensures { self.now.lent ≡ Some result.now }
    {
        match &self.rows {
            Some(rows) => rows,
            None => unreachable!(),
        }
    }
}
