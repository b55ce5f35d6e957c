//! Triples by their places in a list.

ghost use Rattle.std.specs.Prelude.{◌≡◌, ◌++◌, ◌<◌, ◌∷◌, [], Contains, IfOk, IfSome, IsNone, List, Some, length, slice_get};
ghost use Rattle.std.specs.Bool.{OnTrue};
ghost use Rattle.lists.specs.Distinct.{AreDistinct};

use bag_match::arcs::RelevantTriples;
use indexmap::IndexSet;
use rdf_terms::terms::Triple;
use std::alloc::{AllocError, Global};
use std::marker::Model;

/// Distinct triples, of which each is found by its place.
#[derive(Drop)]
pub struct TripleTable {
    triples: IndexSet<Triple>,
}

impl Model for TripleTable {
    ghost use Rattle.std.specs.Prelude.{List};
    ghost use Rattle.rdf_terms.specs.declared.terms.Triple.{Triple};

    ghost Value = { List Triple };

    ghost view = { λ t. t.triples.keys };
}

impl TripleTable {
    /// No triples.
    pub fn new(alloc: Global) -> TripleTable
        ensures { result ≡ [] }
    {
        TripleTable {
            triples: IndexSet::new(alloc),
        }
    }

    /// How many triples there are.
    pub fn len(&self) -> usize
        ensures { result ≡ length self.now }
    {
        self.triples.len()
    }

    /// Puts a triple behind the others where it is new, and answers whether it is.
    pub fn put(&mut self, triple: Triple) -> Result<bool, AllocError>
        ensures { IfOk result (λ new. OnTrue new (self.new ≡ self.old ++ triple ∷ [])) }
    {
        match self.triples.insert(triple) {
            Ok(new) => Ok(new),
            Err(_) => Err(AllocError),
        }
    }

    /// The triple at a place, if there is one.
    pub fn at(&self, place: usize) -> Option<Triple>
        ensures { IfSome result (λ t. slice_get self.now place ≡ Some t) }
    {
        self.triples.as_slice().get(place).copied()
    }

    /// The place of a triple.
    pub fn find(&self, triple: Triple) -> Option<usize>
        ensures found { IfSome result (λ i. slice_get self.now i ≡ Some triple) }
        ensures absent { IsNone result → ¬ Contains self.now triple }
        ensures distinct { AreDistinct self.now }
    {
        let _count = self.triples.len();
        self.triples.get_index_of(&triple)
    }
}

/// The table of a list of triples, where they are distinct.
pub fn table_of(
    alloc: Global,
    triples: &RelevantTriples<'_>,
) -> Result<Option<TripleTable>, AllocError>
    ensures { IfOk result (λ o. IfSome o (λ t. t ≡ triples.now)) }
{
    let mut table = TripleTable::new(alloc);
    for i in 0..triples.len() {
        if !table.put(triples.at(i))? {
            return Ok(None);
        }
    }
    Ok(Some(table))
}
