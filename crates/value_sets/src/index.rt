//! What is kept beside the values of a set, so that a term is found without a look at each value.

ghost use Rattle.std.specs.Prelude.{◌↔◌, Any, IfOk, IsTrue, OnOk};
ghost use Rattle.value_sets.specs.Indexed.{AreStemsFor, HoldsAt, IsByKind, IsIndexOf, TakesUp};
ghost use Rattle.value_sets.specs.Values.{HasValue};

use crate::stem_index::StemIndex;
use crate::value::Value;
use indexmap::IndexSet;
use rdf_terms::terms::Term;
use rdf_terms::text::Text;
use std::alloc::{AllocError, Global};

/// The values of a list that are terms, its stems of IRIs and of lexical forms, and the places of the others.
#[derive(Debug, Drop)]
pub(crate) struct ValueIndex {
    terms: IndexSet<Term>,
    iri_stems: StemIndex,
    lit_stems: StemIndex,
    others: Vec<usize>,
}

impl ValueIndex {
    /// The index of these values, with copies of the terms and of the stems among them.
    pub(crate) fn of(alloc: Global, values: &[Value]) -> Result<ValueIndex, AllocError>
        ensures { IfOk result (IsIndexOf values.now) }
    {
        let kinds = ValuesByKind::of(alloc, values)?;
        let iri_stems = StemIndex::of(alloc, kinds.iri_stems)?;
        let lit_stems = StemIndex::of(alloc, kinds.lit_stems)?;
        Ok(ValueIndex {
            terms: kinds.terms,
            iri_stems,
            lit_stems,
            others: kinds.others,
        })
    }

    /// Whether some of the values holds for the term. It takes no memory.
    pub(crate) fn has(&self, values: &[Value], term: &Term) -> bool
        requires { IsIndexOf values.now self.now }
        ensures { IsTrue result ↔ HasValue values.now term.now }
    {
        self.terms.contains(term)
            || self.has_stem(term)
            || some_holds(values, self.others.as_slice(), term)
    }

    /// Whether the IRI or the lexical form of the term begins with a stem that is for such.
    fn has_stem(&self, term: &Term) -> bool
        ensures { IsTrue result ↔ AreStemsFor self.now term.now }
    {
        match term {
            Term::Iri(iri) => self.iri_stems.has(iri),
            Term::Lit(literal) => self.lit_stems.has(literal.lex()),
            Term::Blank(_) => false,
        }
    }
}

/// Copies of the values of a list that are terms, of its stems of IRIs and of lexical forms, and the places of the others.
#[derive(Drop)]
struct ValuesByKind {
    terms: IndexSet<Term>,
    iri_stems: Vec<Text>,
    lit_stems: Vec<Text>,
    others: Vec<usize>,
}

impl ValuesByKind {
    /// These values by their kinds.
    fn of(alloc: Global, values: &[Value]) -> Result<ValuesByKind, AllocError>
        ensures { IfOk result (IsByKind values.now) }
    {
        let mut kinds = ValuesByKind {
            terms: IndexSet::new(alloc),
            iri_stems: Vec::new(alloc),
            lit_stems: Vec::new(alloc),
            others: Vec::new(alloc),
        };
        for (place, value) in values.iter().enumerate() {
            kinds.add(alloc, place, value)?;
        }
        Ok(kinds)
    }

    /// Takes up the value at a place, when all before it are there.
    fn add(&mut self, alloc: Global, place: usize, value: &Value) -> Result<(), AllocError>
        ensures { OnOk result (TakesUp self.old place value.now self.new) }
    {
        match value {
            Value::Term(term) => {
                self.terms.insert(term.try_clone(alloc)?)?;
                Ok(())
            }
            Value::IriStem(stem) => Ok(self.iri_stems.push(stem.try_clone(alloc)?)?),
            Value::LitStem(stem) => Ok(self.lit_stems.push(stem.try_clone(alloc)?)?),
            _ => Ok(self.others.push(place)?),
        }
    }
}

/// Whether the value at some of the places holds for the term.
fn some_holds(values: &[Value], places: &[usize], term: &Term) -> bool
    ensures { IsTrue result ↔ Any (HoldsAt values.now term.now) places.now }
{
    places.iter().any(|place| holds_at(values, term, *place))
}

/// Whether there is a value at the place, and it holds for the term.
fn holds_at(values: &[Value], term: &Term, place: usize) -> bool
    ensures { IsTrue result ↔ HoldsAt values.now term.now place }
{
    match values.get(place) {
        Some(value) => value.takes(term),
        None => false,
    }
}
