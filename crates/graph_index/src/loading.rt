//! Triples of terms that are put into a table and a graph (RDF 1.1 Concepts, section 3).

ghost use Rattle.std.specs.Prelude.{◌≡◌, List, [], ◌∷◌, ◌++◌, ◌≤◌, length, slice_get, Some, IfOk, OnOk, OnErr, Contains};
ghost use Rattle.lists.specs.Additions.{Adds, AddsAll};
ghost use Rattle.lists.specs.Distinct.{AreDistinct};
ghost use Rattle.rdf_terms.specs.Tables.{max_terms};
ghost use Rattle.rdf_terms.specs.declared.terms.Term.{Term};
ghost use Rattle.graph_index.specs.Loading.{IsNumbered, Loads, FindsNoRoom, terms_of};

use crate::graph::{AddError, Graph};
use rdf_terms::table::{PutError, TermTable};
use rdf_terms::terms::{Term, TermId, Triple};
use thiserror::Error;

/// A triple of terms (RDF 1.1 Concepts, section 3.1).
#[derive(Debug, Drop)]
pub struct TermTriple {
    /// The subject.
    pub subject: Term,
    /// The predicate.
    pub predicate: Term,
    /// The object.
    pub object: Term,
}

/// Why a triple was not put into a table and a graph.
#[derive(Debug, Drop, Error)]
pub enum LoadError {
    /// The table or the graph would pass its limit.
    #[error("Full")]
    Full,
    /// Memory ran out.
    #[error("Memory")]
    Memory,
}

/// The number of a term, which goes last where it is new.
fn number(terms: &mut TermTable, term: Term) -> Result<TermId, LoadError>
    ensures number { IfOk result (λ id. slice_get terms.new id.0 ≡ Some term) }
    ensures added { OnOk result (Adds terms.old term terms.new) }
    ensures full { result ≡ Err LoadError.Full → (¬ Contains terms.old term) × (length terms.old ≡ max_terms) }
    ensures err { OnErr result (terms.new ≡ terms.old) }
    ensures distinct { AreDistinct terms.new }
{
    match terms.put(term) {
        Ok(id) => Ok(id),
        Err(PutError::Full) => Err(LoadError::Full),
        Err(PutError::Memory) => Err(LoadError::Memory),
    }
}

/// The numbers of the terms of a triple, which go last where they are new.
fn number_all(terms: &mut TermTable, triple: TermTriple) -> Result<Triple, LoadError>
    ensures added { OnOk result (AddsAll terms.old (terms_of triple) terms.new) }
    ensures numbered { IfOk result (λ n. IsNumbered terms.new triple n) }
    ensures full { result ≡ Err LoadError.Full → (new : List Term) → AddsAll terms.old (terms_of triple) new → ¬ (length new ≤ max_terms) }
    ensures grown { (more : List Term) × (terms.new ≡ terms.old ++ more) }
    ensures distinct { OnOk result (AreDistinct terms.new) }
{
    let TermTriple {
        subject,
        predicate,
        object,
    } = triple;
    let s = number(terms, subject)?;
    let p = number(terms, predicate)?;
    let o = number(terms, object)?;
    Ok(Triple { s, p, o })
}

/// Puts the terms of a triple into a table and their numbers into a graph, each where it is new. It fails as `Full` only
/// where the triple finds no room. After a failure the graph is as it was, and the table may hold more terms.
pub fn load(terms: &mut TermTable, graph: &mut Graph, triple: TermTriple) -> Result<(), LoadError>
    ensures loaded { OnOk result (Loads terms.old graph.old.triples (triple ∷ []) terms.new graph.new.triples) }
    ensures full { result ≡ Err LoadError.Full → FindsNoRoom terms.old graph.old.triples triple }
    ensures kept { OnErr result (graph.new ≡ graph.old) }
    ensures grown { (more : List Term) × (terms.new ≡ terms.old ++ more) }
    ensures distinct { OnOk result (AreDistinct terms.new) }
{
    let numbers = number_all(terms, triple)?;
    match graph.add(numbers) {
        Ok(_) => Ok(()),
        Err(AddError::Full) => Err(LoadError::Full),
        Err(AddError::Memory) => Err(LoadError::Memory),
    }
}
