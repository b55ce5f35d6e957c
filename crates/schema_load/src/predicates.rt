//! The predicates of documents in the table of terms.

ghost use Rattle.std.specs.Prelude.{List, [], ◌∷◌, ◌++◌, ◌≡◌, IfErr, OnOk, map};
ghost use Rattle.lists.specs.Additions.{AddsAll};
ghost use Rattle.rdf_terms.specs.declared.terms.Term.{Term};
ghost use Rattle.rdf_terms.specs.declared.terms.Term.TheVariants as Terms;
ghost use Rattle.schema_load.specs.Building.{IsPutError};
ghost use Rattle.schema_load.specs.Parts.{predicate_of, predicates_in, predicates_of};

use crate::error::LoadError;
use crate::part::{Part, TripleForm};
use rdf_terms::table::{PutError, TermTable};
use rdf_terms::terms::Term;
use rdf_terms::text::Text;
use std::alloc::Global;

/// Puts an IRI into the table.
fn put_iri(alloc: Global, iri: &Text, terms: &mut TermTable) -> Result<(), LoadError>
    ensures added { OnOk result (AddsAll terms.old (Terms.Iri iri.now ∷ []) terms.new) }
    ensures refused { IfErr result (IsPutError terms.old (Terms.Iri iri.now ∷ [])) }
    ensures kept { (more : List Term) × (terms.new ≡ terms.old ++ more) }
{
    let copy = iri.try_clone(alloc)?;
    match terms.put(Term::Iri(copy)) {
        Ok(_) => Ok(()),
        Err(PutError::Full) => Err(LoadError::Full),
        Err(PutError::Memory) => Err(LoadError::Memory),
    }
}

/// Puts IRIs into the table, one after the other.
fn put_iris(alloc: Global, iris: &[Text], terms: &mut TermTable) -> Result<(), LoadError>
    ensures added { OnOk result (AddsAll terms.old (map Terms.Iri iris.now) terms.new) }
    ensures refused { IfErr result (IsPutError terms.old (map Terms.Iri iris.now)) }
    ensures kept { (more : List Term) × (terms.new ≡ terms.old ++ more) }
{
    for iri in iris {
        put_iri(alloc, iri, terms)?;
    }
    Ok(())
}

/// Puts the predicate of a TripleConstraint into the table.
fn put_predicate(alloc: Global, form: &TripleForm, terms: &mut TermTable) -> Result<(), LoadError>
    ensures added { OnOk result (AddsAll terms.old (predicate_of form.now) terms.new) }
    ensures refused { IfErr result (IsPutError terms.old (predicate_of form.now)) }
    ensures kept { (more : List Term) × (terms.new ≡ terms.old ++ more) }
{
    match form {
        TripleForm::Arc(arc) => put_iri(alloc, &arc.predicate, terms),
        _ => Ok(()),
    }
}

/// Puts the predicates that a part names into the table.
fn put_part(alloc: Global, part: &Part, terms: &mut TermTable) -> Result<(), LoadError>
    ensures added { OnOk result (AddsAll terms.old (predicates_in part.now) terms.new) }
    ensures refused { IfErr result (IsPutError terms.old (predicates_in part.now)) }
    ensures kept { (more : List Term) × (terms.new ≡ terms.old ++ more) }
{
    match part {
        Part::Shape(shape) => put_iris(alloc, shape.extra.as_slice(), terms),
        Part::Triple(triple) => put_predicate(alloc, &triple.form, terms),
        _ => Ok(()),
    }
}

/// Puts the predicates of all parts into the table, in reading order.
pub fn put_predicates(alloc: Global, parts: &[Part], terms: &mut TermTable) -> Result<(), LoadError>
    ensures added { OnOk result (AddsAll terms.old (predicates_of parts.now) terms.new) }
    ensures refused { IfErr result (IsPutError terms.old (predicates_of parts.now)) }
    ensures kept { (more : List Term) × (terms.new ≡ terms.old ++ more) }
{
    for part in parts {
        put_part(alloc, part, terms)?;
    }
    Ok(())
}
