//! The schema that documents stand for.

ghost use Rattle.std.specs.Prelude.{List, ◌≡◌, ◌++◌, ◌⊎◌, ◌<◌, ◌≤◌, Err, IfOk, OnOk, IfErr, length, map};
ghost use Rattle.rdf_terms.specs.declared.terms.Term.{Term};
ghost use Rattle.lists.specs.Additions.{AddsAll};
ghost use Rattle.rdf_terms.specs.Tables.{max_terms};
ghost use Rattle.schema_documents.specs.Tree.{Document, document_of};
ghost use Rattle.schema_tree.specs.Loaded.{IsLoaded};
ghost use Rattle.schema_load.specs.declared.error.LoadError.{LoadError};
ghost use Rattle.schema_load.specs.declared.error.LoadError.TheVariants.{Memory};
ghost use Rattle.schema_load.specs.Parts.{AreOrdered, predicates_of};
ghost use Rattle.schema_load.specs.Reading.{parts_of};
ghost use Rattle.schema_load.specs.Refusals.{Explains, IsRefused};
ghost use Rattle.schema_load.specs.Stands.{Stands};
ghost use Rattle.schema_load.specs.Surveys.{IsSurveyOf};

use crate::building::schema_of;
use crate::error::LoadError;
use crate::predicates::put_predicates;
use crate::sizes::has_many_entries;
use crate::surveyed::{Surveyed, parts_surveyed};
use rdf_terms::table::TermTable;
use schema_documents::Doc;
use schema_tree::schema::Schema;
use std::alloc::Global;

/// The schema of parts that meet the requirements. The table takes up their predicates.
fn schema_in(alloc: Global, surveyed: Surveyed, terms: &mut TermTable) -> Result<Schema, LoadError>
    requires { IsSurveyOf surveyed.parts.items surveyed.survey }
    ensures stands { (docs : List Document) → surveyed.parts.items ≡ parts_of docs → IfOk result (Stands docs terms.new) }
    ensures added { OnOk result (AddsAll terms.old (predicates_of surveyed.parts.items) terms.new) }
    ensures refused { (docs : List Document) → surveyed.parts.items ≡ parts_of docs → IfErr result (Explains docs terms.old) }
    ensures kept { (more : List Term) × (terms.new ≡ terms.old ++ more) }
    ensures few { OnOk result (length terms.new ≤ max_terms) }
{
    if has_many_entries(surveyed.parts.as_slice()) {
        return Err(LoadError::Full);
    }
    put_predicates(alloc, surveyed.parts.as_slice(), terms)?;
    // The table holds no more terms than it can.
    let _number = terms.len();
    let schema = schema_of(alloc, surveyed, terms)?;
    Ok(schema)
}

/// The schema that the documents stand for, of which the first is the root. The table takes up their predicates. After a
/// refusal it may have more terms.
pub fn load(alloc: Global, docs: Vec<Doc>, terms: &mut TermTable) -> Result<Schema, LoadError>
    requires root { 0 < length docs.items }
    requires ordered { AreOrdered (parts_of (map document_of docs.items)) }
    ensures stands { IfOk result (Stands (map document_of docs.items) terms.new) }
    ensures loaded { IfOk result IsLoaded }
    ensures added { OnOk result (AddsAll terms.old (predicates_of (parts_of (map document_of docs.items))) terms.new) }
    ensures refused { IfErr result (Explains (map document_of docs.items) terms.old) }
    ensures exactly { (e : LoadError) → IsRefused (map document_of docs.items) terms.old e → (result ≡ Err e) ⊎ (result ≡ Err Memory) }
    ensures kept { (more : List Term) × (terms.new ≡ terms.old ++ more) }
{
    let surveyed = parts_surveyed(alloc, docs)?;
    schema_in(alloc, surveyed, terms)
}
