//! The schema of documents, with the strata of its Shapes.

ghost use Rattle.std.specs.Prelude.{◌≡◌, ◌<◌, IfErr, IfOk, length, map};
ghost use Rattle.rdf_terms.specs.declared.terms.Term.{Term};
ghost use Rattle.schema_documents.specs.Tree.{document_of};
ghost use Rattle.schema_load.specs.Parts.{AreOrdered};
ghost use Rattle.schema_load.specs.Reading.{parts_of};
ghost use Rattle.schema_tree.specs.Loaded.{IsLoaded};
ghost use Rattle.shex_inputs.specs.Held.{IsSchemaOf};
ghost use Rattle.shex_inputs.specs.Stops.{LoadStops};

use crate::error::{InputError, load_error, strata_error};
use rdf_lex::Prefixes;
use rdf_terms::table::TermTable;
use schema_files::{Documents, FileDigests};
use schema_load::load::load;
use schema_tree::schema::Schema;
use std::alloc::Global;
use strata::list::Strata;
use strata::strata::strata;

/// A schema with the strata of its Shapes, the table of its predicates, the base and the prefixes at the end of its file, and the
/// digests of its files.
#[derive(Drop)]
pub struct Loaded {
    /// The schema.
    pub schema: Schema,
    /// The strata of its Shapes.
    pub strata: Strata,
    /// The predicates.
    pub terms: TermTable,
    /// The base and the prefixes at the end of the schema file.
    pub labels: Prefixes,
    /// The digests of its files.
    pub digests: FileDigests,
}

/// The schema for which documents stand, one at least, with its strata.
pub fn load_schema(alloc: Global, documents: Documents) -> Result<Loaded, InputError>
    requires root { 0 < length documents.docs.items }
    requires ordered { AreOrdered (parts_of (map document_of documents.docs.items)) }
    ensures schema { IfOk result (λ l. IsSchemaOf (map document_of documents.docs.items) l.terms l.schema l.strata) }
    ensures loaded { IfOk result (λ l. IsLoaded l.schema) }
    ensures labels { IfOk result (λ l. l.labels ≡ documents.names) }
    ensures digests { IfOk result (λ l. l.digests ≡ documents.digests) }
    ensures stops { IfErr result (LoadStops (map document_of documents.docs.items)) }
{
    let Documents {
        docs,
        names: labels,
        digests,
    } = documents;
    let mut terms = TermTable::new(alloc);
    let loaded = load(alloc, docs, &mut terms);
    // The length of a table tells contracts that it is within the limit.
    let _count = terms.len();
    let schema = match loaded {
        Ok(schema) => schema,
        Err(error) => return Err(load_error(error)),
    };
    let strata = match strata(alloc, &schema) {
        Ok(strata) => strata,
        Err(error) => return Err(strata_error(error)),
    };
    Ok(Loaded {
        schema,
        strata,
        terms,
        labels,
        digests,
    })
}
