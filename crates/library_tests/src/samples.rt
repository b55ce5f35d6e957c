//! Small schemas in ShExJ, and what tables and graphs over them are made of.

ghost use Rattle.std.specs.Prelude.{◌<◌, IfOk, length, map};
ghost use Rattle.std.specs.List.{AllByRecursion};
ghost use Rattle.schema_documents.specs.Ordered.{IsOrderedDocument};
ghost use Rattle.schema_documents.specs.Tree.{document_of};
ghost use Rattle.schema_tree.specs.Loaded.{IsLoaded};

use graph_index::graph::Graph;
use rdf_terms::table::TermTable;
use rdf_terms::terms::{Term, TermId, Triple};
use rdf_terms::text::Text;
use schema_documents::Doc;
use schema_load::laws::parts_are_ordered;
use schema_load::load::load;
use schema_tree::schema::Schema;
use shexj_reader::laws::documents_are_ordered;
use std::alloc::Global;
use std::test::Fail;

/// S0 = `{ <next> @<S0> ; <out> @<S1> }`, S1 = `{ }`.
pub const SUCCESSORS: &str = r#"{"type":"Schema","shapes":[
 {"type":"Shape","id":"S0","expression":{"type":"EachOf","expressions":[
  {"type":"TripleConstraint","predicate":"http://d/next","valueExpr":"S0"},
  {"type":"TripleConstraint","predicate":"http://d/out","valueExpr":"S1"}]}},
 {"type":"Shape","id":"S1"}]}"#;

/// S0 = `{ <name> . ; <knows> @<S0> }`.
pub const KNOWN: &str = r#"{"type":"Schema","shapes":[
 {"type":"Shape","id":"S0","expression":{"type":"EachOf","expressions":[
  {"type":"TripleConstraint","predicate":"http://d/name"},
  {"type":"TripleConstraint","predicate":"http://d/knows","valueExpr":"S0"}]}}]}"#;

/// The document that a text spells.
fn document(alloc: Global, text: &str) -> Result<Doc, Fail>
    ensures { IfOk result (λ d. IsOrderedDocument (document_of d)) }
{
    documents_are_ordered();
    match shexj_reader::read(alloc, text.as_bytes()) {
        Ok(doc) => Ok(doc),
        Err(_) => Err("no document".into()),
    }
}

/// The documents with that of a text behind them.
fn with_document(alloc: Global, docs: Vec<Doc>, text: &str) -> Result<Vec<Doc>, Fail>
    requires { AllByRecursion IsOrderedDocument (map document_of docs.items) }
    ensures { IfOk result (λ all. (0 < length all.items) × AllByRecursion IsOrderedDocument (map document_of all.items)) }
{
    let mut all = docs;
    all.push(document(alloc, text)?)?;
    Ok(all)
}

/// The schema of a text. The table takes up its predicates.
pub fn schema_of(alloc: Global, text: &str, terms: &mut TermTable) -> Result<Schema, Fail>
    ensures { IfOk result IsLoaded }
{
    parts_are_ordered();
    let docs = with_document(alloc, Vec::new(alloc), text)?;
    match load(alloc, docs, terms) {
        Ok(schema) => Ok(schema),
        Err(_) => Err("no schema".into()),
    }
}

/// Puts the IRI of that name into the table.
pub fn put(alloc: Global, terms: &mut TermTable, name: &str) -> Result<(), Fail> {
    let iri = format!(in alloc; "http://d/{name}")?;
    terms.put(Term::Iri(Text::from_str(alloc, iri.as_str())?))?;
    Ok(())
}

/// Puts `<http://d/c>`, `<http://d/a>`, `<http://d/b>` and `<http://d/d>` into the table. Their numbers follow those of the
/// predicates of the schema.
pub fn put_nodes(alloc: Global, terms: &mut TermTable) -> Result<(), Fail> {
    for name in ["c", "a", "b", "d"] {
        put(alloc, terms, name)?;
    }
    Ok(())
}

/// Adds the arc of these numbers.
pub fn add(graph: &mut Graph, from: u32, predicate: u32, to: u32) -> Result<(), Fail> {
    graph.add(Triple {
        s: TermId(from),
        p: TermId(predicate),
        o: TermId(to),
    })?;
    Ok(())
}
