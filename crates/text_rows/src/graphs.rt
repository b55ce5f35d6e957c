//! Data: their triples, their terms, and their last base and prefix.

ghost use Rattle.std.specs.Prelude.{IfOk, IsSome};
ghost use Rattle.iri_resolve.specs.Reference.{scheme_of};
ghost use Rattle.rdf_lex.specs.Prefixes.{base_of};

use crate::terms::{numbers_from, push_term, texts_of};
use data_reader::{Format, read};
use graph_index::graph::Graph;
use graph_index::read_error::ReadError;
use rdf_lex::Prefixes;
use rdf_terms::table::TermTable;
use rdf_terms::terms::Triple;
use std::alloc::{AllocError, Global};

/// The base of data at first.
const BASE: &str = "http://localhost/";

/// Data that were read.
#[derive(Drop)]
pub struct Data {
    /// The terms.
    pub terms: TermTable,
    /// The triples.
    pub graph: Graph,
    /// The base and the prefixes at the end.
    pub names: Prefixes,
}

/// The data of a file with this name and these bytes, or why they are refused.
pub fn data_of(alloc: Global, name: &str, source: &[u8]) -> Result<Data, ReadError>
    ensures { IfOk result (λ d. IsSome (scheme_of (base_of d.names))) }
{
    let mut terms = TermTable::new(alloc);
    let mut graph = Graph::new(alloc);
    let format = Format::of_name(name);
    match read(alloc, format, BASE, source, &mut terms, &mut graph) {
        Ok(names) => Ok(Data {
            terms,
            graph,
            names,
        }),
        Err(error) => {
            // Each is dropped by one call, which is proved in less time.
            drop(graph);
            drop(terms);
            Err(error)
        }
    }
}

/// Triples in N-Triples, with a separator between two.
pub fn written(
    alloc: Global,
    terms: &TermTable,
    triples: &[Triple],
    separator: &[u8],
) -> Result<String, AllocError> {
    let mut out = Vec::new(alloc);
    for triple in triples {
        if !out.is_empty() {
            out.extend_from_slice(separator)?;
        }
        push_term(alloc, terms, triple.s, &mut out)?;
        out.push(b' ')?;
        push_term(alloc, terms, triple.p, &mut out)?;
        out.push(b' ')?;
        push_term(alloc, terms, triple.o, &mut out)?;
    }
    String::from_utf8_lossy(alloc, out.as_slice())
}

/// The last base, and the IRI of the prefix `e` at the end.
fn last_names(alloc: Global, names: &Prefixes) -> Result<String, AllocError> {
    let (base, iri) = (names.base(), names.get("e").unwrap_or("none"));
    format!(in alloc; "base {base}, e {iri}")
}

/// What is asked of data: their triples in the order loaded, how many there are, their terms by number, or their last names.
fn told(alloc: Global, kind: &str, data: &Data) -> Result<String, AllocError> {
    let triples = data.graph.triples();
    match kind {
        "triples" => written(alloc, &data.terms, triples, b"\n"),
        "count" => {
            let count = data.graph.len();
            format!(in alloc; "{count}")
        }
        "table" => {
            let ids = numbers_from(alloc, &data.terms, 0)?;
            texts_of(alloc, &data.terms, ids.as_slice(), b"\n")
        }
        // `names`, the last of the kinds that `questions` hands on.
        _ => last_names(alloc, &data.names),
    }
}

/// What is asked of the data of a file with this name and these bytes, or why they are refused.
pub fn asked(alloc: Global, kind: &str, name: &str, source: &[u8]) -> Result<String, AllocError> {
    match data_of(alloc, name, source) {
        Ok(data) => told(alloc, kind, &data),
        Err(error) => format!(in alloc; "{error}"),
    }
}
