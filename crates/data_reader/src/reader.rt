//! The reader of data.

ghost use Rattle.std.specs.Prelude.{◌≡◌, ◌++◌, List, IfOk, OnErr, IfErr, IsSome};
ghost use Rattle.std.specs.Str.{IsUtf8};
ghost use Rattle.iri_resolve.specs.Reference.{scheme_of};
ghost use Rattle.rdf_lex.specs.Prefixes.{base_of};
ghost use Rattle.rdf_terms.specs.declared.terms.Term.{Term};
ghost use Rattle.rdf_terms.specs.declared.terms.Triple.{Triple};
ghost use Rattle.graph_index.specs.declared.loading.TermTriple.{TermTriple};
ghost use Rattle.graph_index.specs.Loading.{Loads, IsWithin};
ghost use Rattle.data_reader.specs.declared.format.Format.TheVariants.{NTriples};
ghost use Rattle.data_reader.specs.Documents.{Context, IsData};
ghost use Rattle.data_reader.specs.Endings.{DataAreOne, Explains, IsRead, ReadsTo};

use crate::format::Format;
use graph_index::graph::Graph;
use graph_index::read_error::ReadError;
use rdf_lex::Prefixes;
use rdf_terms::table::TermTable;
use std::alloc::Global;

/// Reads N-Triples, whose base is the one that is given, and which declare no prefixes.
fn read_n_triples(
    alloc: Global,
    base: &str,
    source: &[u8],
    terms: &mut TermTable,
    graph: &mut Graph,
) -> Result<Prefixes, ReadError>
    requires { IsSome (scheme_of base.now) }
    ensures found { IfOk result (λ p. IsRead NTriples base.now source.now p terms.old graph.old.triples terms.new graph.new.triples) }
    ensures scheme { IfOk result (λ p. IsSome (scheme_of (base_of p))) }
    ensures complete { (last : Context) (triples : List TermTriple) (new_terms : List Term) (new_graph : List Triple) → IsData NTriples base.now (last, triples) source.now → Loads terms.old graph.old.triples triples new_terms new_graph → IsWithin new_terms new_graph → ReadsTo result last new_terms new_graph terms.new graph.new.triples }
    ensures refused { IfErr result (λ e. Explains NTriples base.now e source.now terms.old graph.old.triples) }
    ensures not_utf8 { ¬ IsUtf8 source.now → result ≡ Err ReadError.NotUtf8 }
    ensures kept { OnErr result (graph.new.triples ≡ graph.old.triples) }
    ensures grown { (more : List Term) × (terms.new ≡ terms.old ++ more) }
{
    graph_index::laws::loading_keeps();
    let held = graph.len();
    nt_reader::read(alloc, source, terms, graph)?;
    match Prefixes::new(alloc, base) {
        Ok(prefixes) => Ok(prefixes),
        Err(_) => {
            graph.truncate(held);
            Err(ReadError::Memory)
        }
    }
}

/// Reads data in a format into a table and a graph: the terms that are new to the table go last in it, and the triples of
/// their numbers that are new to the graph go last there. References of Turtle are resolved against the base in force, at
/// first `base`, which has a scheme. The answer is the base and the prefixes at the end of the data; N-Triples have
/// `base` and no prefix.
///
/// It fails as `NotUtf8` exactly where the bytes are not UTF-8, as `Memory`, and for each other cause only where the
/// format's own reader finds it in the bytes; `Prefix` and `Deep` are Turtle's alone. After a failure the graph holds the
/// triples that it held, and the table may hold more terms.
pub fn read(
    alloc: Global,
    format: Format,
    base: &str,
    source: &[u8],
    terms: &mut TermTable,
    graph: &mut Graph,
) -> Result<Prefixes, ReadError>
    requires { IsSome (scheme_of base.now) }

    // What was read is what the whole bytes are, within the limits.
    ensures found { IfOk result (λ p. IsRead format base.now source.now p terms.old graph.old.triples terms.new graph.new.triples) }
    ensures scheme { IfOk result (λ p. IsSome (scheme_of (base_of p))) }

    // What the bytes are within the limits is read.
    ensures complete { (last : Context) (triples : List TermTriple) (new_terms : List Term) (new_graph : List Triple) → IsData format base.now (last, triples) source.now → Loads terms.old graph.old.triples triples new_terms new_graph → IsWithin new_terms new_graph → ReadsTo result last new_terms new_graph terms.new graph.new.triples }

    // What is refused has its cause in the bytes.
    ensures refused { IfErr result (λ e. Explains format base.now e source.now terms.old graph.old.triples) }
    ensures not_utf8 { ¬ IsUtf8 source.now → result ≡ Err ReadError.NotUtf8 }

    ensures kept { OnErr result (graph.new.triples ≡ graph.old.triples) }
    ensures grown { (more : List Term) × (terms.new ≡ terms.old ++ more) }
{
    match format {
        Format::NTriples => read_n_triples(alloc, base, source, terms, graph),
        Format::Turtle => turtle_reader::read(alloc, source, base, terms, graph),
    }
}

/// The law that bytes are, in one format and under one base, one document within the limits at most.
pub fn data_are_one()
    ensures { DataAreOne }
{
    nt_reader::documents_are_one();
    turtle_reader::documents_are_one();
}
