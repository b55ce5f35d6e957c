//! The reader of a whole text.

ghost use Rattle.std.specs.Prelude.{◌≡◌, ◌++◌, List, OnOk, OnErr, IfErr};
ghost use Rattle.std.specs.Str.{IsUtf8};
ghost use Rattle.lists.specs.Distinct.{AreDistinct};
ghost use Rattle.graph_index.specs.declared.loading.TermTriple.{TermTriple};
ghost use Rattle.graph_index.specs.Loading.{Loads, IsWithin};
ghost use Rattle.nt_reader.specs.Endings.{DocumentsAreOne, ShortDocumentsAreOne, Explains, ReadsTo};
ghost use Rattle.nt_reader.specs.Grammar.{IsDocument};
ghost use Rattle.rdf_terms.specs.declared.terms.Term.{Term};
ghost use Rattle.rdf_terms.specs.declared.terms.Triple.{Triple};
ghost use Rattle.rdf_cursor.specs.Cursors.{ahead, source_in};
ghost use Rattle.nt_reader.specs.Steps.{Steps, Ends};

use crate::lines::line;
use data_loading::{Refusal, error};
use graph_index::graph::Graph;
use graph_index::loading::load;
use graph_index::read_error::ReadError;
use rdf_cursor::Cursor;
use rdf_lex::Mode;
use rdf_terms::table::TermTable;
use std::alloc::Global;

/// Reads one line, and loads its triple.
fn load_line(
    c: &mut Cursor<'_>,
    alloc: Global,
    terms: &mut TermTable,
    graph: &mut Graph,
) -> Result<(), Refusal>
    ensures steps { Steps result (ahead c.old) (ahead c.new) terms.old graph.old.triples terms.new graph.new.triples }
    ensures source { source_in c.new ≡ source_in c.old }
    ensures grown { (more : List Term) × (terms.new ≡ terms.old ++ more) }
    ensures appended { (more : List Triple) × (graph.new.triples ≡ graph.old.triples ++ more) }
{
    match line(c, alloc)? {
        None => Ok(()),
        Some(triple) => {
            load(terms, graph, triple)?;
            Ok(())
        }
    }
}

/// Reads all lines, and loads their triples.
fn load_lines(
    c: &mut Cursor<'_>,
    alloc: Global,
    terms: &mut TermTable,
    graph: &mut Graph,
) -> Result<(), Refusal>
    ensures ends { Ends result (ahead c.old) (ahead c.new) terms.old graph.old.triples terms.new graph.new.triples }
    ensures source { source_in c.new ≡ source_in c.old }
    ensures grown { (more : List Term) × (terms.new ≡ terms.old ++ more) }
    ensures appended { (more : List Triple) × (graph.new.triples ≡ graph.old.triples ++ more) }
{
    while c.has_next() {
        load_line(c, alloc, terms, graph)?;
    }
    c.end()?;
    Ok(())
}

/// Reads a text; the triples of one that is refused are taken back.
fn read_text(
    alloc: Global,
    text: &str,
    terms: &mut TermTable,
    graph: &mut Graph,
) -> Result<(), ReadError>
    requires { AreDistinct terms.old }
    ensures found { OnOk result ((xs : List TermTriple) × IsDocument text.now xs × Loads terms.old graph.old.triples xs terms.new graph.new.triples) }
    ensures complete { (xs : List TermTriple) (new_terms : List Term) (new_graph : List Triple) → IsDocument text.now xs → Loads terms.old graph.old.triples xs new_terms new_graph → IsWithin new_terms new_graph → ReadsTo result new_terms new_graph terms.new graph.new.triples }
    ensures refused { IfErr result (λ e. Explains e text.now terms.old graph.old.triples) }
    ensures kept { OnErr result (graph.new.triples ≡ graph.old.triples) }
    ensures grown { (more : List Term) × (terms.new ≡ terms.old ++ more) }
{
    let held = graph.len();
    let mut c = Cursor::new(text, Mode::NTriples);
    match load_lines(&mut c, alloc, terms, graph) {
        Ok(()) => Ok(()),
        Err(refusal) => {
            graph.truncate(held);
            Err(error(refusal, c.place()))
        }
    }
}

/// Reads N-Triples (RDF 1.1 N-Triples) into a table and a graph: the terms that are new to the table go last in it, in
/// the order in which they stand, and the triples of their numbers that are new to the graph go last there. An IRI has a
/// scheme, and a tag is kept in lower case. It fails as `NotUtf8` exactly where the bytes are not UTF-8, as `Syntax`,
/// `Long` or `Full` only where what is wrong stands in the bytes, and as `Memory`. After a failure the graph holds the
/// triples that it held, and the table may hold more terms.
pub fn read(
    alloc: Global,
    source: &[u8],
    terms: &mut TermTable,
    graph: &mut Graph,
) -> Result<(), ReadError>
    // What was read is what the whole bytes are, within the limits.
    ensures found { OnOk result ((xs : List TermTriple) × IsDocument source.now xs × Loads terms.old graph.old.triples xs terms.new graph.new.triples) }

    // What the bytes are within the limits is read.
    ensures complete { (xs : List TermTriple) (new_terms : List Term) (new_graph : List Triple) → IsDocument source.now xs → Loads terms.old graph.old.triples xs new_terms new_graph → IsWithin new_terms new_graph → ReadsTo result new_terms new_graph terms.new graph.new.triples }

    // What is refused has its cause in the bytes, and at the place of `Syntax` no document goes on as the bytes do.
    ensures refused { IfErr result (λ e. Explains e source.now terms.old graph.old.triples) }
    ensures not_utf8 { ¬ IsUtf8 source.now → result ≡ Err ReadError.NotUtf8 }

    ensures kept { OnErr result (graph.new.triples ≡ graph.old.triples) }
    ensures grown { (more : List Term) × (terms.new ≡ terms.old ++ more) }
{
    // The length of a table tells contracts that its terms are distinct.
    let _count = terms.len();
    match std::str::from_utf8(source) {
        Ok(text) => read_text(alloc, text, terms, graph),
        Err(_) => Err(ReadError::NotUtf8),
    }
}

/// The law that the bytes are a document of one list of triples at most, of whatever lengths and so within the limits too.
pub fn documents_are_one()
    ensures any { DocumentsAreOne }
    ensures short { ShortDocumentsAreOne }
{}
