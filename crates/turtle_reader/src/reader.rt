//! The reader of a whole text.

ghost use Rattle.std.specs.Prelude.{◌≡◌, ◌↔◌, ◌++◌, List, IfOk, OnErr, IfErr, IsSome};
ghost use Rattle.std.specs.Str.{IsUtf8};
ghost use Rattle.iri_resolve.specs.Reference.{scheme_of};
ghost use Rattle.rdf_lex.specs.Prefixes.{base_of};
ghost use Rattle.lists.specs.Distinct.{AreDistinct};
ghost use Rattle.rdf_terms.specs.declared.terms.Term.{Term};
ghost use Rattle.rdf_terms.specs.declared.terms.Triple.{Triple};
ghost use Rattle.graph_index.specs.declared.loading.TermTriple.{TermTriple};
ghost use Rattle.graph_index.specs.Loading.{Loads, IsWithin};
ghost use Rattle.turtle_reader.specs.Documents.{IsDocument, IsRead, ReadsTo, Explains};
ghost use Rattle.rdf_cursor.specs.Cursors.{ahead, source_in};
ghost use Rattle.turtle_reader.specs.States.{DocumentScope, scope_of};
ghost use Rattle.turtle_reader.specs.Steps.{Steps, Ends};

use crate::grammar::statement;
use crate::loading::load_lists;
use crate::state::State;
use data_loading::{Refusal, error};
use graph_index::graph::Graph;
use graph_index::read_error::ReadError;
use rdf_cursor::Cursor;
use rdf_lex::{Mode, Prefixes};
use rdf_terms::table::TermTable;
use std::alloc::Global;

/// Reads one statement, and loads its triples.
fn load_statement(
    c: &mut Cursor<'_>,
    state: &mut State,
    terms: &mut TermTable,
    graph: &mut Graph,
) -> Result<(), Refusal>
    ensures steps { Steps result (scope_of state.old) (ahead c.old) (scope_of state.new) (ahead c.new) terms.old graph.old.triples terms.new graph.new.triples }
    ensures source { source_in c.new ≡ source_in c.old }
    ensures grown { (more : List Term) × (terms.new ≡ terms.old ++ more) }
    ensures appended { (more : List Triple) × (graph.new.triples ≡ graph.old.triples ++ more) }
{
    statement(c, state)?;
    let lists = state.take_lists();
    load_lists(terms, graph, lists)?;
    Ok(())
}

/// Reads all statements, and loads their triples.
fn load_statements(
    c: &mut Cursor<'_>,
    state: &mut State,
    terms: &mut TermTable,
    graph: &mut Graph,
) -> Result<(), Refusal>
    ensures ends { Ends result (scope_of state.old) (ahead c.old) (scope_of state.new) (ahead c.new) terms.old graph.old.triples terms.new graph.new.triples }
    ensures source { source_in c.new ≡ source_in c.old }
    ensures grown { (more : List Term) × (terms.new ≡ terms.old ++ more) }
    ensures appended { (more : List Triple) × (graph.new.triples ≡ graph.old.triples ++ more) }
{
    while c.has_next() {
        load_statement(c, state, terms, graph)?;
    }
    c.end()?;
    Ok(())
}

/// Reads a text; the triples of one that is refused are taken back.
fn read_text(
    alloc: Global,
    text: &str,
    base: &str,
    terms: &mut TermTable,
    graph: &mut Graph,
) -> Result<Prefixes, ReadError>
    requires base { IsSome (scheme_of base.now) }
    requires distinct { AreDistinct terms.old }
    ensures found { IfOk result (λ p. IsRead base.now text.now p terms.old graph.old.triples terms.new graph.new.triples) }
    ensures scheme { IfOk result (λ p. IsSome (scheme_of (base_of p))) }
    ensures complete { (v : DocumentScope) (ts : List TermTriple) (new_terms : List Term) (new_graph : List Triple) → IsDocument base.now text.now (v, ts) → Loads terms.old graph.old.triples ts new_terms new_graph → IsWithin new_terms new_graph → ReadsTo result v new_terms new_graph terms.new graph.new.triples }
    ensures refused { IfErr result (λ e. Explains base.now e text.now terms.old graph.old.triples) }
    ensures kept { OnErr result (graph.new.triples ≡ graph.old.triples) }
    ensures grown { (more : List Term) × (terms.new ≡ terms.old ++ more) }
{
    let held = graph.len();
    let Ok(mut state) = State::new(alloc, base) else {
        return Err(ReadError::Memory);
    };
    let mut c = Cursor::new(text, Mode::Turtle);
    match load_statements(&mut c, &mut state, terms, graph) {
        Ok(()) => Ok(state.into_prefixes()),
        Err(refusal) => {
            graph.truncate(held);
            Err(error(refusal, c.place()))
        }
    }
}

/// Reads a document in Turtle (RDF 1.1 Turtle) into a table and a graph: the terms that are new to the table go last in
/// it, and the triples of their numbers that are new to the graph go last there. References are resolved against the base
/// in force, at first `base`, which has a scheme; the n-th anonymous node is that of the n-th `[` or member of a
/// collection, and tags are kept in lower case. The answer is the base, which has a scheme, and the prefixes at the end of the
/// document.
///
/// It fails as `NotUtf8` exactly where the bytes are not UTF-8, as `Syntax` and `Prefix` only where no document goes on
/// as the bytes do from that place on, as `Deep`, `Long` and `Full` only where none within the limits does, and as
/// `Memory`. After a failure the graph holds the triples that it held, and the table may hold more terms.
pub fn read(
    alloc: Global,
    source: &[u8],
    base: &str,
    terms: &mut TermTable,
    graph: &mut Graph,
) -> Result<Prefixes, ReadError>
    requires { IsSome (scheme_of base.now) }

    // What was read is what the whole bytes are, within the limits.
    ensures found { IfOk result (λ p. IsRead base.now source.now p terms.old graph.old.triples terms.new graph.new.triples) }
    ensures scheme { IfOk result (λ p. IsSome (scheme_of (base_of p))) }

    // What the bytes are within the limits is read.
    ensures complete { (v : DocumentScope) (ts : List TermTriple) (new_terms : List Term) (new_graph : List Triple) → IsDocument base.now source.now (v, ts) → Loads terms.old graph.old.triples ts new_terms new_graph → IsWithin new_terms new_graph → ReadsTo result v new_terms new_graph terms.new graph.new.triples }

    // What is refused has its cause in the bytes.
    ensures refused { IfErr result (λ e. Explains base.now e source.now terms.old graph.old.triples) }
    ensures not_utf8 { ¬ IsUtf8 source.now → result ≡ Err ReadError.NotUtf8 }

    ensures kept { OnErr result (graph.new.triples ≡ graph.old.triples) }
    ensures grown { (more : List Term) × (terms.new ≡ terms.old ++ more) }
{
    // The length of a table tells contracts that its terms are distinct.
    let _count = terms.len();
    match std::str::from_utf8(source) {
        Ok(text) => read_text(alloc, text, base, terms, graph),
        Err(_) => Err(ReadError::NotUtf8),
    }
}
