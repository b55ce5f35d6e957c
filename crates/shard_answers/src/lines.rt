//! What answers `lines`.

ghost use Rattle.std.specs.Prelude.{◌≡◌, [], IfErr, IfOk, IsSome, OnOk, true, ◌<◌};
ghost use Rattle.input_names.specs.Names.{is_base};
ghost use Rattle.iri_resolve.specs.Reference.{scheme_of};
ghost use Rattle.shex_inputs.specs.Stops.{ReadingStops};
ghost use Rattle.shard_answers.specs.Answers.{IsAnswer, AreHeld, HoldsTriples, IsLined};
ghost use Rattle.shard_answers.specs.Stops.{Explains, FaultsAs};
ghost use Rattle.tool_words.specs.Asked.{of_lines};
ghost use Rattle.tool_words.specs.Lent.{lining_of};

use crate::error::{CallFile, ShardError, data_stop};
use crate::fetch::fetch;
use crate::response::told;
use call_ends::Response;
use data_reader::Format;
use graph_index::graph::Graph;
use graph_index::read_error::ReadError;
use rdf_terms::table::TermTable;
use shard_checks::triple_lines;
use shex_inputs::Source;
use shex_io::Files;
use std::alloc::Global;
use tool_words::Lining;

/// The triples of data in the numbers of a table of their terms.
#[derive(Drop)]
struct Loaded {
    terms: TermTable,
    graph: Graph,
}

/// The triples of a source in a format.
fn load(alloc: Global, format: Format, base: &str, source: &[u8]) -> Result<Loaded, ReadError>
    requires { IsSome (scheme_of base.now) }
    ensures loaded { IfOk result (λ l. AreHeld format base.now source.now l.terms l.graph.triples) }
    ensures unread { IfErr result (ReadingStops format base.now [] source.now) }
{
    let mut terms = TermTable::new(alloc);
    let mut graph = Graph::new(alloc);
    let read = data_reader::read(alloc, format, base, source, &mut terms, &mut graph);
    // Their lengths tell contracts that they are within the limits.
    let _terms = terms.len();
    let _triples = graph.len();
    let _names = read?;
    Ok(Loaded { terms, graph })
}

/// The triples of the data file.
fn hold<F: Files>(alloc: Global, files: &mut F, lining: &Lining<'_>) -> Result<Loaded, ShardError>
    requires { is_base lining.now.data_base.now ≡ true }
    ensures loaded { IfOk result (λ l. HoldsTriples (F.told files.old) (lining_of lining.now) l.terms l.graph.triples) }
    ensures cause { IfErr result (Explains (F.told files.old) (of_lines (lining_of lining.now))) }
    ensures faults { IfErr result (FaultsAs (of_lines (lining_of lining.now)) (F.faults files.old) (F.faults files.new) (F.blame files.new) (F.act files.new)) }
    ensures faults_stay { OnOk result (F.faults files.new ≡ F.faults files.old) }
    ensures told_stays { F.told files.new ≡ F.told files.old }
{
    let bytes = fetch(alloc, files, lining.data, CallFile::Input(Source::Data))?;
    let format = Format::of_name(lining.data);
    match load(alloc, format, lining.data_base, bytes.as_slice()) {
        Ok(loaded) => Ok(loaded),
        Err(error) => Err(data_stop(error)),
    }
}

/// The triples of the data, a line each, in the order in which they stand first.
fn text_of<F: Files>(
    alloc: Global,
    files: &mut F,
    lining: &Lining<'_>,
) -> Result<Vec<u8>, ShardError>
    requires { is_base lining.now.data_base.now ≡ true }
    ensures lines { IfOk result (λ text. IsLined (F.told files.old) (lining_of lining.now) text.items) }
    ensures cause { IfErr result (Explains (F.told files.old) (of_lines (lining_of lining.now))) }
    ensures faults { IfErr result (FaultsAs (of_lines (lining_of lining.now)) (F.faults files.old) (F.faults files.new) (F.blame files.new) (F.act files.new)) }
    ensures faults_stay { OnOk result (F.faults files.new ≡ F.faults files.old) }
    ensures told_stays { F.told files.new ≡ F.told files.old }
{
    let loaded = hold(alloc, files, lining)?;
    let triples = loaded.graph.triples();
    let lines = triple_lines(alloc, lining.prefix, &loaded.terms, triples);
    drop(loaded);
    let text = lines?;
    Ok(text)
}

/// What answers `lines`: the triples of the data, a line each, in the order in which they stand first.
pub fn lines<F: Files>(
    alloc: Global,
    files: &mut F,
    lining: &Lining<'_>,
) -> Result<Response, ShardError>
    requires { is_base lining.now.data_base.now ≡ true }
    ensures answer { IfOk result (λ r. IsAnswer (F.told files.old) (of_lines (lining_of lining.now)) r.status r.text.items) }
    ensures notes { IfOk result (λ r. r.notes.items ≡ []) }
    ensures low { IfOk result (λ r. r.status < 7) }
    ensures cause { IfErr result (Explains (F.told files.old) (of_lines (lining_of lining.now))) }
    ensures faults { IfErr result (FaultsAs (of_lines (lining_of lining.now)) (F.faults files.old) (F.faults files.new) (F.blame files.new) (F.act files.new)) }
    ensures faults_stay { OnOk result (F.faults files.new ≡ F.faults files.old) }
    ensures told_stays { F.told files.new ≡ F.told files.old }
{
    let text = text_of(alloc, files, lining)?;
    Ok(told(alloc, text))
}
