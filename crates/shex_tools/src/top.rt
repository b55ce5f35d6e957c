//! The top call.

ghost use Rattle.std.specs.Prelude.{[], ◌≡◌, ◌≢◌, ◌<◌, ◌⊎◌, ℕ, List, Option, Some, IfErr, IfOk, OnOk, codes, map, string_bytes};
ghost use Rattle.schema_tree.specs.declared.schema.Pair.{Pair};
ghost use Rattle.schema_tree.specs.Removal.{IsRefined};
ghost use Rattle.schema_tree.specs.Sure.{Known};
ghost use Rattle.command_words.specs.Checks.{Fault};
ghost use Rattle.command_words.specs.Lent.{words_text};
ghost use Rattle.label_extents.specs.Demanded.{AreDemanded, AreTooMany};
ghost use Rattle.label_extents.specs.Extents.{IsUndecided};
ghost use Rattle.call_ends.specs.Parts.{AreQuiet};
ghost use Rattle.call_ends.specs.Statuses.{IsCutOff, IsInterrupted};
ghost use Rattle.call_ends.specs.Words.{RefusesWords};
ghost use Rattle.program_ends.specs.Printing.{IsQuiet, SinkSeen, sink_seen};
ghost use Rattle.shard_answers.specs.declared.error.CallFile.{CallFile};
ghost use Rattle.shex_inputs.specs.Asked.{Question};
ghost use Rattle.shex_inputs.specs.Held.{Held};
ghost use Rattle.shex_io.specs.Faults.{Rose};
ghost use Rattle.shex_io.specs.Sinks.{Gains};
ghost use Rattle.tool_words.specs.Asked.{Explaining as Explained, IsToolCall, IsToolFault, Listing as Listed, ToolCall as Asked, of_labels, of_reasons};
ghost use Rattle.tool_words.specs.Lent.{tool_call_of};
ghost use Rattle.shex_tools.specs.Endings.{AreNotedQuietly, HasFailing, IsAnswered, IsFailedBy, IsPrintedInPart, IsRefusedBy, IsWordsLine, TellsIdle, ToolEnds, HasLacking};
ghost use Rattle.shex_tools.specs.Outcomes.{AreHeld, AreTaken, IsAbsent, IsQuestionOf, IsRefused};
ghost use Rattle.shex_tools.specs.Reasons.{AreAsAsked, HaveFailing, HaveUnknown};
ghost use Rattle.shex_tools.specs.Results.{Concludes, IsAnswer};
ghost use Rattle.shex_tools.specs.Statuses.{IsAnswering, IsStatus};
ghost use Rattle.shex_tools.specs.Stopping.{Explains, FaultsAs, IsFit};
ghost use Rattle.shex_tools.specs.Texts.{tool_line};
ghost use Rattle.program_ends.specs.Ends.{files_seen};

use crate::converting::convert;
use crate::explaining::explain;
use crate::laws::documents_are_one;
use crate::listing::list;
use crate::report;
use crate::sharding::answer_shards;
use crate::showing::refusal_text;
use crate::stop::{Refusal, Stop, Unshown};
use call_ends::Response;
use command_words::WordsError;
use idle_selectors::laws::lines_are_exact;
use program_ends::{print, say};
use schema_tree::laws::{layers_are_meanings, refinement_is_one, verdict_is_one};
use shard_answers::{CallFile, calls_end_in_one_way};
use shex_inputs::{inputs_are_one, taken_is_loaded};
use shex_io::{Files, Sink};
use std::alloc::Global;
use tool_words::{ToolCall, answers_are_one, read_tool};
use wide_pairs::laws::none_is_wide;

/// What answers a call.
fn respond<F: Files>(alloc: Global, files: &mut F, call: &ToolCall<'_>) -> Result<Response, Stop>
    requires { IsFit (tool_call_of call.now) }
    ensures answer { IfOk result (λ r. IsAnswer (F.told files.old) (tool_call_of call.now) r.status r.text.items r.notes.items) }
    ensures low { IfOk result (λ r. r.status < 7) }
    ensures cause { IfErr result (Explains (F.told files.old) (tool_call_of call.now)) }
    ensures faults { IfErr result (FaultsAs (tool_call_of call.now) (F.faults files.old) (F.faults files.new) (F.blame files.new) (F.act files.new)) }
    ensures faults_stay { OnOk result (F.faults files.new ≡ F.faults files.old) }
    ensures told_stays { F.told files.new ≡ F.told files.old }
{
    match call {
        ToolCall::Convert(converting) => convert(alloc, files, converting),
        ToolCall::Extents(listing) => list(alloc, files, listing),
        ToolCall::Explain(explaining) => explain(alloc, files, explaining),
        ToolCall::Shards(call) => answer_shards(alloc, files, call),
    }
}

/// Says what is wrong with the words, unless memory ran out, and gives the status.
fn refuse<S: Sink>(alloc: Global, error: WordsError<'_>, sink: &mut S) -> u8
    ensures { RefusesWords WordsError.Memory error.entry (tool_line (codes "words") (words_text error.entry)) (sink_seen S.got S.faults sink.old sink.new) result }
{
    match error {
        WordsError::Memory => 8,
        error => say(report::words(alloc, error), 2, sink),
    }
}

/// Says why a file is refused and, of `explain`, shows where it is wrong, or says which file was not fetched once more for that, and gives
/// the status.
fn end_refusal<F: Files, E: Sink>(
    alloc: Global,
    call: &ToolCall<'_>,
    refusal: &Refusal,
    files: &mut F,
    err: &mut E,
) -> u8
    requires fit { IsFit (tool_call_of call.now) }
    requires refused { IsRefused (F.told files.old) (tool_call_of call.now) refusal.now }
    ensures { (words : List (List ℕ)) → IsToolCall words (tool_call_of call.now) → (out : SinkSeen) → IsQuiet out → ToolEnds
        words
        (files_seen F.told F.faults F.blame F.act files.old files.new)
        out
        (sink_seen E.got E.faults err.old err.new)
        result }
{
    match refusal_text(alloc, files, call, refusal) {
        Ok(text) => print(err, text.as_slice(), 3),
        Err(Unshown::Failed(source)) => {
            say(report::failed(alloc, call, CallFile::Input(source)), 5, err)
        }
        Err(Unshown::Memory) => 8,
    }
}

/// Answers a call, or says why there is no answer, and gives the status.
fn end_call<F: Files, O: Sink, E: Sink>(
    alloc: Global,
    call: &ToolCall<'_>,
    files: &mut F,
    out: &mut O,
    err: &mut E,
) -> u8
    requires { IsFit (tool_call_of call.now) }
    ensures { (words : List (List ℕ)) → IsToolCall words (tool_call_of call.now) → ToolEnds
        words
        (files_seen F.told F.faults F.blame F.act files.old files.new)
        (sink_seen O.got O.faults out.old out.new)
        (sink_seen E.got E.faults err.old err.new)
        result }
{
    match respond(alloc, files, call) {
        Ok(response) => response.print(out, err),
        Err(Stop::Refused(refusal)) => end_refusal(alloc, call, &refusal, files, err),
        Err(Stop::Failed(source)) => say(report::failed(alloc, call, source), 5, err),
        Err(Stop::Memory) => 8,
    }
}

/// Answers what the words ask, or says why there is no answer, and gives the status.
fn end<F: Files, O: Sink, E: Sink>(
    alloc: Global,
    words: &[String],
    files: &mut F,
    out: &mut O,
    err: &mut E,
) -> u8
    ensures { ToolEnds
        (map string_bytes words.now)
        (files_seen F.told F.faults F.blame F.act files.old files.new)
        (sink_seen O.got O.faults out.old out.new)
        (sink_seen E.got E.faults err.old err.new)
        result }
{
    match read_tool(alloc, words) {
        Ok(call) => end_call(alloc, &call, files, out, err),
        Err(error) => refuse(alloc, error, err),
    }
}

/// Answers what the words ask of `shextool`. Nothing is stored.
///
/// `convert --schema F [--schema-base I]` reads one schema document, of which it follows no import, and prints it to `out` in
/// ShExJ (ShEx 2.1, appendix A), as compact JSON, with a line feed behind it.
///
/// `extents --schema F --data F [--budget N] [--schema-base I] [--data-base I] [IRI=FILE ..]` prints a result shape map to
/// `out`: for each label of the schema the nodes of the graph that satisfy its expression (ShEx 2.1, section 5.2), but for
/// those on which the verdict is Unknown, which comes only where it depends on a pair of a node and a Shape whose Width is
/// above the budget.
///
/// `explain --schema F --data F --map F [--budget N] [--limit N] [--json] [--schema-base I] [--data-base I] [IRI=FILE ..]` prints to
/// `out` why associations of the shape map are not as asked (ShEx 2.1, sections 5.2 and 5.5.2): in the map's order each whose node is to
/// satisfy its expression and does not, with the reasons, and each whose node is not to satisfy it and does. A node with a Shape is
/// explained where it is mentioned first. With `--json` it is a result shape map in JSON of all associations (ShapeMap Structure and
/// Language, section 4).
///
/// Beside its answer, `explain` names on `err` the selectors of the map that find nothing (ShapeMap Structure and Language, section 3.1),
/// each once and in the map's order, with status 4 behind the lines for wide pairs: `nothing selected: PATTERN` for a triple pattern that
/// matches no triple, and `not in the data: NODE` for a node that is neither the subject nor the object of a triple. Of more than the
/// limit the first are named, and how many more there are.
///
/// `lines --data F [--prefix P] [--data-base I]` prints to `out` the triples of the data, a line of N-Triples each (RDF 1.1 N-Triples,
/// section 4), in the order in which they stand first. Labels of blank nodes stay as they are, or P goes before the printed name of each
/// blank node.
///
/// `followed --schema F [--schema-base I] [IRI=FILE ..]` prints a line for each way that the triple constraints of the schema read
/// (ShEx 2.1, section 5.5.2): `follow <P>` where a Shape is asked of the objects of triples, `follow ^<P>` where one is asked of the
/// subjects, and `read ^<P>` where the constraint is inverse.
///
/// `reached --schema F --data F --map F [--schema-base I] [--data-base I] [IRI=FILE ..]` prints the nodes at which the associations of the
/// shape map reach a Shape over the graph, a line each.
///
/// `covers --followed F --part F [NODES=SHARD ..]` looks in each file SHARD in turn for the lines of the part that are read at the nodes of
/// the file NODES: those with such a subject, and those with such an object whose predicate stands behind `read ^` in a line of the ways.
/// Where a shard lacks one, its name and the first line that it lacks are printed, and no further shard is looked at.
///
/// A refusal, and a file that is not fetched, are told by one line on `err`, unless memory ran out. Where `explain` refuses a file that
/// is wrong at a place, or a schema for a thing in it or for a label, the file is fetched once more, and behind that line `err` gets
/// `FILE:LINE:COLUMN` and lines that show the place in what the file holds then, or in ShExJ `FILE: ` and the keys that lead there. Where
/// the Shapes of a schema refer to one another in a circle with a negation, its files are fetched once more, and `err` gets a line
/// `#N is NAME` for each of these Shapes that has a name. N of `--budget` is from 1 to 1,099,511,627,776, and 1,048,576 where none is
/// given; N of `--limit`, how much is printed in one place, is as great, and 20 where none is given.
///
/// The status is 0 where there is an answer; 1 of `explain` where some association is not as asked, and of `covers` where a shard lacks a
/// line; 4 where the membership of some node in the extents is not told, or whether some association is as asked, since it depends on a
/// pair that is wider than the budget, and then `err` gets a line for each wide pair that the nodes with the labels, or the associations,
/// reach, of `explain` with the name of the Shape; 2 where the words are refused, 3 where a file is refused, 5 where a file was not
/// fetched, 7 where a sink failed, 8 where memory ran out.
pub fn run_tool<F: Files, O: Sink, E: Sink>(
    alloc: Global,
    words: &[String],
    files: &mut F,
    out: &mut O,
    err: &mut E,
) -> u8
    // How a call ends, with all that it has printed then. The clauses below follow from it.
    ensures ends { ToolEnds
        (map string_bytes words.now)
        (files_seen F.told F.faults F.blame F.act files.old files.new)
        (sink_seen O.got O.faults out.old out.new)
        (sink_seen E.got E.faults err.old err.new)
        result }
    ensures statuses { IsStatus result }
    ensures four { result ≡ 4 →
        ((l : Listed) × IsToolCall (map string_bytes words.now) (of_labels l))
        ⊎ ((e : Explained) × IsToolCall (map string_bytes words.now) (of_reasons e)) }
    ensures told { F.told files.new ≡ F.told files.old }

    // With 0 the text of `convert` is that of the document in the schema file, from which its plain form is read back. The text of
    // `extents` is the members that are known: each is one, and those alone are left out, with status 4, on which the verdicts of
    // refinement are Unknown, so that they depend on a pair whose Width is above the budget, and then each such pair that the nodes
    // with the labels reach is noted, of which there is one at least. The text of `explain` is that of the explanation of the map's
    // associations by the verdicts of refinement, each of which is true: what each block is about is denied by the complete typing,
    // each verdict is that of the complete typing, and it is Unknown, with status 4, only where it depends on such a pair. The text of
    // `lines` is the triples of the data file, that of `followed` the ways that the schema reads, that of `reached` the nodes that the
    // associations reach, and that of `covers` the first line that a shard lacks, if one does.
    ensures answered { IsAnswering result →
        (text notes : List ℕ)
        × IsAnswered (F.told files.old) (map string_bytes words.now) result text notes
        × Gains (O.got out.old) (O.got out.new) text
        × Gains (E.got err.old) (E.got err.new) notes }

    // With 0 and 1 what is noted is of `explain` the lines for the idle selectors of its map, and of the other commands nothing. Beside each
    // answer of `explain` each idle selector has its line, or is counted among those that are left out, and each line is that of one.
    ensures answered_quietly { (result ≡ 0) ⊎ (result ≡ 1) →
        (notes : List ℕ)
        × AreNotedQuietly (F.told files.old) (map string_bytes words.now) notes
        × Gains (E.got err.old) (E.got err.new) notes }
    ensures idle { IsAnswering result → (e : Explained) →
        IsToolCall (map string_bytes words.now) (of_reasons e) →
        TellsIdle (F.told files.old) e (E.got err.old) (E.got err.new) }
    ensures noted { result ≡ 4 → (text notes : List ℕ) →
        IsAnswered (F.told files.old) (map string_bytes words.now) result text notes → notes ≢ [] }

    // Each other status has its cause. With 2 and 5 its line is all that is printed, with 3 its line and, of `explain`, what shows where
    // the file is wrong; with 7 and 8 a part of what is due.
    ensures arguments { result ≡ 2 →
        (line : List ℕ)
        × IsWordsLine (map string_bytes words.now) line
        × Gains (E.got err.old) (E.got err.new) line }
    ensures refused { result ≡ 3 →
        (text : List ℕ)
        × IsRefusedBy (F.told files.old) (map string_bytes words.now) text
        × Gains (E.got err.old) (E.got err.new) text }
    ensures failed { result ≡ 5 →
        (line : List ℕ)
        × IsFailedBy
        (files_seen F.told F.faults F.blame F.act files.old files.new)
        (map string_bytes words.now) line
        × Gains (E.got err.old) (E.got err.new) line }
    ensures fault { result ≡ 5 → Rose (F.faults files.old) (F.faults files.new) }
    ensures sink_failed { result ≡ 7 →
        Rose (O.faults out.old) (O.faults out.new) ⊎ Rose (E.faults err.old) (E.faults err.new) }
    ensures nothing_out { (result ≡ 2) ⊎ ((result ≡ 3) ⊎ (result ≡ 5)) → O.got out.new ≡ O.got out.old }
    ensures in_part { result ≡ 7 → IsPrintedInPart
        (map string_bytes words.now)
        (files_seen F.told F.faults F.blame F.act files.old files.new)
        (sink_seen O.got O.faults out.old out.new)
        (sink_seen E.got E.faults err.old err.new) }
    ensures unprinted { result ≡ 8 → IsPrintedInPart
        (map string_bytes words.now)
        (files_seen F.told F.faults F.blame F.act files.old files.new)
        (sink_seen O.got O.faults out.old out.new)
        (sink_seen E.got E.faults err.old err.new)
        ⊎ AreQuiet
        (sink_seen O.got O.faults out.old out.new)
        (sink_seen E.got E.faults err.old err.new) }

    // Where contents are told, words and files decide how the call ends, but for faults and want of memory.
    ensures unasked { (f : Fault) → IsToolFault (map string_bytes words.now) f → (result ≡ 2) ⊎ IsCutOff result }
    ensures takes { (contents : List ℕ → Option (List ℕ)) (call : Asked) →
        F.told files.old ≡ Some contents → IsToolCall (map string_bytes words.now) call →
        AreTaken (F.told files.old) call → Concludes call result ⊎ IsInterrupted result }
    ensures completes { (contents : List ℕ → Option (List ℕ)) (call : Asked) →
        F.told files.old ≡ Some contents → IsToolCall (map string_bytes words.now) call →
        AreTaken (F.told files.old) call → ¬ Rose (F.faults files.old) (F.faults files.new) →
        ¬ Rose (O.faults out.old) (O.faults out.new) → ¬ Rose (E.faults err.old) (E.faults err.new) →
        Concludes call result ⊎ (result ≡ 8) }
    ensures refuses { (contents : List ℕ → Option (List ℕ)) (call : Asked) (refusal : Refusal) →
        F.told files.old ≡ Some contents → IsToolCall (map string_bytes words.now) call →
        IsRefused (F.told files.old) call refusal → (result ≡ 3) ⊎ IsInterrupted result }
    ensures misses { (contents : List ℕ → Option (List ℕ)) (call : Asked) (file : CallFile) →
        F.told files.old ≡ Some contents → IsToolCall (map string_bytes words.now) call →
        IsAbsent (F.told files.old) call file → IsInterrupted result }

    // Extents end with 4 exactly where a verdict of refinement over the demanded pairs is Unknown.
    ensures undecided { (contents : List ℕ → Option (List ℕ)) (l : Listed) (h : Held) (pairs : List Pair) (verdicts : Known) →
        F.told files.old ≡ Some contents → IsToolCall (map string_bytes words.now) (of_labels l) →
        AreHeld (F.told files.old) l h → ¬ AreTooMany h.schema h.graph → AreDemanded h.schema h.terms h.graph pairs →
        IsRefined h.schema h.terms h.graph h.strata pairs l.budget verdicts →
        IsUndecided h.schema h.terms h.graph verdicts → (result ≡ 4) ⊎ IsInterrupted result }
    ensures decided { (contents : List ℕ → Option (List ℕ)) (l : Listed) (h : Held) (pairs : List Pair) (verdicts : Known) →
        F.told files.old ≡ Some contents → IsToolCall (map string_bytes words.now) (of_labels l) →
        AreHeld (F.told files.old) l h → ¬ AreTooMany h.schema h.graph → AreDemanded h.schema h.terms h.graph pairs →
        IsRefined h.schema h.terms h.graph h.strata pairs l.budget verdicts →
        ¬ IsUndecided h.schema h.terms h.graph verdicts → (result ≡ 0) ⊎ IsInterrupted result }

    // Explanations end with 4 exactly where the verdict of refinement on the expression of some association is Unknown, and else with 0
    // where each is as asked, and with 1 where one is not.
    ensures unsure { (contents : List ℕ → Option (List ℕ)) (e : Explained) (q : Question) (verdicts : Known) →
        F.told files.old ≡ Some contents → IsToolCall (map string_bytes words.now) (of_reasons e) →
        IsQuestionOf (F.told files.old) e q → IsRefined q.held.schema q.terms q.held.graph q.held.strata q.pairs e.budget verdicts →
        HaveUnknown q.held.schema q.terms verdicts q.associations → (result ≡ 4) ⊎ IsInterrupted result }
    ensures unexplained { (contents : List ℕ → Option (List ℕ)) (e : Explained) (q : Question) (verdicts : Known) →
        F.told files.old ≡ Some contents → IsToolCall (map string_bytes words.now) (of_reasons e) →
        IsQuestionOf (F.told files.old) e q → IsRefined q.held.schema q.terms q.held.graph q.held.strata q.pairs e.budget verdicts →
        AreAsAsked q.held.schema q.terms verdicts q.associations → (result ≡ 0) ⊎ IsInterrupted result }
    ensures explained { (contents : List ℕ → Option (List ℕ)) (e : Explained) (q : Question) (verdicts : Known) →
        F.told files.old ≡ Some contents → IsToolCall (map string_bytes words.now) (of_reasons e) →
        IsQuestionOf (F.told files.old) e q → IsRefined q.held.schema q.terms q.held.graph q.held.strata q.pairs e.budget verdicts →
        ¬ HaveUnknown q.held.schema q.terms verdicts q.associations →
        HaveFailing q.held.schema q.terms verdicts q.associations → (result ≡ 1) ⊎ IsInterrupted result }

    // With 1 some association is not as asked by the complete typing, or a shard lacks a line.
    ensures failing { result ≡ 1 →
        HasFailing (F.told files.old) (map string_bytes words.now) ⊎ HasLacking (F.told files.old) (map string_bytes words.now) }

    // Faults that came are said.
    ensures files_fault { F.faults files.old < F.faults files.new → IsInterrupted result }
    ensures sink_fault { (O.faults out.old < O.faults out.new) ⊎ (E.faults err.old < E.faults err.new) →
        result ≡ 7 }
{
    // The laws by which words and files say one thing, refinement too, pairs without a line are within the budget, and lines of selectors are
    // those of idle ones.
    answers_are_one();
    inputs_are_one();
    taken_is_loaded();
    documents_are_one();
    calls_end_in_one_way();
    refinement_is_one();
    layers_are_meanings();
    verdict_is_one();
    none_is_wide();
    lines_are_exact();
    end(alloc, words, files, out, err)
}
