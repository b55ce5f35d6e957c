//! The top call.

ghost use Rattle.std.specs.Prelude.{[], ◌≡◌, ◌≢◌, ◌<◌, ◌⊎◌, ℕ, List, Option, Some, map, string_bytes};
ghost use Rattle.input_names.specs.Names.{Text};
ghost use Rattle.shex_io.specs.Faults.{Rose};
ghost use Rattle.shex_io.specs.Sinks.{Gains};
ghost use Rattle.command_words.specs.Checks.{Fault};
ghost use Rattle.call_ends.specs.Parts.{AreQuiet};
ghost use Rattle.call_ends.specs.Statuses.{IsAnswering, IsCutOff, IsInterrupted, IsStatus};
ghost use Rattle.tool_words.specs.Asked.{Editing as Asking, IsEditing, IsEditingFault};
ghost use Rattle.tool_words.specs.Lent.{editing_of};
ghost use Rattle.session_run.specs.Endings.{IsAnsweredBy, IsFailedBy, IsPrintedInPart, IsRefusedBy, IsWordsLine, SessionEnds};
ghost use Rattle.session_run.specs.Outcomes.{AreAnswers, IsAbsent, IsRefused};
ghost use Rattle.session_run.specs.Replies.{Reply, status_of};
ghost use Rattle.session_run.specs.Stopping.{IsFit};
ghost use Rattle.program_ends.specs.Printing.{sink_seen};
ghost use Rattle.program_ends.specs.Ends.{files_seen};

use crate::report;
use crate::responding::respond;
use crate::stop::{File, Refusal, Stop};
use call_ends::refuse_words;
use program_ends::say;
use session_script::laws::{scripts_are_not_refused, scripts_are_one};
use shex_inputs::{inputs_are_one, taken_is_loaded};
use shex_io::{Files, Sink};
use std::alloc::Global;
use tool_words::{Editing, answers_are_one, read_session};
use typing_session::set_laws::answers_are_of_sets;
use wide_pairs::laws::none_is_wide;

/// Answers what the words ask, or says why there are no answers, and gives the status.
fn end_editing<F: Files, O: Sink, E: Sink>(
    alloc: Global,
    editing: &Editing<'_>,
    files: &mut F,
    out: &mut O,
    err: &mut E,
) -> u8
    requires { IsFit (editing_of editing.now) }
    ensures { (words : List Text) → IsEditing words (editing_of editing.now) → SessionEnds
        words
        (files_seen F.told F.faults F.blame F.act files.old files.new)
        (sink_seen O.got O.faults out.old out.new)
        (sink_seen E.got E.faults err.old err.new)
        result }
{
    match respond(alloc, files, editing) {
        Ok(said) => said.into_response().print(out, err),
        Err(Stop::Refused(refusal)) => say(report::refusal(alloc, editing, &refusal), 3, err),
        Err(Stop::Failed(file)) => say(report::failed(alloc, editing, file), 5, err),
        Err(Stop::Memory) => 8,
    }
}

/// Answers what the words ask, or says why there are no answers, and gives the status.
fn end<F: Files, O: Sink, E: Sink>(
    alloc: Global,
    words: &[String],
    files: &mut F,
    out: &mut O,
    err: &mut E,
) -> u8
    ensures { SessionEnds
        (map string_bytes words.now)
        (files_seen F.told F.faults F.blame F.act files.old files.new)
        (sink_seen O.got O.faults out.old out.new)
        (sink_seen E.got E.faults err.old err.new)
        result }
{
    match read_session(alloc, words) {
        Ok(editing) => end_editing(alloc, &editing, files, out, err),
        Err(error) => refuse_words(alloc, report::PROGRAM, error, err),
    }
}

/// Answers the questions of a script over a graph that the script edits.
///
/// The words are `--schema F --data F --script F [--budget N] [--schema-base I] [--data-base I] [IRI=FILE ..]`. The schema and the
/// data are read, then the script whole, and then its commands are run one after the other: `+` adds a triple to the graph and `-`
/// removes one, and `?` asks whether a node satisfies a target (ShEx 2.1, section 5.2) over the graph that the edits before it
/// left. For each question a line is printed to `out`: the text of the node, `@`, `!` where it does not satisfy the target and `?`
/// where that depends on a pair that is wider than the budget, and the target. Nothing is stored. Where a command is refused,
/// nothing is printed for the questions before it. Where there are no answers, one line on `err` says why, unless memory ran out. N
/// is from 1 to 1,099,511,627,776, and 1,048,576 where none is given.
///
/// The status is 0 where each question is answered with yes or no; 4 where some answer is Unknown, and then `err` gets, for each
/// such answer in turn, a line for each pair that the question reaches and whose Width is above the budget; 2 where the words are
/// refused, 3 where a file is refused, 5 where a file was not fetched, 7 where a sink failed, 8 where memory ran out.
pub fn run_session<F: Files, O: Sink, E: Sink>(
    alloc: Global,
    words: &[String],
    files: &mut F,
    out: &mut O,
    err: &mut E,
) -> u8
    // How a call ends, with all that it has printed then. The clauses below follow from it.
    ensures ends { SessionEnds
        (map string_bytes words.now)
        (files_seen F.told F.faults F.blame F.act files.old files.new)
        (sink_seen O.got O.faults out.old out.new)
        (sink_seen E.got E.faults err.old err.new)
        result }
    ensures statuses { IsStatus result }
    ensures told { F.told files.new ≡ F.told files.old }

    // The answers are those to the questions of the script, each over the graph that the edits before it left, by the verdicts of
    // refinement over it and so true of the complete typing; the status is 4 exactly where one is Unknown, and then the wide pairs
    // on which it depends are noted, of which there is one at least.
    ensures answered { IsAnswering result →
        (text notes : List ℕ)
        × IsAnsweredBy (F.told files.old) (map string_bytes words.now) result text notes
        × Gains (O.got out.old) (O.got out.new) text
        × Gains (E.got err.old) (E.got err.new) notes }
    ensures answered_quietly { result ≡ 0 → E.got err.new ≡ E.got err.old }
    ensures noted { result ≡ 4 → (text notes : List ℕ) →
        IsAnsweredBy (F.told files.old) (map string_bytes words.now) result text notes → notes ≢ [] }

    // Each other status has its cause. With 2, 3 and 5 its line is all that is printed, with 7 and 8 a part of what is due.
    ensures arguments { result ≡ 2 →
        (line : List ℕ)
        × IsWordsLine (map string_bytes words.now) line
        × Gains (E.got err.old) (E.got err.new) line }
    ensures refused { result ≡ 3 →
        (line : List ℕ)
        × IsRefusedBy (F.told files.old) (map string_bytes words.now) line
        × Gains (E.got err.old) (E.got err.new) line }
    ensures failed { result ≡ 5 →
        (line : List ℕ)
        × IsFailedBy
        (files_seen F.told F.faults F.blame F.act files.old files.new)
        (map string_bytes words.now) line
        × Gains (E.got err.old) (E.got err.new) line }
    ensures fault { result ≡ 5 → Rose (F.faults files.old) (F.faults files.new) }
    ensures sink_failed { result ≡ 7 →
        Rose (O.faults out.old) (O.faults out.new) ⊎ Rose (E.faults err.old) (E.faults err.new) }
    ensures nothing_out { (result ≡ 2) ⊎ ((result ≡ 3) ⊎ (result ≡ 5)) → O.got out.new ≡ O.got out.old }
    ensures in_part { result ≡ 7 → IsPrintedInPart
        (map string_bytes words.now)
        (files_seen F.told F.faults F.blame F.act files.old files.new)
        (sink_seen O.got O.faults out.old out.new)
        (sink_seen E.got E.faults err.old err.new) }
    ensures unprinted { result ≡ 8 → IsPrintedInPart
        (map string_bytes words.now)
        (files_seen F.told F.faults F.blame F.act files.old files.new)
        (sink_seen O.got O.faults out.old out.new)
        (sink_seen E.got E.faults err.old err.new)
        ⊎ AreQuiet
        (sink_seen O.got O.faults out.old out.new)
        (sink_seen E.got E.faults err.old err.new) }

    // Where contents are told, words and files decide how the call ends, but for faults and want of memory: with the status of the
    // answers, which is 4 exactly where one is Unknown.
    ensures unasked { (f : Fault) → IsEditingFault (map string_bytes words.now) f → (result ≡ 2) ⊎ IsCutOff result }
    ensures takes { (contents : List ℕ → Option (List ℕ)) (e : Asking) (replies : List Reply) →
        F.told files.old ≡ Some contents → IsEditing (map string_bytes words.now) e →
        AreAnswers (F.told files.old) e replies → (result ≡ status_of replies) ⊎ IsInterrupted result }
    ensures refuses { (contents : List ℕ → Option (List ℕ)) (e : Asking) (refusal : Refusal) →
        F.told files.old ≡ Some contents → IsEditing (map string_bytes words.now) e →
        IsRefused (F.told files.old) e refusal → (result ≡ 3) ⊎ IsInterrupted result }
    ensures misses { (contents : List ℕ → Option (List ℕ)) (e : Asking) (file : File) →
        F.told files.old ≡ Some contents → IsEditing (map string_bytes words.now) e →
        IsAbsent (F.told files.old) e file → IsInterrupted result }
    ensures completes { (contents : List ℕ → Option (List ℕ)) (e : Asking) (replies : List Reply) →
        F.told files.old ≡ Some contents → IsEditing (map string_bytes words.now) e →
        AreAnswers (F.told files.old) e replies → ¬ Rose (F.faults files.old) (F.faults files.new) →
        ¬ Rose (O.faults out.old) (O.faults out.new) → ¬ Rose (E.faults err.old) (E.faults err.new) →
        (result ≡ status_of replies) ⊎ (result ≡ 8) }
    ensures unrefused { (e : Asking) → IsEditing (map string_bytes words.now) e →
        ((refusal : Refusal) → ¬ IsRefused (F.told files.old) e refusal) → IsAnswering result ⊎ IsInterrupted result }

    // Faults that came are said.
    ensures files_fault { F.faults files.old < F.faults files.new → IsInterrupted result }
    ensures sink_fault { (O.faults out.old < O.faults out.new) ⊎ (E.faults err.old < E.faults err.new) →
        result ≡ 7 }
{
    // The laws by which words, files and scripts say one thing, a graph is a set, and pairs without a line are within the budget.
    answers_are_one();
    inputs_are_one();
    taken_is_loaded();
    scripts_are_one();
    scripts_are_not_refused();
    answers_are_of_sets();
    none_is_wide();
    end(alloc, words, files, out, err)
}
