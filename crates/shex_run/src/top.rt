//! The top call.

ghost use Rattle.std.specs.Prelude.{[], ◌≡◌, ◌≢◌, ◌<◌, ◌≤◌, ◌⊎◌, ℕ, List, Option, Some, map, string_bytes};
ghost use Rattle.rdf_terms.specs.declared.terms.Term.{Term};
ghost use Rattle.schema_tree.specs.declared.schema.Answer.{Answer};
ghost use Rattle.input_names.specs.Names.{Text};
ghost use Rattle.shex_io.specs.Faults.{Rose};
ghost use Rattle.shex_io.specs.declared.files.Act.TheVariants as Acts;
ghost use Rattle.shex_io.specs.Sinks.{Gains};
ghost use Rattle.command_words.specs.Asked.{Command as Asking, IsAsked};
ghost use Rattle.command_words.specs.Checks.{Fault};
ghost use Rattle.command_words.specs.Drills.{Drill, IsDrill, IsFault, max_items};
ghost use Rattle.command_words.specs.Lent.{command_of, drill_of};
ghost use Rattle.shex_inputs.specs.Held.{Held};
ghost use Rattle.shex_run.specs.Checking.{IsFull, IsGiven, IsRejected};
ghost use Rattle.shex_run.specs.Endings.{Ends, IsDrillWhollyStored, IsFailedBy, IsPartlyStored, IsPrintedInPart, IsRefusedBy, IsRejectedBy, IsRespondedTo, IsWhollyStored, IsWhollyUpgraded, IsWordsLine, KeepsTold, MayPrintInPart};
ghost use Rattle.shex_run.specs.Outcomes.{AreTaken, IsAbsent, IsRefused};
ghost use Rattle.shex_run.specs.Printing.{MayStopDrill, RefusesWords, SaysDrillStop, SaysStop};
ghost use Rattle.shex_run.specs.Proofs.{Accepted};
ghost use Rattle.shex_run.specs.Statuses.{Concludes, IsAnswering, IsInterrupted, IsStatus};
ghost use Rattle.shex_run.specs.Stopping.{IsFit};
ghost use Rattle.shex_run.specs.Tasks.{IsToStore, IsToValidate};
ghost use Rattle.program_ends.specs.Printing.{sink_seen};
ghost use Rattle.program_ends.specs.Ends.{files_seen};

use crate::answers::respond;
use crate::drilling::drill;
use crate::report;
use crate::stop::{File, Stop};
use command_words::{Call, Command, Drilling, WordsError, answers_are_one, read};
use program_ends::say;
use proof_checker::CheckError;
use shex_inputs::{Refusal, inputs_are_one};
use shex_io::{Files, Sink};
use std::alloc::Global;
use wide_pairs::laws::none_is_wide;

/// Says what is wrong with the words, unless memory ran out, and gives the status.
fn refuse<S: Sink>(alloc: Global, error: WordsError<'_>, sink: &mut S) -> u8
    ensures { RefusesWords error.entry (S.got sink.old) (S.got sink.new) (S.faults sink.old) (S.faults sink.new) result }
{
    match error {
        WordsError::Memory => 8,
        error => say(report::words(alloc, error), 2, sink),
    }
}

/// Says what stops a command, unless memory ran out, and gives the status.
fn say_stop<S: Sink>(alloc: Global, command: &Command<'_>, stop: &Stop, sink: &mut S) -> u8
    ensures { SaysStop (command_of command.now) stop.now (sink_seen S.got S.faults sink.old sink.new) result }
{
    match stop {
        Stop::Refused(refusal) => {
            say(
                report::refusal(alloc, command, refusal),
                refusal.status(),
                sink,
            )
        }
        Stop::Failed(file) => say(report::failed(alloc, command, *file), 5, sink),
        Stop::Memory => 8,
    }
}

/// Answers a command, or says why there is no answer, and gives the status.
fn end_command<F: Files, O: Sink, E: Sink>(
    alloc: Global,
    command: &Command<'_>,
    files: &mut F,
    out: &mut O,
    err: &mut E,
) -> u8
    requires { IsFit (command_of command.now) }
    ensures { (words : List Text) → IsAsked words (command_of command.now) → Ends
        words
        (files_seen F.told F.faults F.blame F.act files.old files.new)
        (sink_seen O.got O.faults out.old out.new)
        (sink_seen E.got E.faults err.old err.new)
        result }
{
    match respond(alloc, files, command) {
        Ok(response) => response.print(out, err),
        Err(stop) => {
            let status = say_stop(alloc, command, &stop, err);
            drop(stop);
            status
        }
    }
}

/// Says what stops a drill, unless memory ran out, and gives the status.
fn say_drill_stop<S: Sink>(alloc: Global, drilling: &Drilling<'_>, stop: &Stop, sink: &mut S) -> u8
    requires { MayStopDrill (drill_of drilling.now) stop.now }
    ensures { SaysDrillStop (drill_of drilling.now) stop.now (sink_seen S.got S.faults sink.old sink.new) result }
{
    match stop {
        Stop::Refused(_) => unreachable!(),
        Stop::Failed(_) => say(report::unstored(alloc, drilling), 5, sink),
        Stop::Memory => 8,
    }
}

/// Answers a drill, or says that its proof is not stored, and gives the status.
fn end_drill<F: Files, O: Sink, E: Sink>(
    alloc: Global,
    drilling: &Drilling<'_>,
    files: &mut F,
    out: &mut O,
    err: &mut E,
) -> u8
    requires { (1 ≤ drilling.now.items) × (drilling.now.items ≤ max_items) }
    ensures { (words : List Text) → IsDrill words (drill_of drilling.now) → Ends
        words
        (files_seen F.told F.faults F.blame F.act files.old files.new)
        (sink_seen O.got O.faults out.old out.new)
        (sink_seen E.got E.faults err.old err.new)
        result }
{
    match drill(alloc, files, drilling) {
        Ok(response) => response.print(out, err),
        Err(stop) => {
            let status = say_drill_stop(alloc, drilling, &stop, err);
            drop(stop);
            status
        }
    }
}

/// Answers what the words ask, or says why there is no answer, and gives the status.
fn end<F: Files, O: Sink, E: Sink>(
    alloc: Global,
    words: &[String],
    files: &mut F,
    out: &mut O,
    err: &mut E,
) -> u8
    ensures { Ends
        (map string_bytes words.now)
        (files_seen F.told F.faults F.blame F.act files.old files.new)
        (sink_seen O.got O.faults out.old out.new)
        (sink_seen E.got E.faults err.old err.new)
        result }
{
    match read(alloc, words) {
        Ok(Call::Files(command)) => end_command(alloc, &command, files, out, err),
        Ok(Call::Drill(drilling)) => end_drill(alloc, &drilling, files, out, err),
        Err(error) => refuse(alloc, error, err),
    }
}

/// Answers what the words ask.
///
/// `validate --schema F --data F --map F [--proof F] [--budget N] [--schema-base I] [--data-base I] [IRI=FILE ..]` answers each
/// association of the shape map over the schema and the data (ShEx 2.1, section 5.2), and prints a result shape map to `out`
/// (ShapeMap Structure and Language, section 4). With `--proof` it first stores a proof of the answers under that name, which
/// names the schema's files and the data file by their digests.
///
/// `check --schema F --data F --proof F [--schema-base I] [--data-base I] [IRI=FILE ..]` asks whether the proof in the file of
/// that name is current for these files and accepted, and prints its claims as a result shape map.
///
/// `upgrade --schema F --data F --proof F --to F [--schema-base I] [--data-base I] [IRI=FILE ..]` does the same, and where the
/// proof is accepted it first stores it in format 2 under the name of `--to`: its own bytes where they are of that format, and
/// else the same nodes, sections and claims behind a head that names these files and brings the strata of the schema.
///
/// `drill N [--proof F]` answers the map of made inputs with N items, from 1 to 100,000, checks the proof of the answers, and
/// prints how many items are conformant and how many are not. With `--proof` it first stores the proof under that name.
///
/// Words, inputs or a proof that are refused, and a file that is not fetched or stored, are told by one line on `err`, unless
/// memory ran out. N of `--budget` is the greatest Width that is looked into, from 1 to 1,099,511,627,776, and 1,048,576 where
/// none is given.
///
/// The status is 0 where each association of `validate` is answered as it wants, or the proof is accepted, or the drill is
/// answered; 1 where some association of `validate` is not answered as it wants; 4 where some association of it has no answer,
/// since it depends on a pair that is wider than the budget, and then `err` gets a line for each such pair that the associations
/// reach; 2 where the words are refused, 3 where the inputs are refused or the table of terms cannot take up the nodes of the proof
/// that is checked, 5 where a file was not fetched or stored, 6 where the bytes of the proof are none, or it is not current or not
/// accepted, 7 where a sink failed, 8 where memory ran out.
pub fn run<F: Files, O: Sink, E: Sink>(
    alloc: Global,
    words: &[String],
    files: &mut F,
    out: &mut O,
    err: &mut E,
) -> u8
    // How a call ends, with all that it has printed and stored then. The clauses below follow from it.
    ensures ends { Ends
        (map string_bytes words.now)
        (files_seen F.told F.faults F.blame F.act files.old files.new)
        (sink_seen O.got O.faults out.old out.new)
        (sink_seen E.got E.faults err.old err.new)
        result }
    ensures statuses { IsStatus result }

    // An answer is the truth of what the files hold, by the complete typing over the graph, and the answers alone are
    // printed. Those associations alone are left out, with status 4, on which the verdicts of refinement are Unknown, so that
    // they depend on a pair whose Width is above the budget, and then each such pair that the associations reach is noted, of
    // which there is one at least.
    // The proof that is stored is accepted, its claims are the answers, and its records those of refinement; it names the
    // files by their digests, and brings the strata of the schema. The claims of a proof that is current and accepted are true,
    // and where it is to be upgraded, it is stored in format 2. The line of a drill counts the true answers to all that its texts
    // ask, as if they were files, of which there is a proof that is accepted, and which is stored where a name is given for it.
    ensures answered { IsAnswering result →
        (text notes : List ℕ)
        × IsRespondedTo (F.told files.old) (F.told files.new) (map string_bytes words.now) result text notes
        × Gains (O.got out.old) (O.got out.new) text
        × Gains (E.got err.old) (E.got err.new) notes }
    ensures answered_quietly { (result ≡ 0) ⊎ (result ≡ 1) → E.got err.new ≡ E.got err.old }
    ensures noted { result ≡ 4 → (text notes : List ℕ) →
        IsRespondedTo (F.told files.old) (F.told files.new) (map string_bytes words.now) result text notes →
        notes ≢ [] }

    // Each other status has its cause. With 2, 3, 5 and 6 its line is all that is printed, with 7 and 8 a part of what is due.
    ensures arguments { result ≡ 2 →
        (line : List ℕ)
        × IsWordsLine (map string_bytes words.now) line
        × Gains (E.got err.old) (E.got err.new) line }
    ensures refused { result ≡ 3 →
        (line : List ℕ)
        × IsRefusedBy (F.told files.old) (map string_bytes words.now) line
        × Gains (E.got err.old) (E.got err.new) line }
    ensures failed { result ≡ 5 →
        (line : List ℕ)
        × IsFailedBy
        (files_seen F.told F.faults F.blame F.act files.old files.new)
        (map string_bytes words.now) line
        × Gains (E.got err.old) (E.got err.new) line }
    ensures fault { result ≡ 5 → Rose (F.faults files.old) (F.faults files.new) }
    ensures rejected { result ≡ 6 →
        (line : List ℕ)
        × IsRejectedBy (F.told files.old) (map string_bytes words.now) line
        × Gains (E.got err.old) (E.got err.new) line }
    ensures sink_failed { result ≡ 7 →
        Rose (O.faults out.old) (O.faults out.new) ⊎ Rose (E.faults err.old) (E.faults err.new) }
    ensures nothing_out { (result ≡ 2) ⊎ ((result ≡ 3) ⊎ ((result ≡ 5) ⊎ (result ≡ 6))) →
        O.got out.new ≡ O.got out.old }
    ensures in_part { result ≡ 7 → IsPrintedInPart
        (map string_bytes words.now)
        (files_seen F.told F.faults F.blame F.act files.old files.new)
        (sink_seen O.got O.faults out.old out.new)
        (sink_seen E.got E.faults err.old err.new) }
    ensures unprinted { result ≡ 8 → MayPrintInPart
        (map string_bytes words.now)
        (files_seen F.told F.faults F.blame F.act files.old files.new)
        (sink_seen O.got O.faults out.old out.new)
        (sink_seen E.got E.faults err.old err.new) }

    // What is stored: nothing where the words, the inputs or the proof are refused or a file could not be fetched, the proof or
    // a part of it where the call is interrupted, the whole proof where a sink alone failed, and under no other name anything.
    ensures unstored { (result ≡ 2) ⊎ ((result ≡ 3) ⊎ (result ≡ 6)) → F.told files.new ≡ F.told files.old }
    ensures unfetched { result ≡ 5 → F.act files.new ≡ Acts.Fetch → F.told files.new ≡ F.told files.old }
    ensures stored_in_part { IsInterrupted result →
        IsPartlyStored (F.told files.old) (F.told files.new) (map string_bytes words.now) }
    ensures stored_whole { (contents : List ℕ → Option (List ℕ)) (c : Asking) (map_name name : Text) (budget : ℕ) →
        F.told files.old ≡ Some contents → IsAsked (map string_bytes words.now) c →
        IsToValidate c map_name (Some name) budget → AreTaken (F.told files.old) c →
        result ≡ 7 → ¬ Rose (F.faults files.old) (F.faults files.new) →
        IsWhollyStored (F.told files.old) (F.told files.new) c name }
    ensures upgraded_whole { (contents : List ℕ → Option (List ℕ)) (c : Asking) (name : Text) (h : Held) (bytes : List ℕ) (terms : List Term) (answers : List Answer) →
        F.told files.old ≡ Some contents → IsAsked (map string_bytes words.now) c → IsToStore c name →
        IsGiven (F.told files.old) c h bytes → Accepted h bytes terms answers →
        result ≡ 7 → ¬ Rose (F.faults files.old) (F.faults files.new) →
        IsWhollyUpgraded (F.told files.old) (F.told files.new) c name }
    ensures drilled_whole { (d : Drill) (name : Text) →
        IsDrill (map string_bytes words.now) d → d.proof ≡ Some name →
        result ≡ 7 → ¬ Rose (F.faults files.old) (F.faults files.new) →
        IsDrillWhollyStored (F.told files.old) (F.told files.new) d name }
    ensures told { KeepsTold (F.told files.old) (F.told files.new) (map string_bytes words.now) }

    // Where contents are told, words and files decide how the call ends, but for faults and want of memory.
    ensures unasked { (f : Fault) → IsFault (map string_bytes words.now) f →
        (result ≡ 2) ⊎ ((result ≡ 7) ⊎ (result ≡ 8)) }
    ensures takes { (contents : List ℕ → Option (List ℕ)) (c : Asking) →
        F.told files.old ≡ Some contents → IsAsked (map string_bytes words.now) c →
        AreTaken (F.told files.old) c → Concludes c.task result ⊎ IsInterrupted result }
    ensures accepts { (contents : List ℕ → Option (List ℕ)) (c : Asking) (h : Held) (bytes : List ℕ) (terms : List Term) (answers : List Answer) →
        F.told files.old ≡ Some contents → IsAsked (map string_bytes words.now) c →
        IsGiven (F.told files.old) c h bytes → Accepted h bytes terms answers → (result ≡ 0) ⊎ IsInterrupted result }
    ensures rejects { (contents : List ℕ → Option (List ℕ)) (c : Asking) (rejection : CheckError) →
        F.told files.old ≡ Some contents → IsAsked (map string_bytes words.now) c →
        IsRejected (F.told files.old) c rejection → (result ≡ 6) ⊎ IsInterrupted result }
    ensures refuses { (contents : List ℕ → Option (List ℕ)) (c : Asking) (refusal : Refusal) →
        F.told files.old ≡ Some contents → IsAsked (map string_bytes words.now) c →
        IsRefused (F.told files.old) c refusal → (result ≡ 3) ⊎ IsInterrupted result }
    ensures fills { (contents : List ℕ → Option (List ℕ)) (c : Asking) →
        F.told files.old ≡ Some contents → IsAsked (map string_bytes words.now) c →
        IsFull (F.told files.old) c → (result ≡ 3) ⊎ IsInterrupted result }
    ensures misses { (contents : List ℕ → Option (List ℕ)) (c : Asking) (file : File) →
        F.told files.old ≡ Some contents → IsAsked (map string_bytes words.now) c →
        IsAbsent (F.told files.old) c file → IsInterrupted result }
    ensures completes { (contents : List ℕ → Option (List ℕ)) (c : Asking) →
        F.told files.old ≡ Some contents → IsAsked (map string_bytes words.now) c →
        AreTaken (F.told files.old) c → ¬ Rose (F.faults files.old) (F.faults files.new) →
        ¬ Rose (O.faults out.old) (O.faults out.new) → ¬ Rose (E.faults err.old) (E.faults err.new) →
        Concludes c.task result ⊎ (result ≡ 8) }

    // A drill is answered, but for a fault and want of memory.
    ensures drills { (d : Drill) → IsDrill (map string_bytes words.now) d → (result ≡ 0) ⊎ IsInterrupted result }

    // Faults that came are said.
    ensures files_fault { F.faults files.old < F.faults files.new → IsInterrupted result }
    ensures sink_fault { (O.faults out.old < O.faults out.new) ⊎ (E.faults err.old < E.faults err.new) →
        result ≡ 7 }
{
    // The laws by which words and files say one thing, and pairs without a line are within the budget.
    answers_are_one();
    inputs_are_one();
    none_is_wide();
    end(alloc, words, files, out, err)
}
