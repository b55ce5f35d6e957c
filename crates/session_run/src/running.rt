//! The commands of a script, one after the other.

ghost use Rattle.std.specs.Prelude.{ℕ, List, [], ◌∷◌, ◌++◌, ◌≡◌, ◌<◌, ◌≤◌, ◌||◌, IfErr, IfOk, OnOk, Some, length, slice_get};
ghost use Rattle.graph_index.specs.Loading.{IsNumbered, terms_of};
ghost use Rattle.lists.specs.Additions.{Adds, AddsAll};
ghost use Rattle.lists.specs.Distinct.{AreDistinct};
ghost use Rattle.rdf_terms.specs.Tables.{max_terms};
ghost use Rattle.schema_tree.specs.Edges.{IsStratum};
ghost use Rattle.schema_tree.specs.Loaded.{IsLoaded};
ghost use Rattle.typing_session.specs.Questions.{ReachesTooMany};
ghost use Rattle.typing_session.specs.Seen.{with_terms};
ghost use Rattle.session_run.specs.Replies.{Reply, is_unknown};
ghost use Rattle.session_run.specs.Running.{FillsTable, IsDone, Keeps, SaysMore, StopsOr, state_of};
ghost use Rattle.session_run.specs.Script.{AreNotes, Edits, IsWithWithin, IsWithout, Replies, Runs, Steps, Stops, refusal_of, refused};

use crate::error::CommandError;
use crate::said::{Said, push_line};
use graph_index::loading::TermTriple;
use rdf_terms::terms::{Term, TermId, Triple};
use schema_tree::laws::{strata_are_alike, strata_are_least, typing_is_one};
use schema_tree::schema::{ExprId, Target};
use schema_tree::verdicts::Verdict;
use session_script::Command;
use std::alloc::Global;
use std::marker::Brand;
use std::sync::ledger::{Blank, Ledger};
use tally::Steps as Counter;
use typing_session::{AskError, Session};
use wide_pairs::push_lines;

/// The number of a term, which goes last in the session's table where it is new.
fn number(session: &mut Session, term: Term) -> Result<TermId, CommandError>
    ensures number { IfOk result (λ id. slice_get session.new.terms id.0 ≡ Some term) }
    ensures added { OnOk result (Adds session.old.terms term session.new.terms) }
    ensures few { OnOk result (length session.new.terms ≤ max_terms) }
    ensures stops { IfErr result (StopsOr (FillsTable session.old.terms (term ∷ []))) }
    ensures alone { session.new ≡ with_terms session.new.terms session.old }
{
    let id = session.term(term)?;
    // The length of a table tells contracts that it is within the limit.
    let _count = session.terms().len();
    Ok(id)
}

/// The numbers of the terms of a triple, which go last in the session's table where they are new.
fn number_all(session: &mut Session, triple: TermTriple) -> Result<Triple, CommandError>
    ensures takes { OnOk result (AddsAll session.old.terms (terms_of triple) session.new.terms) }
    ensures few { OnOk result (length session.new.terms ≤ max_terms) }
    ensures numbered { IfOk result (λ n. IsNumbered session.new.terms triple n) }
    ensures stops { IfErr result (StopsOr (FillsTable session.old.terms (terms_of triple))) }
    ensures alone { session.new ≡ with_terms session.new.terms session.old }
{
    let TermTriple {
        subject,
        predicate,
        object,
    } = triple;
    let s = number(session, subject)?;
    let p = number(session, predicate)?;
    let o = number(session, object)?;
    Ok(Triple { s, p, o })
}

/// Adds a triple.
fn add(session: &mut Session, triple: TermTriple) -> Result<(), CommandError>
    requires distinct { AreDistinct session.old.graph }
    ensures edits { OnOk result (Edits IsWithWithin (state_of session.old) triple (state_of session.new)) }
    ensures stops { IfErr result (StopsOr (Stops session.old.schema session.old.strata session.old.budget (state_of session.old) (Command.Add triple))) }
    ensures keeps { Keeps session.old session.new }
{
    let numbers = number_all(session, triple)?;
    session.add(numbers)?;
    Ok(())
}

/// Removes a triple.
fn remove(session: &mut Session, triple: TermTriple) -> Result<(), CommandError>
    requires distinct { AreDistinct session.old.graph }
    ensures edits { OnOk result (Edits IsWithout (state_of session.old) triple (state_of session.new)) }
    ensures stops { IfErr result (StopsOr (Stops session.old.schema session.old.strata session.old.budget (state_of session.old) (Command.Remove triple))) }
    ensures keeps { Keeps session.old session.new }
{
    let numbers = number_all(session, triple)?;
    session.remove(numbers)?;
    Ok(())
}

/// The error for a target that is not declared.
fn undeclared(alloc: Global, target: &Target) -> CommandError
    ensures { StopsOr (λ e. e ≡ refusal_of target.now) result }
{
    match target {
        Target::Start => CommandError::NoStart,
        Target::Label(label) => match label.try_clone(alloc) {
            Ok(label) => CommandError::Label(label),
            Err(_) => CommandError::Memory,
        },
    }
}

/// Notes a verdict on a node with an expression: where it is Unknown, with a line for each pair that the two reach and whose
/// Width is above the budget.
fn note(
    alloc: Global,
    session: &Session,
    node: TermId,
    expr: ExprId,
    verdict: Verdict,
    said: &mut Said,
) -> Result<(), AskError>
    ensures noted { OnOk result ((notes : List ℕ) × AreNotes session.now.schema (state_of session.now) session.now.budget node expr verdict notes × (said.new.notes.items ≡ said.old.notes.items ++ notes)) }
    ensures undecided { OnOk result (said.new.undecided ≡ (said.old.undecided || is_unknown verdict)) }
    ensures text { said.new.text ≡ said.old.text }
    ensures many { (result ≡ Err AskError.Pairs) → ReachesTooMany session.now.schema session.now.graph node expr }
{
    match verdict {
        Verdict::Yes | Verdict::No => Ok(()),
        Verdict::Unknown => {
            let wide = session.wide(node, expr)?;
            said.undecided = true;
            push_lines(
                alloc,
                session.terms(),
                session.budget(),
                wide.as_slice(),
                &mut said.notes,
            )?;
            Ok(())
        }
    }
}

/// Answers a question over the graph as it is.
fn ask<L: Ledger>(
    alloc: Global,
    session: &mut Session,
    node: Term,
    target: &Target,
    steps: &mut Counter<L>,
    said: &mut Said,
) -> Result<(), CommandError>
    requires loaded { IsLoaded session.old.schema }
    requires strata { IsStratum session.old.schema session.old.strata }
    ensures replies { OnOk result ((r : Reply) × Replies session.old.schema session.old.strata session.old.budget (state_of session.old) node target.now (state_of session.new) r × SaysMore said.old (r ∷ []) said.new) }
    ensures stops { IfErr result (StopsOr (Stops session.old.schema session.old.strata session.old.budget (state_of session.old) (Command.Ask node target.now))) }
    ensures keeps { Keeps session.old session.new }
{
    // The laws by which there is a complete typing, and one alone.
    typing_is_one();
    strata_are_alike();
    strata_are_least();
    let Some(expr) = session.target(target) else {
        return Err(undeclared(alloc, target));
    };
    let node = number(session, node)?;
    let verdict = session.ask(node, expr, steps)?;
    push_line(
        alloc,
        session.terms(),
        node,
        verdict,
        target,
        &mut said.text,
    )?;
    note(alloc, session, node, expr, verdict, said)?;
    Ok(())
}

/// Runs a command.
fn step<L: Ledger>(
    alloc: Global,
    session: &mut Session,
    command: Command,
    steps: &mut Counter<L>,
    said: &mut Said,
) -> Result<(), CommandError>
    requires loaded { IsLoaded session.old.schema }
    requires strata { IsStratum session.old.schema session.old.strata }
    requires distinct { AreDistinct session.old.graph }
    ensures steps { OnOk result ((more : List Reply) × Steps session.old.schema session.old.strata session.old.budget (state_of session.old) command (state_of session.new) more × SaysMore said.old more said.new) }
    ensures stops { IfErr result (StopsOr (Stops session.old.schema session.old.strata session.old.budget (state_of session.old) command)) }
    ensures keeps { Keeps session.old session.new }
{
    match command {
        Command::Add(triple) => add(session, triple),
        Command::Remove(triple) => remove(session, triple),
        Command::Ask(node, target) => ask(alloc, session, node, &target, steps, said),
    }
}

/// Runs commands, and counts steps that nobody reads.
fn run_with<L: Ledger>(
    blank: Blank,
    alloc: Global,
    session: &mut Session,
    commands: Vec<Command>,
) -> Result<Said, CommandError>
    requires name { blank.name ≡ L.name }
    requires parts { blank.parts ≡ L.parts }
    requires some { 0 < blank.parts }
    requires loaded { IsLoaded session.old.schema }
    requires strata { IsStratum session.old.schema session.old.strata }
    requires distinct { AreDistinct session.old.graph }
    ensures done { IfOk result (IsDone session.old commands.items) }
    ensures stopped { IfErr result (StopsOr (λ e. Runs session.old.schema session.old.strata session.old.budget (state_of session.old) [] commands.items (refused e))) }
{
    let mut steps = Counter::<L>::new(blank);
    let mut said = Said::new(alloc);
    for command in commands {
        step(alloc, session, command, &mut steps, &mut said)?;
    }
    Ok(said)
}

/// The answers to the questions of a script, each over the graph that the edits before it left. The first command that is
/// refused ends the script with its error; it fails as `Memory` where memory ran out.
pub fn run(
    alloc: Global,
    session: &mut Session,
    commands: Vec<Command>,
) -> Result<Said, CommandError>
    requires loaded { IsLoaded session.old.schema }
    requires strata { IsStratum session.old.schema session.old.strata }
    requires distinct { AreDistinct session.old.graph }
    ensures done { IfOk result (IsDone session.old commands.items) }
    ensures stopped { IfErr result (StopsOr (λ e. Runs session.old.schema session.old.strata session.old.budget (state_of session.old) [] commands.items (refused e))) }
{
    run_with::<Brand>(Blank::new(1), alloc, session, commands)
}
