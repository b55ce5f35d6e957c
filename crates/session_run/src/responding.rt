//! What answers the words: the answers to the questions of a script.

ghost use Rattle.std.specs.Prelude.{List, ◌≡◌, ◌≤◌, ◌<◌, ◌-◌, ◌^◌, [], All, IfErr, IfOk, OnOk};
ghost use Rattle.command_words.specs.Requests.{max_budget};
ghost use Rattle.graph_index.specs.Laws.{IsOfTable};
ghost use Rattle.lists.specs.Distinct.{AreDistinct};
ghost use Rattle.proof_file.specs.declared.head.Digests.{Digests};
ghost use Rattle.shex_io.specs.Fetching.{IsFile};
ghost use Rattle.schema_tree.specs.Edges.{IsStratum};
ghost use Rattle.schema_tree.specs.Loaded.{IsLoaded};
ghost use Rattle.shex_inputs.specs.Held.{held_by};
ghost use Rattle.tool_words.specs.Lent.{editing_of};
ghost use Rattle.session_run.specs.Outcomes.{AreAnswers, AreHeld, EndsAs, HoldsScript};
ghost use Rattle.session_run.specs.Replies.{Reply};
ghost use Rattle.session_run.specs.Running.{Says};
ghost use Rattle.session_run.specs.Script.{answered};
ghost use Rattle.session_run.specs.Stopping.{Explains, FaultsAs, FetchStops, IsFit, RunStops};

use crate::running::run;
use crate::said::Said;
use crate::stop::{File, Refusal, Stop};
use session_script::{Command, read_script};
use shex_inputs::{Holding, Taken, Wanted, read_holding};
use shex_io::{FetchError, Files};
use std::alloc::{AllocError, Global};
use tool_words::Editing;
use typing_session::Session;

/// What the files of the schema and the data file hold.
fn hold<F: Files>(alloc: Global, files: &mut F, editing: &Editing<'_>) -> Result<Holding, Stop>
    requires { IsFit (editing_of editing.now) }
    ensures held { IfOk result (λ h. (digests : Digests) × AreHeld (F.told files.old) (editing_of editing.now) (held_by h digests)) }
    ensures loaded { IfOk result (λ h. IsLoaded h.schema) }
    ensures strata { IfOk result (λ h. IsStratum h.schema h.strata) }
    ensures of_table { IfOk result (λ h. All (IsOfTable h.terms) h.graph.triples) }
    ensures cause { IfErr result (Explains (F.told files.old) (editing_of editing.now)) }
    ensures faults { IfErr result (FaultsAs (editing_of editing.now) (F.faults files.old) (F.faults files.new) (F.blame files.new) (F.act files.new)) }
    ensures faults_stay { OnOk result (F.faults files.new ≡ F.faults files.old) }
    ensures told_stays { F.told files.new ≡ F.told files.old }
{
    let Taken { holding, .. } = read_holding(alloc, files, &editing.inputs, Wanted::Contents)?;
    Ok(holding)
}

/// The bytes of the script's file, within the limit.
fn fetch_script<F: Files>(alloc: Global, files: &mut F, name: &str) -> Result<Vec<u8>, Stop>
    ensures bytes { IfOk result (λ bytes. IsFile (F.told files.old) name.now bytes.items) }
    ensures stops { IfErr result (FetchStops (F.told files.old) name.now (F.faults files.old) (F.faults files.new) (F.blame files.new) (F.act files.new)) }
    ensures faults_stay { OnOk result (F.faults files.new ≡ F.faults files.old) }
    ensures told_stays { F.told files.new ≡ F.told files.old }
{
    match shex_io::fetch(alloc, files, name) {
        Ok(bytes) => Ok(bytes),
        Err(FetchError::Failed) => Err(Stop::Failed(File::Script)),
        Err(FetchError::Long) => Err(Stop::Refused(Refusal::Size)),
        Err(FetchError::Memory) => Err(Stop::Memory),
    }
}

/// The commands of the script, where the other files hold the schema and the data.
fn read_commands<F: Files>(
    alloc: Global,
    files: &mut F,
    editing: &Editing<'_>,
    holding: &Holding,
) -> Result<Vec<Command>, Stop>
    requires { (digests : Digests) × AreHeld (F.told files.old) (editing_of editing.now) (held_by holding.now digests) }
    ensures script { IfOk result (λ v. HoldsScript (F.told files.old) (editing_of editing.now) v.items) }
    ensures cause { IfErr result (Explains (F.told files.old) (editing_of editing.now)) }
    ensures faults { IfErr result (FaultsAs (editing_of editing.now) (F.faults files.old) (F.faults files.new) (F.blame files.new) (F.act files.new)) }
    ensures faults_stay { OnOk result (F.faults files.new ≡ F.faults files.old) }
    ensures told_stays { F.told files.new ≡ F.told files.old }
{
    let bytes = fetch_script(alloc, files, editing.script)?;
    Ok(read_script(alloc, bytes.as_slice())?)
}

/// A session over what is held, whose graph is sealed.
fn session_of(alloc: Global, holding: Holding, budget: u64) -> Result<Session, AllocError>
    requires loaded { IsLoaded holding.schema }
    requires strata { IsStratum holding.schema holding.strata }
    requires of_table { All (IsOfTable holding.terms) holding.graph.triples }
    requires budget { budget < 2 ^ 64 - 1 }
    ensures seen { IfOk result (λ x. x ≡ record { graph = holding.graph.triples; terms = holding.terms; schema = holding.schema; strata = holding.strata; budget = budget; kept = [] }) }
    ensures distinct { OnOk result (AreDistinct holding.graph.triples) }
{
    let Holding {
        terms,
        schema,
        strata,
        mut graph,
        ..
    } = holding;
    // The length of a graph tells contracts that its triples are distinct.
    let _held = graph.len();
    graph.seal(&terms)?;
    Ok(Session::new(alloc, schema, graph, terms, strata, budget))
}

/// The answers to the questions of a script over what is held.
fn answer(
    alloc: Global,
    holding: Holding,
    budget: u64,
    commands: Vec<Command>,
) -> Result<Said, Stop>
    requires loaded { IsLoaded holding.schema }
    requires strata { IsStratum holding.schema holding.strata }
    requires of_table { All (IsOfTable holding.terms) holding.graph.triples }
    requires budget { budget ≤ max_budget }
    ensures answers { (digests : Digests) → IfOk result (λ said. (replies : List Reply) ×
        EndsAs (held_by holding digests) budget commands.items (answered replies) × Says said replies) }
    ensures stops { (digests : Digests) → IfErr result (RunStops (held_by holding digests) budget commands.items) }
{
    let mut session = session_of(alloc, holding, budget)?;
    let said = run(alloc, &mut session, commands);
    // The session is dropped by one call, which is proved in less time.
    drop(session);
    Ok(said?)
}

/// The answers that are due for the words.
pub fn respond<F: Files>(alloc: Global, files: &mut F, editing: &Editing<'_>) -> Result<Said, Stop>
    requires { IsFit (editing_of editing.now) }
    ensures answers { IfOk result (λ said. (replies : List Reply) × AreAnswers (F.told files.old) (editing_of editing.now) replies × Says said replies) }
    ensures cause { IfErr result (Explains (F.told files.old) (editing_of editing.now)) }
    ensures faults { IfErr result (FaultsAs (editing_of editing.now) (F.faults files.old) (F.faults files.new) (F.blame files.new) (F.act files.new)) }
    ensures faults_stay { OnOk result (F.faults files.new ≡ F.faults files.old) }
    ensures told_stays { F.told files.new ≡ F.told files.old }
{
    let holding = hold(alloc, files, editing)?;
    match read_commands(alloc, files, editing, &holding) {
        Ok(commands) => answer(alloc, holding, editing.budget, commands),
        Err(stop) => {
            drop(holding);
            Err(stop)
        }
    }
}
