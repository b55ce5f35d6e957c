//! What answers a command: the text that is due, and what is stored before it is printed.

ghost use Rattle.std.specs.Prelude.{◌≡◌, All, Some, IsSome, IfErr, IfOk, IfSome, OnErr, OnOk, is_some, true};
ghost use Rattle.graph_index.specs.Laws.{IsOfTable};
ghost use Rattle.std.specs.Str.{IsUtf8};
ghost use Rattle.shex_io.specs.Files.{Holds, HoldsPart, KeepsOthers};
ghost use Rattle.shex_io.specs.declared.files.Act.TheVariants as Acts;
ghost use Rattle.iri_resolve.specs.Reference.{scheme_of};
ghost use Rattle.rdf_lex.specs.Prefixes.{base_of};
ghost use Rattle.command_words.specs.Lent.{command_of};
ghost use Rattle.command_words.specs.declared.command.Command.TheVariants as Lent;
ghost use Rattle.schema_tree.specs.Loaded.{IsLoaded};
ghost use Rattle.proof_file.specs.declared.head.Digests.{Digests as FilesDigests};
ghost use Rattle.shex_inputs.specs.Held.{HasTaken, IsTaken, held_by, wants_digests};
ghost use Rattle.shex_run.specs.Endings.{IsResponse};
ghost use Rattle.shex_run.specs.Ready.{IsReply, has_proof};
ghost use Rattle.shex_run.specs.Statuses.{IsAnswering};
ghost use Rattle.shex_run.specs.Stopping.{Explains, FaultsAs, IsFit, LeavesStored, ProofStops};
ghost use Rattle.shex_run.specs.Tasks.{inputs_of};
ghost use Rattle.shex_run.specs.declared.stop.File.TheVariants as Files;

use crate::checking::confirm;
use crate::deciding::{Decided, decide};
use crate::head::head_if;
use crate::stop::{File, Stop, stop_of};
use crate::upgrading::{Upgraded, confirm_newest};
use call_ends::Response;
use command_words::{Checking, Command, Upgrading, Validation};
use data_reader::data_have_lines;
use input_names::bases_are_lines;
use proof_file::head::Digests;
use proof_file::write::write;
use schema_tree::laws::width_is_one;
use shape_map::laws::map_has_lines;
use shex_inputs::{Holding, Taken, Wanted, labels_have_lines, read_holding, read_map};
use shex_io::{FetchError, Files, Sink, StoreError};
use std::alloc::Global;

/// The bytes of the proof's file.
fn fetch_proof<F: Files>(alloc: Global, files: &mut F, name: &str) -> Result<Vec<u8>, Stop>
    ensures bytes { IfOk result (λ bytes. Holds (F.told files.old) name.now (Some bytes.items)) }
    ensures stops { IfErr result (ProofStops Files.Proof name.now Acts.Fetch (F.faults files.old) (F.faults files.new) (F.blame files.new) (F.act files.new)) }
    ensures faults_stay { OnOk result (F.faults files.new ≡ F.faults files.old) }
    ensures told_stays { F.told files.new ≡ F.told files.old }
{
    match files.fetch(alloc, name, u64::MAX) {
        Ok(bytes) => Ok(bytes),
        Err(FetchError::Failed) => Err(Stop::Failed(File::Proof)),
        Err(FetchError::Long) => unreachable!(),
        Err(FetchError::Memory) => Err(Stop::Memory),
    }
}

/// Stores the text of a proof in this file, which has this name. It fails as `Failed` with the file, and as `Memory`; then the file
/// may hold a beginning of the text.
pub fn store<F: Files>(files: &mut F, file: File, name: &str, bytes: &[u8]) -> Result<(), Stop>
    ensures holds { OnOk result (Holds (F.told files.new) name.now (Some bytes.now)) }
    ensures part { OnErr result (HoldsPart (F.told files.old) (F.told files.new) name.now bytes.now) }
    ensures others { KeepsOthers (F.told files.old) (F.told files.new) name.now }
    ensures stops { IfErr result (ProofStops file name.now Acts.Store (F.faults files.old) (F.faults files.new) (F.blame files.new) (F.act files.new)) }
    ensures faults_stay { OnOk result (F.faults files.new ≡ F.faults files.old) }
{
    match files.store(name, bytes) {
        Ok(()) => Ok(()),
        Err(StoreError::Failed) => Err(Stop::Failed(file)),
        Err(StoreError::Memory) => Err(Stop::Memory),
    }
}

/// What the types of two texts tell contracts of them.
fn are_texts(schema_base: &str, data_base: &str)
    ensures schema { IsUtf8 schema_base.now }
    ensures data_file { IsUtf8 data_base.now }
{}

/// The answers to the map of `validate`, with their proof where there are digests for its head.
pub fn decide_map<F: Files>(
    alloc: Global,
    files: &mut F,
    holding: &mut Holding,
    digests: Option<Digests>,
    validation: &Validation<'_>,
) -> Result<Decided, Stop>
    requires taken { HasTaken (F.told files.old) (inputs_of (command_of (Lent.Validate validation.now))) (record { holding = holding.old; files = digests }) }
    requires fit { IsFit (command_of (Lent.Validate validation.now)) }
    requires scheme { IsSome (scheme_of (base_of holding.old.names)) }
    requires labels { IsSome (scheme_of (base_of holding.old.labels)) }
    requires loaded { IsLoaded holding.old.schema }
    requires of_table { All (IsOfTable holding.old.terms) holding.old.graph.triples }
    ensures decided { IfOk result (IsReply (F.told files.old) (command_of (Lent.Validate validation.now)) validation.now.budget (is_some digests)) }
    ensures cause { IfErr result (Explains (F.told files.old) (command_of (Lent.Validate validation.now))) }
    ensures faults { IfErr result (FaultsAs (command_of (Lent.Validate validation.now)) (F.faults files.old) (F.faults files.new) (F.blame files.new) (F.act files.new)) }
    ensures stored { IfErr result (LeavesStored (F.told files.old) (F.told files.new) (command_of (Lent.Validate validation.now))) }
    ensures faults_stay { OnOk result (F.faults files.new ≡ F.faults files.old) }
    ensures told_stays { F.told files.new ≡ F.told files.old }
{
    // The laws by which the nodes and the targets of a map can stand in the lines of a proof, and a node without triples has an
    // answer.
    data_have_lines();
    map_has_lines();
    bases_are_lines();
    labels_have_lines();
    width_is_one();
    are_texts(validation.inputs.schema_base, validation.inputs.data_base);
    let head = head_if(alloc, holding, digests)?;
    let asked = match read_map(alloc, files, &validation.inputs, validation.map, holding) {
        Ok(asked) => asked,
        Err(error) => return Err(stop_of(error)),
    };
    // The length of a table tells contracts that it is within the limit.
    let _count = holding.terms.len();
    match decide(alloc, holding, asked, validation.budget, head) {
        Ok(decided) => Ok(decided),
        Err(_) => Err(Stop::Memory),
    }
}

/// What is due for answers, whose proof is stored where one is asked for.
fn keep<F: Files>(
    alloc: Global,
    files: &mut F,
    validation: &Validation<'_>,
    decided: Decided,
) -> Result<Response, Stop>
    requires { IsReply (F.told files.old) (command_of (Lent.Validate validation.now)) validation.now.budget (is_some validation.now.proof) decided }
    ensures response { IfOk result (λ r. IsResponse (F.told files.old) (F.told files.new) (command_of (Lent.Validate validation.now)) r.status r.text.items r.notes.items) }
    ensures low { IfOk result (λ r. IsAnswering r.status) }
    ensures cause { IfErr result (Explains (F.told files.old) (command_of (Lent.Validate validation.now))) }
    ensures faults { IfErr result (FaultsAs (command_of (Lent.Validate validation.now)) (F.faults files.old) (F.faults files.new) (F.blame files.new) (F.act files.new)) }
    ensures stored { IfErr result (LeavesStored (F.told files.old) (F.told files.new) (command_of (Lent.Validate validation.now))) }
    ensures faults_stay { OnOk result (F.faults files.new ≡ F.faults files.old) }
{
    let Decided {
        status,
        answers: _,
        text,
        notes,
        proof,
    } = decided;
    let response = Response {
        status,
        text,
        notes,
    };
    let Some(name) = validation.proof else {
        return Ok(response);
    };
    let Some(proof) = proof else {
        unreachable!();
    };
    let Ok(bytes) = write(alloc, &proof) else {
        return Err(Stop::Memory);
    };
    store(files, File::Proof, name, bytes.as_slice())?;
    Ok(response)
}

/// The answers to `validate`, whose proof is stored where one is asked for.
fn validate<F: Files>(
    alloc: Global,
    files: &mut F,
    holding: &mut Holding,
    digests: Option<Digests>,
    validation: &Validation<'_>,
) -> Result<Response, Stop>
    requires taken { HasTaken (F.told files.old) (inputs_of (command_of (Lent.Validate validation.now))) (record { holding = holding.old; files = digests }) }
    requires digests { is_some digests ≡ is_some validation.now.proof }
    requires fit { IsFit (command_of (Lent.Validate validation.now)) }
    requires scheme { IsSome (scheme_of (base_of holding.old.names)) }
    requires labels { IsSome (scheme_of (base_of holding.old.labels)) }
    requires loaded { IsLoaded holding.old.schema }
    requires of_table { All (IsOfTable holding.old.terms) holding.old.graph.triples }
    ensures response { IfOk result (λ r. IsResponse (F.told files.old) (F.told files.new) (command_of (Lent.Validate validation.now)) r.status r.text.items r.notes.items) }
    ensures low { IfOk result (λ r. IsAnswering r.status) }
    ensures cause { IfErr result (Explains (F.told files.old) (command_of (Lent.Validate validation.now))) }
    ensures faults { IfErr result (FaultsAs (command_of (Lent.Validate validation.now)) (F.faults files.old) (F.faults files.new) (F.blame files.new) (F.act files.new)) }
    ensures stored { IfErr result (LeavesStored (F.told files.old) (F.told files.new) (command_of (Lent.Validate validation.now))) }
    ensures faults_stay { OnOk result (F.faults files.new ≡ F.faults files.old) }
{
    let decided = decide_map(alloc, files, holding, digests, validation)?;
    keep(alloc, files, validation, decided)
}

/// The claims of the proof that `check` is given, where it is accepted.
fn check<F: Files>(
    alloc: Global,
    files: &mut F,
    holding: &mut Holding,
    digests: &Digests,
    checking: &Checking<'_>,
) -> Result<Response, Stop>
    requires taken { IsTaken (F.told files.old) (inputs_of (command_of (Lent.Check checking.now))) (held_by holding.old digests.now) }
    requires loaded { IsLoaded holding.old.schema }
    requires of_table { All (IsOfTable holding.old.terms) holding.old.graph.triples }
    ensures response { IfOk result (λ r. IsResponse (F.told files.old) (F.told files.new) (command_of (Lent.Check checking.now)) r.status r.text.items r.notes.items) }
    ensures low { IfOk result (λ r. IsAnswering r.status) }
    ensures cause { IfErr result (Explains (F.told files.old) (command_of (Lent.Check checking.now))) }
    ensures faults { IfErr result (FaultsAs (command_of (Lent.Check checking.now)) (F.faults files.old) (F.faults files.new) (F.blame files.new) (F.act files.new)) }
    ensures stored { IfErr result (LeavesStored (F.told files.old) (F.told files.new) (command_of (Lent.Check checking.now))) }
    ensures faults_stay { OnOk result (F.faults files.new ≡ F.faults files.old) }
{
    let bytes = fetch_proof(alloc, files, checking.proof)?;
    let text = confirm(alloc, holding, digests, bytes.as_slice())?;
    Ok(Response {
        status: 0,
        text,
        notes: Vec::new(alloc),
    })
}

/// The claims of the proof that `upgrade` is given, where it is accepted. The proof is stored in format 2.
fn upgrade<F: Files>(
    alloc: Global,
    files: &mut F,
    holding: &mut Holding,
    digests: &Digests,
    upgrading: &Upgrading<'_>,
) -> Result<Response, Stop>
    requires taken { IsTaken (F.told files.old) (inputs_of (command_of (Lent.Upgrade upgrading.now))) (held_by holding.old digests.now) }
    requires loaded { IsLoaded holding.old.schema }
    requires of_table { All (IsOfTable holding.old.terms) holding.old.graph.triples }
    ensures response { IfOk result (λ r. IsResponse (F.told files.old) (F.told files.new) (command_of (Lent.Upgrade upgrading.now)) r.status r.text.items r.notes.items) }
    ensures low { IfOk result (λ r. IsAnswering r.status) }
    ensures cause { IfErr result (Explains (F.told files.old) (command_of (Lent.Upgrade upgrading.now))) }
    ensures faults { IfErr result (FaultsAs (command_of (Lent.Upgrade upgrading.now)) (F.faults files.old) (F.faults files.new) (F.blame files.new) (F.act files.new)) }
    ensures stored { IfErr result (LeavesStored (F.told files.old) (F.told files.new) (command_of (Lent.Upgrade upgrading.now))) }
    ensures faults_stay { OnOk result (F.faults files.new ≡ F.faults files.old) }
{
    let bytes = fetch_proof(alloc, files, upgrading.proof)?;
    let Upgraded { text, proof } = confirm_newest(alloc, holding, digests, bytes)?;
    store(files, File::Upgraded, upgrading.to, proof.as_slice())?;
    Ok(Response {
        status: 0,
        text,
        notes: Vec::new(alloc),
    })
}

/// What is wanted of the files of a command: digests, where a proof is stored or checked.
fn wanted_of(with_proof: bool) -> Wanted
    ensures { wants_digests result ≡ with_proof }
{
    if with_proof {
        Wanted::Digests
    } else {
        Wanted::Contents
    }
}

/// Whether a command stores a proof or checks one.
fn has_proof(command: &Command<'_>) -> bool
    ensures { result ≡ has_proof command.now }
{
    match command {
        Command::Validate(validation) => validation.proof.is_some(),
        Command::Check(_) => true,
        Command::Upgrade(_) => true,
    }
}

/// What is taken of the files of the schema and the data file of a command.
fn hold<F: Files>(alloc: Global, files: &mut F, command: &Command<'_>) -> Result<Taken, Stop>
    requires { IsFit (command_of command.now) }
    ensures taken { IfOk result (HasTaken (F.told files.old) (inputs_of (command_of command.now))) }
    ensures digests { IfOk result (λ t. is_some t.files ≡ has_proof command.now) }
    ensures loaded { IfOk result (λ t. IsLoaded t.holding.schema) }
    ensures scheme { IfOk result (λ t. IsSome (scheme_of (base_of t.holding.names))) }
    ensures labels { IfOk result (λ t. IsSome (scheme_of (base_of t.holding.labels))) }
    ensures of_table { IfOk result (λ t. All (IsOfTable t.holding.terms) t.holding.graph.triples) }
    ensures cause { IfErr result (Explains (F.told files.old) (command_of command.now)) }
    ensures faults { IfErr result (FaultsAs (command_of command.now) (F.faults files.old) (F.faults files.new) (F.blame files.new) (F.act files.new)) }
    ensures stored { IfErr result (LeavesStored (F.told files.old) (F.told files.new) (command_of command.now)) }
    ensures faults_stay { OnOk result (F.faults files.new ≡ F.faults files.old) }
    ensures told_stays { F.told files.new ≡ F.told files.old }
{
    let wanted = wanted_of(has_proof(command));
    match read_holding(alloc, files, command.inputs(), wanted) {
        Ok(taken) => Ok(taken),
        Err(error) => Err(stop_of(error)),
    }
}

/// The digests that there are.
fn kept(digests: Option<Digests>) -> Digests
    requires { is_some digests ≡ true }
    ensures { (files : FilesDigests) → IfSome digests (λ d. d ≡ files) → result ≡ files }
{
    match digests {
        Some(digests) => digests,
        None => unreachable!(),
    }
}

/// What answers a command over what its files hold, or why nothing does. A proof that is asked for is stored before.
fn answer<F: Files>(
    alloc: Global,
    files: &mut F,
    holding: &mut Holding,
    digests: Option<Digests>,
    command: &Command<'_>,
) -> Result<Response, Stop>
    requires taken { HasTaken (F.told files.old) (inputs_of (command_of command.now)) (record { holding = holding.old; files = digests }) }
    requires digests { is_some digests ≡ has_proof command.now }
    requires fit { IsFit (command_of command.now) }
    requires scheme { IsSome (scheme_of (base_of holding.old.names)) }
    requires labels { IsSome (scheme_of (base_of holding.old.labels)) }
    requires loaded { IsLoaded holding.old.schema }
    requires of_table { All (IsOfTable holding.old.terms) holding.old.graph.triples }
    ensures response { IfOk result (λ r. IsResponse (F.told files.old) (F.told files.new) (command_of command.now) r.status r.text.items r.notes.items) }
    ensures low { IfOk result (λ r. IsAnswering r.status) }
    ensures cause { IfErr result (Explains (F.told files.old) (command_of command.now)) }
    ensures faults { IfErr result (FaultsAs (command_of command.now) (F.faults files.old) (F.faults files.new) (F.blame files.new) (F.act files.new)) }
    ensures stored { IfErr result (LeavesStored (F.told files.old) (F.told files.new) (command_of command.now)) }
    ensures faults_stay { OnOk result (F.faults files.new ≡ F.faults files.old) }
{
    match command {
        Command::Validate(validation) => validate(alloc, files, holding, digests, validation),
        Command::Check(checking) => {
            let digests = kept(digests);
            check(alloc, files, holding, &digests, checking)
        }
        Command::Upgrade(upgrading) => {
            let digests = kept(digests);
            upgrade(alloc, files, holding, &digests, upgrading)
        }
    }
}

/// What answers a command, or why nothing does. A proof that is asked for is stored before.
pub fn respond<F: Files>(
    alloc: Global,
    files: &mut F,
    command: &Command<'_>,
) -> Result<Response, Stop>
    requires { IsFit (command_of command.now) }
    ensures response { IfOk result (λ r. IsResponse (F.told files.old) (F.told files.new) (command_of command.now) r.status r.text.items r.notes.items) }
    ensures low { IfOk result (λ r. IsAnswering r.status) }
    ensures cause { IfErr result (Explains (F.told files.old) (command_of command.now)) }
    ensures faults { IfErr result (FaultsAs (command_of command.now) (F.faults files.old) (F.faults files.new) (F.blame files.new) (F.act files.new)) }
    ensures stored { IfErr result (LeavesStored (F.told files.old) (F.told files.new) (command_of command.now)) }
    ensures faults_stay { OnOk result (F.faults files.new ≡ F.faults files.old) }
{
    let Taken {
        mut holding,
        files: digests,
    } = hold(alloc, files, command)?;
    let response = answer(alloc, files, &mut holding, digests, command);
    // What is held is dropped by one call, which is proved in less time.
    drop(holding);
    response
}
