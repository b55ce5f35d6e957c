//! A drill: made inputs are validated, and the proof of the answers is checked.

ghost use Rattle.std.specs.Prelude.{◌≡◌, ◌≤◌, All, IfErr, IfOk, IsSome, OnOk, Some, is_some, true};
ghost use Rattle.iri_resolve.specs.Reference.{scheme_of};
ghost use Rattle.rdf_lex.specs.Prefixes.{base_of};
ghost use Rattle.graph_index.specs.Laws.{IsOfTable};
ghost use Rattle.lists.specs.Distinct.{AreDistinct};
ghost use Rattle.command_words.specs.Drills.{max_items};
ghost use Rattle.command_words.specs.Lent.{command_of, drill_of};
ghost use Rattle.command_words.specs.Requests.{default_budget};
ghost use Rattle.command_words.specs.declared.command.Command.TheVariants.{Validate};
ghost use Rattle.schema_tree.specs.Edges.{IsStratum};
ghost use Rattle.schema_tree.specs.Loaded.{IsLoaded};
ghost use Rattle.shex_drill.specs.Files.{contents_of};
ghost use Rattle.shex_inputs.specs.Held.{HasTaken};
ghost use Rattle.shex_run.specs.Drills.{IsDrilled, drill_command, drill_line, saying};
ghost use Rattle.shex_run.specs.Ready.{AreTexts, IsDrillReply, IsProofOfTexts, IsReply};
ghost use Rattle.shex_run.specs.Stopping.{DrillStops};
ghost use Rattle.shex_run.specs.Tasks.{inputs_of};
ghost use Rattle.shex_run.specs.declared.stop.Stop.TheVariants as Stops;

use crate::answers::{decide_map, store};
use crate::checking::confirm;
use crate::deciding::Decided;
use crate::stop::{File, Stop};
use call_ends::Response;
use command_words::{DEFAULT_BASE, DEFAULT_BUDGET, Drilling, Validation};
use drill_laws::{drill_is_decided, drill_is_taken};
use input_names::Inputs;
use proof_file::write::write;
use schema_tree::schema::Answer;
use shex_drill::{DATA_FILE, DrillFiles, MAP_FILE, SCHEMA_FILE, make};
use shex_inputs::{InputError, Taken, Wanted, inputs_are_one, read_holding};
use shex_io::Files;
use std::alloc::{AllocError, Global};

/// What is asked of the texts of a drill.
fn drill_validation<'a>(alloc: Global) -> Validation<'a>
    ensures { command_of (Validate result) ≡ drill_command }
{
    Validation {
        inputs: Inputs {
            schema: SCHEMA_FILE,
            data: DATA_FILE,
            schema_base: DEFAULT_BASE,
            data_base: DEFAULT_BASE,
            imports: Vec::new(alloc),
        },
        map: MAP_FILE,
        proof: None,
        budget: DEFAULT_BUDGET,
    }
}

/// What a drill comes to.
#[derive(Drop)]
struct Drilled {
    /// The line that counts the answers.
    text: Vec<u8>,
    /// The text of their proof.
    proof: Vec<u8>,
}

/// What is taken of the texts of a drill.
fn hold(alloc: Global, files: &mut DrillFiles, validation: &Validation<'_>) -> Result<Taken, Stop>
    requires asked { command_of (Validate validation.now) ≡ drill_command }
    requires texts { AreTexts (contents_of files.old) }
    ensures taken { IfOk result (HasTaken (Some (contents_of files.old)) (inputs_of drill_command)) }
    ensures digests { IfOk result (λ t. is_some t.files ≡ true) }
    ensures loaded { IfOk result (λ t. IsLoaded t.holding.schema) }
    ensures strata { IfOk result (λ t. IsStratum t.holding.schema t.holding.strata) }
    ensures distinct { IfOk result (λ t. AreDistinct t.holding.terms) }
    ensures scheme { IfOk result (λ t. IsSome (scheme_of (base_of t.holding.names))) }
    ensures labels { IfOk result (λ t. IsSome (scheme_of (base_of t.holding.labels))) }
    ensures of_table { IfOk result (λ t. All (IsOfTable t.holding.terms) t.holding.graph.triples) }
    ensures memory { IfErr result (λ s. s ≡ Stops.Memory) }
    ensures texts_stay { contents_of files.new ≡ contents_of files.old }
{
    // The law by which no text of a drill is refused.
    drill_is_taken();
    match read_holding(alloc, files, &validation.inputs, Wanted::Digests) {
        Ok(taken) => Ok(taken),
        Err(error) => match error {
            InputError::Memory => Err(Stop::Memory),
            _ => unreachable!(),
        },
    }
}

/// The answers to the map of a drill, with their proof.
fn decide_texts(
    alloc: Global,
    files: &mut DrillFiles,
    validation: &Validation<'_>,
) -> Result<Decided, Stop>
    requires asked { command_of (Validate validation.now) ≡ drill_command }
    requires texts { AreTexts (contents_of files.old) }
    ensures decided { IfOk result (IsReply (Some (contents_of files.old)) drill_command default_budget true) }
    ensures memory { IfErr result (λ s. s ≡ Stops.Memory) }
    ensures texts_stay { contents_of files.new ≡ contents_of files.old }
{
    // The law by which no text of a drill is refused.
    drill_is_taken();
    let Taken {
        mut holding,
        files: digests,
    } = hold(alloc, files, validation)?;
    let decided = decide_map(alloc, files, &mut holding, digests, validation);
    // What is held is dropped by one call, which is proved in less time; so below.
    drop(holding);
    match decided {
        Ok(decided) => Ok(decided),
        Err(stop) => match stop {
            Stop::Memory => Err(Stop::Memory),
            _ => unreachable!(),
        },
    }
}

/// Checks the proof of the answers to the map of a drill.
fn check_texts(
    alloc: Global,
    files: &mut DrillFiles,
    validation: &Validation<'_>,
    proof: &[u8],
) -> Result<(), Stop>
    requires asked { command_of (Validate validation.now) ≡ drill_command }
    requires texts { AreTexts (contents_of files.old) }
    requires proof { IsProofOfTexts (contents_of files.old) proof.now }
    ensures memory { IfErr result (λ s. s ≡ Stops.Memory) }
{
    // The law by which the texts hold one thing.
    inputs_are_one();
    let Taken {
        mut holding,
        files: digests,
    } = hold(alloc, files, validation)?;
    let Some(digests) = digests else {
        unreachable!();
    };
    let confirmed = confirm(alloc, &mut holding, &digests, proof);
    drop(holding);
    match confirmed {
        Ok(_) => Ok(()),
        Err(stop) => match stop {
            Stop::Memory => Err(Stop::Memory),
            _ => unreachable!(),
        },
    }
}

/// How many answers say this.
fn saying(answers: &[Answer], holds: bool) -> usize
    ensures { result ≡ saying holds answers.now }
{
    answers.iter().filter(|a| a.holds == holds).count()
}

/// The line for a drill with so many items.
fn line(alloc: Global, items: u32, answers: &[Answer]) -> Result<Vec<u8>, AllocError>
    ensures { IfOk result (λ v. v.items ≡ drill_line items answers.now) }
{
    let conformant = saying(answers, true);
    let nonconformant = saying(answers, false);
    let line = format!(in alloc;
        "items {items} conformant {conformant} nonconformant {nonconformant} accepted\n"
    )?;
    Vec::from_slice(alloc, line.as_bytes())
}

/// The line and the proof of a drill with so many items.
fn line_and_proof(alloc: Global, items: u32) -> Result<Drilled, Stop>
    requires { (1 ≤ items) × (items ≤ max_items) }
    ensures drilled { IfOk result (λ d. IsDrillReply items d.text.items d.proof.items) }
    ensures memory { IfErr result (λ s. s ≡ Stops.Memory) }
{
    // The law by which each association of a drill has an answer.
    drill_is_decided();
    let validation = drill_validation(alloc);
    let mut files = DrillFiles::of(make(alloc, items)?);
    let Decided { answers, proof, .. } = decide_texts(alloc, &mut files, &validation)?;
    let Some(proof) = proof else {
        unreachable!();
    };
    let Ok(proof) = write(alloc, &proof) else {
        return Err(Stop::Memory);
    };
    check_texts(alloc, &mut files, &validation, proof.as_slice())?;
    let text = line(alloc, items, answers.as_slice())?;
    Ok(Drilled { text, proof })
}

/// The line of a drill, whose proof is stored where a name is given for it.
pub fn drill<F: Files>(
    alloc: Global,
    files: &mut F,
    drilling: &Drilling<'_>,
) -> Result<Response, Stop>
    requires { (1 ≤ drilling.now.items) × (drilling.now.items ≤ max_items) }
    ensures response { IfOk result (λ r. IsDrilled (F.told files.old) (F.told files.new) (drill_of drilling.now) r.status r.text.items r.notes.items) }
    ensures stops { IfErr result (DrillStops (F.told files.old) (F.told files.new) (drill_of drilling.now) (F.faults files.old) (F.faults files.new) (F.blame files.new) (F.act files.new)) }
    ensures faults_stay { OnOk result (F.faults files.new ≡ F.faults files.old) }
{
    let Drilled { text, proof } = line_and_proof(alloc, drilling.items)?;
    let response = Response {
        status: 0,
        text,
        notes: Vec::new(alloc),
    };
    let Some(name) = drilling.proof else {
        return Ok(response);
    };
    store(files, File::Proof, name, proof.as_slice())?;
    Ok(response)
}
