//! The checks of what a command is given, and of a whole request.

ghost use Rattle.std.specs.Prelude.{◌≡◌, IfErr, IfOk, IfSome, IsNone, Some, option_map, true};
ghost use Rattle.std.specs.List.{list_any};
ghost use Rattle.std.specs.Option.{option_to_list};
ghost use Rattle.std.specs.Str.{bytes_eq};
ghost use Rattle.input_names.specs.Names.{is_among, is_base, is_data_name, is_schema_name};
ghost use Rattle.input_names.specs.Lent.{inputs_of};
ghost use Rattle.command_words.specs.Asked.{command_by};
ghost use Rattle.command_words.specs.Checks.{AreInputs, IsApart, IsGivenFault, IsRequestFault, Passes, names_with_proof, other_names};
ghost use Rattle.command_words.specs.Lent.{Because, command_of, command_with, given_of, request_of, task_of};
ghost use Rattle.command_words.specs.Requests.{map_names, proof_of, to_of};

use crate::command::{Checking, Command, Upgrading, Validation};
use crate::error::WordsError;
use crate::imports::read_imports;
use crate::requests::{Given, Request, Task};
use input_names::{Import, Inputs, is_base, is_data_name, is_schema_name};
use std::alloc::Global;

/// The name of the proof, if there is one.
fn proof_name<'a>(task: Task<'a>) -> Option<&'a str>
    ensures { option_map (λ s. s.now) result ≡ proof_of (task_of task.entry) }
{
    match task {
        Task::Validate { proof, .. } => proof,
        Task::Check { proof } => Some(proof),
        Task::Upgrade { proof, .. } => Some(proof),
    }
}

/// The name under which a checked proof is to be stored, if it is.
fn to_name<'a>(task: Task<'a>) -> Option<&'a str>
    ensures { option_map (λ s. s.now) result ≡ to_of (task_of task.entry) }
{
    match task {
        Task::Upgrade { to, .. } => Some(to),
        Task::Validate { .. } | Task::Check { .. } => None,
    }
}

/// Whether the name is that of the map.
fn is_map(name: &str, task: Task<'_>) -> bool
    ensures { result ≡ is_among name.now (map_names (task_of task.entry)) }
{
    match task {
        Task::Validate { map, .. } => map == name,
        Task::Check { .. } | Task::Upgrade { .. } => false,
    }
}

/// Whether the name is that of the proof.
fn is_proof(name: &str, task: Task<'_>) -> bool
    ensures { result ≡ is_among name.now (option_to_list (proof_of (task_of task.entry))) }
{
    match proof_name(task) {
        Some(proof) => proof == name,
        None => false,
    }
}

/// Whether the name is that of the file of an import.
fn is_imported(name: &str, imports: &[Import<'_>]) -> bool
    ensures { result ≡ list_any (λ i. bytes_eq i.file.now name.now) imports.now }
{
    imports.iter().any(|import| import.file == name)
}

/// Whether a name is that of the schema, the data, the map or an import.
fn is_named(name: &str, inputs: &Inputs<'_>, task: Task<'_>) -> bool
    ensures { result ≡ is_among name.now (other_names (inputs_of inputs.now) (task_of task.entry)) }
{
    if inputs.schema == name || inputs.data == name {
        return true;
    }
    is_map(name, task) || is_imported(name, &inputs.imports)
}

/// Whether a name is that of the schema, the data, the map, an import or the proof.
fn is_taken(name: &str, inputs: &Inputs<'_>, task: Task<'_>) -> bool
    ensures { result ≡ is_among name.now (names_with_proof (inputs_of inputs.now) (task_of task.entry)) }
{
    is_proof(name, task) || is_named(name, inputs, task)
}

/// The name of the proof where it is that of another file too.
fn same_name<'a>(inputs: &Inputs<'a>, task: Task<'a>) -> Option<&'a str>
    ensures found { IfSome result (λ name. (proof_of (task_of task.entry) ≡ Some name.now) × (is_among name.now (other_names (inputs_of inputs.now) (task_of task.entry)) ≡ true)) }
    ensures missed { IsNone result → IsApart (proof_of (task_of task.entry)) (other_names (inputs_of inputs.now) (task_of task.entry)) }
{
    let name = proof_name(task)?;
    if is_named(name, inputs, task) {
        Some(name)
    } else {
        None
    }
}

/// The name under which a checked proof is to be stored, where it is that of another file too.
fn same_to<'a>(inputs: &Inputs<'a>, task: Task<'a>) -> Option<&'a str>
    ensures found { IfSome result (λ name. (to_of (task_of task.entry) ≡ Some name.now) × (is_among name.now (names_with_proof (inputs_of inputs.now) (task_of task.entry)) ≡ true)) }
    ensures missed { IsNone result → IsApart (to_of (task_of task.entry)) (names_with_proof (inputs_of inputs.now) (task_of task.entry)) }
{
    let name = to_name(task)?;
    if is_taken(name, inputs, task) {
        Some(name)
    } else {
        None
    }
}

/// The command for a task.
fn command_for<'a>(inputs: Inputs<'a>, task: Task<'a>) -> Command<'a>
    ensures command { command_of result ≡ command_with inputs.entry (task_of task.entry) }
{
    match task {
        Task::Validate { map, proof, budget } => Command::Validate(Validation {
            inputs,
            map,
            proof,
            budget,
        }),
        Task::Check { proof } => Command::Check(Checking { inputs, proof }),
        Task::Upgrade { proof, to } => Command::Upgrade(Upgrading { inputs, proof, to }),
    }
}

/// What every command of files is given, where it passes the checks. It fails with the first one that is failed, in this order:
/// `Ending` of the schema's name, then of the data's; for each import word in turn `Import` and then `Ending` of its file's
/// name; `Base` of the schema, then of the data.
pub fn checked_inputs<'a>(alloc: Global, given: Given<'a>) -> Result<Inputs<'a>, WordsError<'a>>
    ensures ok { IfOk result (λ i. AreInputs (given_of given.entry) (inputs_of i)) }
    ensures fault { IfErr result (Because (IsGivenFault (given_of given.entry))) }
{
    if !is_schema_name(given.schema) {
        return Err(WordsError::Ending(given.schema));
    }
    if !is_data_name(given.data) {
        return Err(WordsError::Ending(given.data));
    }
    let imports = read_imports(alloc, &given.import_words)?;
    if !is_base(given.schema_base) {
        return Err(WordsError::Base(given.schema_base));
    }
    if !is_base(given.data_base) {
        return Err(WordsError::Base(given.data_base));
    }
    Ok(Inputs {
        schema: given.schema,
        data: given.data,
        schema_base: given.schema_base,
        data_base: given.data_base,
        imports,
    })
}

/// What a request asks for that passes the checks.
pub(crate) fn checked<'a>(
    alloc: Global,
    request: Request<'a>,
) -> Result<Command<'a>, WordsError<'a>>
    ensures command { IfOk result (λ c. command_of c ≡ command_by (request_of request.entry) (command_of c).imports) }
    ensures passes { IfOk result (λ c. Passes (request_of request.entry) (command_of c).imports) }
    ensures fault { IfErr result (Because (IsRequestFault (request_of request.entry))) }
{
    let Request { given, task } = request;
    let inputs = checked_inputs(alloc, given)?;
    if let Some(name) = same_name(&inputs, task) {
        return Err(WordsError::Same(name));
    }
    if let Some(name) = same_to(&inputs, task) {
        return Err(WordsError::Same(name));
    }
    Ok(command_for(inputs, task))
}
