//! What words ask for, before it is checked.

ghost use Rattle.std.specs.Prelude.{◌≡◌, ◌⊎◌, IfErr, IfOk, IfSome, IsNone, Some, codes, map, string_bytes};
ghost use Rattle.clap.specs.Words.{found_of, rows_of};
ghost use Rattle.command_words.specs.Checks.{arguments};
ghost use Rattle.command_words.specs.Lent.{Because, given_of, request_of, task_of};
ghost use Rattle.command_words.specs.Requests.{Asks, Given as Giving, IsFound, IsGiven, IsTask, Request as Requested, Task as Asked, name_of};

use crate::commands::{check, upgrade, validate};
use crate::error::WordsError;
use crate::matches::{accepted, value_of, value_or, values_of};
use crate::numbers::budget;
use clap::ArgMatches;
use std::alloc::Global;

/// The base of schema and data where none is given.
pub const DEFAULT_BASE: &str = "http://localhost/";

/// What is asked of the schema and the data.
#[derive(Clone, Copy)]
pub enum Task<'a> {
    /// To validate the associations of a map.
    Validate {
        map: &'a str,
        proof: Option<&'a str>,
        budget: u64,
    },
    /// To check a proof.
    Check {
        proof: &'a str,
    },
    /// To check a proof and to store it in the newest format.
    Upgrade {
        proof: &'a str,
        to: &'a str,
    },
}

/// What every command of files is given: the values of the options for schema and data, and the import words.
#[derive(Drop)]
pub struct Given<'a> {
    /// The name of the schema's file.
    pub schema: &'a str,
    /// The name of the data's file.
    pub data: &'a str,
    /// The base of the schema.
    pub schema_base: &'a str,
    /// The base of the data.
    pub data_base: &'a str,
    /// Words `IRI=FILE`, as they were given.
    pub import_words: Vec<&'a str>,
}

/// What is given, and what is asked of it.
#[derive(Drop)]
pub struct Request<'a> {
    /// What every command of files is given.
    pub given: Given<'a>,
    /// What is to be done.
    pub task: Task<'a>,
}

/// What every command of files is given, by what `clap` finds. It fails with `Arguments` where the schema or the data have no
/// file.
pub fn read_given<'a>(alloc: Global, matches: &ArgMatches<'a>) -> Result<Given<'a>, WordsError<'a>>
    ensures ok { IfOk result (λ g. IsGiven (rows_of (found_of matches.now)) (given_of g)) }
    ensures fault { IfErr result (Because (λ f. (f ≡ arguments) × ((g : Giving) → ¬ IsGiven (rows_of (found_of matches.now)) g))) }
{
    let Some(schema) = value_of(matches, "schema") else {
        return Err(WordsError::Arguments);
    };
    let Some(data) = value_of(matches, "data") else {
        return Err(WordsError::Arguments);
    };
    let import_words = values_of(alloc, matches, "imports")?;
    Ok(Given {
        schema,
        data,
        schema_base: value_or(matches, "schema-base", DEFAULT_BASE),
        data_base: value_or(matches, "data-base", DEFAULT_BASE),
        import_words,
    })
}

/// What `validate` is given alone, by what `clap` finds, and `None` where that is nothing.
fn validation<'a>(matches: &ArgMatches<'a>) -> Option<Task<'a>>
    ensures found { IfSome result (λ t. IsTask (rows_of (found_of matches.now)) (task_of t)) }
    ensures named { IfSome result (λ t. name_of (task_of t) ≡ codes "validate") }
    ensures missed { IsNone result → (t : Asked) → name_of t ≡ codes "validate" → ¬ IsTask (rows_of (found_of matches.now)) t }
{
    let map = value_of(matches, "map")?;
    let budget = budget(value_of(matches, "budget"))?;
    Some(Task::Validate {
        map,
        proof: value_of(matches, "proof"),
        budget,
    })
}

/// What `check` is given alone, by what `clap` finds, and `None` where that is nothing.
fn checking<'a>(matches: &ArgMatches<'a>) -> Option<Task<'a>>
    ensures found { IfSome result (λ t. IsTask (rows_of (found_of matches.now)) (task_of t)) }
    ensures named { IfSome result (λ t. name_of (task_of t) ≡ codes "check") }
    ensures missed { IsNone result → (t : Asked) → name_of t ≡ codes "check" → ¬ IsTask (rows_of (found_of matches.now)) t }
{
    let proof = value_of(matches, "proof")?;
    Some(Task::Check { proof })
}

/// What `upgrade` is given alone, by what `clap` finds, and `None` where that is nothing.
fn upgrading<'a>(matches: &ArgMatches<'a>) -> Option<Task<'a>>
    ensures found { IfSome result (λ t. IsTask (rows_of (found_of matches.now)) (task_of t)) }
    ensures named { IfSome result (λ t. name_of (task_of t) ≡ codes "upgrade") }
    ensures missed { IsNone result → (t : Asked) → name_of t ≡ codes "upgrade" → ¬ IsTask (rows_of (found_of matches.now)) t }
{
    let proof = value_of(matches, "proof")?;
    let to = value_of(matches, "to")?;
    Some(Task::Upgrade { proof, to })
}

/// What is given, by what `clap` finds, and this task. It fails with `Arguments` where there is no task, or the schema or the
/// data have no file.
fn with_task<'a>(
    alloc: Global,
    matches: &ArgMatches<'a>,
    task: Option<Task<'a>>,
) -> Result<Request<'a>, WordsError<'a>>
    ensures given { IfOk result (λ r. IsGiven (rows_of (found_of matches.now)) (given_of r.given)) }
    ensures task { IfOk result (λ r. task.entry ≡ Some r.task) }
    ensures fault { IfErr result (Because (λ f. (f ≡ arguments) × (IsNone task.entry ⊎ ((g : Giving) → ¬ IsGiven (rows_of (found_of matches.now)) g)))) }
{
    let Some(task) = task else {
        return Err(WordsError::Arguments);
    };
    let given = read_given(alloc, matches)?;
    Ok(Request { given, task })
}

/// What the words behind `validate` ask for.
fn read_to_validate<'a>(alloc: Global, words: &'a [String]) -> Result<Request<'a>, WordsError<'a>>
    ensures ok { IfOk result (λ r. IsFound (map string_bytes words.entry.now) (request_of r)) }
    ensures named { IfOk result (λ r. name_of (task_of r.task) ≡ codes "validate") }
    ensures fault { IfErr result (Because (λ f. (f ≡ arguments) × ((r : Requested) → name_of r.task ≡ codes "validate" → ¬ IsFound (map string_bytes words.entry.now) r))) }
{
    let command = validate(alloc)?;
    let matches = accepted(command, words)?;
    let request = with_task(alloc, &matches, validation(&matches));
    drop(matches);
    request
}

/// What the words behind `check` ask for.
fn read_to_check<'a>(alloc: Global, words: &'a [String]) -> Result<Request<'a>, WordsError<'a>>
    ensures ok { IfOk result (λ r. IsFound (map string_bytes words.entry.now) (request_of r)) }
    ensures named { IfOk result (λ r. name_of (task_of r.task) ≡ codes "check") }
    ensures fault { IfErr result (Because (λ f. (f ≡ arguments) × ((r : Requested) → name_of r.task ≡ codes "check" → ¬ IsFound (map string_bytes words.entry.now) r))) }
{
    let command = check(alloc)?;
    let matches = accepted(command, words)?;
    let request = with_task(alloc, &matches, checking(&matches));
    drop(matches);
    request
}

/// What the words behind `upgrade` ask for.
fn read_to_upgrade<'a>(alloc: Global, words: &'a [String]) -> Result<Request<'a>, WordsError<'a>>
    ensures ok { IfOk result (λ r. IsFound (map string_bytes words.entry.now) (request_of r)) }
    ensures named { IfOk result (λ r. name_of (task_of r.task) ≡ codes "upgrade") }
    ensures fault { IfErr result (Because (λ f. (f ≡ arguments) × ((r : Requested) → name_of r.task ≡ codes "upgrade" → ¬ IsFound (map string_bytes words.entry.now) r))) }
{
    let command = upgrade(alloc)?;
    let matches = accepted(command, words)?;
    let request = with_task(alloc, &matches, upgrading(&matches));
    drop(matches);
    request
}

/// What the words ask for.
pub fn read_request<'a>(alloc: Global, words: &'a [String]) -> Result<Request<'a>, WordsError<'a>>
    ensures ok { IfOk result (λ r. Asks (map string_bytes words.entry.now) (request_of r)) }
    ensures fault { IfErr result (Because (λ f. (f ≡ arguments) × ((r : Requested) → ¬ Asks (map string_bytes words.entry.now) r))) }
{
    let [name, behind @ ..] = words else {
        return Err(WordsError::Arguments);
    };
    if name.as_str() == "validate" {
        read_to_validate(alloc, behind)
    } else if name.as_str() == "check" {
        read_to_check(alloc, behind)
    } else if name.as_str() == "upgrade" {
        read_to_upgrade(alloc, behind)
    } else {
        Err(WordsError::Arguments)
    }
}
