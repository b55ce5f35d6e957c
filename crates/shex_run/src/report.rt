//! The lines that a call prints where it has no answer.

ghost use Rattle.std.specs.Prelude.{◌≡◌, IfOk, IsSome, List, Some, string_bytes, ℕ};
ghost use Rattle.command_words.specs.Lent.{Because, command_of, drill_of};
ghost use Rattle.shex_inputs.specs.Named.{source_name};
ghost use Rattle.shex_run.specs.Tasks.{inputs_of, name_of};
ghost use Rattle.shex_run.specs.Texts.{cause_text, failed_line, refusal_line, refused_name, words_line};
ghost use Rattle.shex_run.specs.declared.stop.File.TheVariants as Files;

use crate::stop::{File, Refusal};
use command_words::{Command, Drilling, WordsError};
use program_ends::error_line;
use shex_inputs::{Source, input_name, refusal_text};
use std::alloc::{AllocError, Global};

/// The name of the program, with which its lines begin.
const PROGRAM: &str = "shex";

/// The line for words that are at fault.
pub fn words(alloc: Global, error: WordsError<'_>) -> Result<String, AllocError>
    ensures { IfOk result (λ s. Because (λ f. string_bytes s ≡ words_line f) error.entry) }
{
    let what = format!(in alloc; "{error}")?;
    error_line(alloc, PROGRAM, "words", what.as_str())
}

/// The name of the proof, and the empty text where there is none.
fn proof_name<'a>(command: &Command<'a>) -> &'a str
    ensures { result.now ≡ name_of (command_of command.now) Files.Proof }
{
    match command {
        Command::Validate(validation) => match validation.proof {
            Some(name) => name,
            None => "",
        },
        Command::Check(checking) => checking.proof,
        Command::Upgrade(upgrading) => upgrading.proof,
    }
}

/// The name under which a checked proof is to be stored, and the empty text where it is not.
fn upgraded_name<'a>(command: &Command<'a>) -> &'a str
    ensures { result.now ≡ name_of (command_of command.now) Files.Upgraded }
{
    match command {
        Command::Upgrade(upgrading) => upgrading.to,
        Command::Validate(_) | Command::Check(_) => "",
    }
}

/// The name of a file of the inputs, and the empty text where no word names it.
fn source_name<'a>(command: &Command<'a>, source: Source) -> &'a str
    ensures { result.now ≡ source_name (inputs_of (command_of command.now)) source }
{
    match command {
        Command::Validate(validation) => input_name(&validation.inputs, validation.map, source),
        Command::Check(checking) => input_name(&checking.inputs, "", source),
        Command::Upgrade(upgrading) => input_name(&upgrading.inputs, "", source),
    }
}

/// The name of a file in the words.
fn name<'a>(command: &Command<'a>, file: File) -> &'a str
    ensures { result.now ≡ name_of (command_of command.now) file }
{
    match file {
        File::Input(source) => source_name(command, source),
        File::Proof => proof_name(command),
        File::Upgraded => upgraded_name(command),
    }
}

/// The line for a file that was not fetched, or not stored.
pub fn failed(alloc: Global, command: &Command<'_>, file: File) -> Result<String, AllocError>
    ensures { IfOk result (λ s. string_bytes s ≡ failed_line (name_of (command_of command.now) file)) }
{
    error_line(alloc, PROGRAM, name(command, file), "Failed")
}

/// The line for the proof of a drill, which was not stored under the name that is given for it.
pub fn unstored(alloc: Global, drilling: &Drilling<'_>) -> Result<String, AllocError>
    requires { IsSome (drill_of drilling.now).proof }
    ensures { (name : List ℕ) → (drill_of drilling.now).proof ≡ Some name → IfOk result (λ s. string_bytes s ≡ failed_line name) }
{
    let Some(name) = drilling.proof else {
        unreachable!();
    };
    error_line(alloc, PROGRAM, name, "Failed")
}

/// The place of a file that is refused, by its name in the words.
fn place<'a>(command: &Command<'a>, refusal: &Refusal) -> &'a str
    ensures { result.now ≡ refused_name (command_of command.now) refusal.now }
{
    match refusal {
        Refusal::Input(refusal) => source_name(command, refusal.source()),
        Refusal::Proof(_) => proof_name(command),
    }
}

/// Why a file is refused.
fn cause(alloc: Global, refusal: &Refusal) -> Result<String, AllocError>
    ensures { IfOk result (λ s. string_bytes s ≡ cause_text refusal.now) }
{
    match refusal {
        Refusal::Input(refusal) => refusal_text(alloc, refusal),
        Refusal::Proof(error) => format!(in alloc; "{error}"),
    }
}

/// The line for a file that is refused.
pub fn refusal(
    alloc: Global,
    command: &Command<'_>,
    refusal: &Refusal,
) -> Result<String, AllocError>
    ensures { IfOk result (λ s. string_bytes s ≡ refusal_line (command_of command.now) refusal.now) }
{
    let what = cause(alloc, refusal)?;
    error_line(alloc, PROGRAM, place(command, refusal), what.as_str())
}
