//! The lines that a call prints where it has no answers.

ghost use Rattle.std.specs.Prelude.{◌≡◌, IfOk, codes, string_bytes};
ghost use Rattle.command_words.specs.Lent.{words_text};
ghost use Rattle.tool_words.specs.Lent.{editing_of};
ghost use Rattle.session_run.specs.Files.{name_of};
ghost use Rattle.session_run.specs.Texts.{cause_text, failed_line, refusal_line, refused_file, session_line};

use crate::stop::{File, Refusal};
use command_words::WordsError;
use program_ends::error_line;
use shex_inputs::{input_name, refusal_text};
use std::alloc::{AllocError, Global};
use tool_words::Editing;

/// The name of the program, with which its lines begin.
pub const PROGRAM: &str = "typing_session";

/// The name of a file in the words, and the empty text where they name none, as for a map.
fn name<'a>(editing: &Editing<'a>, file: File) -> &'a str
    ensures { result.now ≡ name_of (editing_of editing.now) file }
{
    match file {
        File::Input(source) => input_name(&editing.inputs, "", source),
        File::Script => editing.script,
    }
}

/// The line for a file that was not fetched.
pub fn failed(alloc: Global, editing: &Editing<'_>, file: File) -> Result<String, AllocError>
    ensures { IfOk result (λ s. string_bytes s ≡ failed_line (name_of (editing_of editing.now) file)) }
{
    error_line(alloc, PROGRAM, name(editing, file), "Failed")
}

/// The file that is refused.
fn file_of(refusal: &Refusal) -> File
    ensures { result ≡ refused_file refusal.now }
{
    match refusal {
        Refusal::Input(refusal) => File::Input(refusal.source()),
        Refusal::Size | Refusal::Script(_) | Refusal::Command(_) => File::Script,
    }
}

/// Why a file is refused.
fn cause(alloc: Global, refusal: &Refusal) -> Result<String, AllocError>
    ensures { IfOk result (λ s. string_bytes s ≡ cause_text refusal.now) }
{
    match refusal {
        Refusal::Input(refusal) => refusal_text(alloc, refusal),
        Refusal::Size => String::from_str(alloc, "Size"),
        Refusal::Script(error) => format!(in alloc; "{error}"),
        Refusal::Command(error) => format!(in alloc; "{error}"),
    }
}

/// The line for a file that is refused.
pub fn refusal(
    alloc: Global,
    editing: &Editing<'_>,
    refusal: &Refusal,
) -> Result<String, AllocError>
    ensures { IfOk result (λ s. string_bytes s ≡ refusal_line (editing_of editing.now) refusal.now) }
{
    let what = cause(alloc, refusal)?;
    error_line(
        alloc,
        PROGRAM,
        name(editing, file_of(refusal)),
        what.as_str(),
    )
}
