//! The lines that a call prints where it has no answer.

ghost use Rattle.std.specs.Prelude.{◌≡◌, IfOk, codes, string_bytes};
ghost use Rattle.command_words.specs.Lent.{words_text};
ghost use Rattle.shex_inputs.specs.Named.{source_name};
ghost use Rattle.tool_words.specs.Asked.{of_schema};
ghost use Rattle.tool_words.specs.Lent.{converting_of, tool_call_of};
ghost use Rattle.shex_tools.specs.Calls.{inputs_of};
ghost use Rattle.shex_tools.specs.Texts.{cause_text, failed_line, name_of, refusal_line, shard_cause_text, tool_line};

use crate::stop::Refusal;
use command_words::WordsError;
use label_extents::ExtentsError;
use program_ends::error_line;
use schema_files::SchemaFile;
use shard_answers::{CallFile, ShardRefusal, source_name};
use shex_inputs::{Source, input_name, refusal_text};
use std::alloc::{AllocError, Global};
use tool_words::{Converting, ToolCall};

/// The name of the program, with which its lines begin.
const PROGRAM: &str = "shextool";

/// The line for words that are at fault.
pub fn words(alloc: Global, error: WordsError<'_>) -> Result<String, AllocError>
    ensures { IfOk result (λ s. string_bytes s ≡ tool_line (codes "words") (words_text error.entry)) }
{
    let what = format!(in alloc; "{error}")?;
    error_line(alloc, PROGRAM, "words", what.as_str())
}

/// The name of the schema file of `convert`, and the empty text for a file that it has not: an import, the data, a map.
fn converted_name<'a>(converting: &Converting<'a>, source: Source) -> &'a str
    ensures { result.now ≡ source_name (inputs_of (of_schema (converting_of converting.now))) source }
{
    match source {
        Source::Schema(SchemaFile::Root) => converting.schema,
        Source::Schema(SchemaFile::Imported(_)) | Source::Data | Source::Map => "",
    }
}

/// The name of a file of the inputs in the words, and the empty text where they name none, as for a map of `extents`.
fn file_name<'a>(call: &ToolCall<'a>, source: Source) -> &'a str
    ensures { result.now ≡ source_name (inputs_of (tool_call_of call.now)) source }
{
    match call {
        ToolCall::Convert(converting) => converted_name(converting, source),
        ToolCall::Extents(listing) => input_name(&listing.inputs, "", source),
        ToolCall::Explain(explaining) => input_name(&explaining.inputs, explaining.map, source),
        ToolCall::Shards(call) => source_name(call, CallFile::Input(source)),
    }
}

/// The name of a file in the words, and the empty text where they name none.
pub fn name<'a>(call: &ToolCall<'a>, file: CallFile) -> &'a str
    ensures { result.now ≡ name_of (tool_call_of call.now) file }
{
    match file {
        CallFile::Input(source) => file_name(call, source),
        CallFile::Cover(_) => match call {
            ToolCall::Shards(call) => source_name(call, file),
            ToolCall::Convert(_) | ToolCall::Extents(_) | ToolCall::Explain(_) => "",
        },
    }
}

/// The line for a file that was not fetched.
pub fn failed(alloc: Global, call: &ToolCall<'_>, file: CallFile) -> Result<String, AllocError>
    ensures { IfOk result (λ s. string_bytes s ≡ failed_line (name_of (tool_call_of call.now) file)) }
{
    error_line(alloc, PROGRAM, name(call, file), "Failed")
}

/// Why a call about data in shards refuses a file.
fn shard_cause(alloc: Global, refusal: &ShardRefusal) -> Result<String, AllocError>
    ensures { IfOk result (λ s. string_bytes s ≡ shard_cause_text refusal.now) }
{
    match refusal {
        ShardRefusal::Input(refusal) => refusal_text(alloc, refusal),
        ShardRefusal::Size(_) => String::from_str(alloc, "Size"),
    }
}

/// Why a file is refused.
fn cause(alloc: Global, refusal: &Refusal) -> Result<String, AllocError>
    ensures { IfOk result (λ s. string_bytes s ≡ cause_text refusal.now) }
{
    match refusal {
        Refusal::Input(refusal) => refusal_text(alloc, refusal),
        Refusal::Unwritten(error) => format!(in alloc; "{error}"),
        Refusal::Pairs => format!(in alloc; "{}", ExtentsError::Pairs),
        Refusal::Shards(refusal) => shard_cause(alloc, refusal),
    }
}

/// The line for a file that is refused.
pub fn refusal(alloc: Global, call: &ToolCall<'_>, refusal: &Refusal) -> Result<String, AllocError>
    ensures { IfOk result (λ s. string_bytes s ≡ refusal_line (tool_call_of call.now) refusal.now) }
{
    let what = cause(alloc, refusal)?;
    error_line(alloc, PROGRAM, name(call, refusal.source()), what.as_str())
}
