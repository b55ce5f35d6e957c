//! What is said where the words of a program are refused.

ghost use Rattle.std.specs.Prelude.{◌≡◌, IfOk, codes, string_bytes};
ghost use Rattle.command_words.specs.Lent.{words_text};
ghost use Rattle.program_ends.specs.Lines.{error_line};
ghost use Rattle.program_ends.specs.Printing.{sink_seen};
ghost use Rattle.call_ends.specs.Words.{RefusesWords};

use command_words::WordsError;
use program_ends::{error_line, say};
use shex_io::Sink;
use std::alloc::{AllocError, Global};

/// The line for words that are at fault.
fn words_line(alloc: Global, program: &str, error: WordsError<'_>) -> Result<String, AllocError>
    ensures { IfOk result (λ s. string_bytes s ≡ error_line program.now (codes "words") (words_text error.entry)) }
{
    let what = format!(in alloc; "{error}")?;
    error_line(alloc, program, "words", what.as_str())
}

/// Says to a stream what is wrong with the words of a program, and gives the status: 2, or 7 where the stream failed and 8 where
/// memory ran out.
pub fn refuse_words<S: Sink>(
    alloc: Global,
    program: &str,
    error: WordsError<'_>,
    sink: &mut S,
) -> u8
    ensures { RefusesWords
        WordsError.Memory error.entry (error_line program.now (codes "words") (words_text error.entry))
        (sink_seen S.got S.faults sink.old sink.new) result }
{
    match error {
        WordsError::Memory => 8,
        error => say(words_line(alloc, program, error), 2, sink),
    }
}
