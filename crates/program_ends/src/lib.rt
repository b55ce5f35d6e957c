//! How a program ends once it is known what is to be printed: with the status that is due, or with 7 or 8 where printing stopped.
#![tactic(auto)]

mod lines;

ghost use Rattle.std.specs.Prelude.{◌≡◌, ◌<◌, IfOk, List, string_bytes, ℕ};
ghost use Rattle.program_ends.specs.Printing.{Prints, PrintsBoth, sink_seen};

pub use lines::error_line;
use shex_io::{Sink, SinkError, put_all};
use std::alloc::AllocError;

/// Prints a text, and gives the status, or 7 where the sink failed and 8 where memory ran out before the text was printed whole.
pub fn print<S: Sink>(sink: &mut S, text: &[u8], status: u8) -> u8
    requires { status < 7 }
    ensures { Prints (S.got sink.old) (S.got sink.new) (S.faults sink.old) (S.faults sink.new) text.now status result }
{
    match put_all(sink, text) {
        Ok(()) => status,
        Err(SinkError::Failed) => 7,
        Err(SinkError::Memory) => 8,
    }
}

/// Prints a text, if it could be made, and gives the status, or 7 where the sink failed and 8 where memory ran out, be it before
/// the text was made or before it was printed whole.
pub fn say<S: Sink>(text: Result<String, AllocError>, status: u8, sink: &mut S) -> u8
    requires { status < 7 }
    ensures { (line : List ℕ) → IfOk text (λ s. string_bytes s ≡ line) → Prints (S.got sink.old) (S.got sink.new) (S.faults sink.old) (S.faults sink.new) line status result }
{
    match text {
        Ok(text) => print(sink, text.as_str().as_bytes(), status),
        Err(_) => 8,
    }
}

/// Prints a text to the output and then notes to the error stream, and gives the status, or 7 where a sink failed and 8 where
/// memory ran out before both were printed whole.
pub fn print_both<O: Sink, E: Sink>(
    text: &[u8],
    notes: &[u8],
    status: u8,
    out: &mut O,
    err: &mut E,
) -> u8
    requires { status < 7 }
    ensures { PrintsBoth
        (sink_seen O.got O.faults out.old out.new)
        (sink_seen E.got E.faults err.old err.new)
        text.now notes.now status result }
{
    match put_all(out, text) {
        Ok(()) => print(err, notes, status),
        Err(SinkError::Failed) => 7,
        Err(SinkError::Memory) => 8,
    }
}
