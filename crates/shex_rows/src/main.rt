//! Rows for the top calls of the programs. Each is about files in memory and says the words of a call, and what has to be printed,
//! stored and answered. For each document that a word names its name is printed, and a line for each row, as `row_format` says. The
//! program ends with 0 where rows differ too: what it prints tells of them. A line that cannot be obeyed ends it with an error.
//!
//! What stands before the first row of a document are files, and the call of each row that makes no other: `run`, `tool` or
//! `session`. The lines of a row give files, call, and say what is answered:
//!
//! - `fails files N ..`, `fails out N ..`, `fails err N ..` say which calls of the files and of the sinks fail in the next
//!   call of a program alone, each of the three counted from 0.
//! - `run WORD ..` calls `shex` with these words, `tool WORD ..` calls `shextool`, and `session WORD ..` calls
//!   `typing_session`. Single spaces part each two words, and the files are those so far. A row may call more than once.
//!   Before the first row such a line gives the call of each row that makes no other, and that is made where the row first
//!   says what is answered.
//! - `status N`, `out`, `err`, `stored NAME` and `absent NAME` say what the last call answers, prints, stores and does not
//!   store. What is not said to be printed has to be nothing, and the status has to be said. A file that `stored` names is
//!   there for the next call, with the text that stands here; files that were stored and that no line names are not looked
//!   at, and are not there for the next call.
//! - `cut NAME N ..` makes the last call again with each proper prefix of this file of the row in its place, the empty one too,
//!   and each has to end with one of these statuses.
#![tactic(auto)]

mod attempt;
mod common;
mod comparison;
mod cuts;
mod outcome;
mod program;

use common::Common;
use row_format::print_reports;

fn main(rt: HostRuntime) -> anyhow::Result<()> {
    print_reports::<Common>(&rt)
}
