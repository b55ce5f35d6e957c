//! The programs that rows call.

use row_format::Entry;
use session_run::run_session;
use shex_io::{MemFiles, MemSink};
use shex_run::run;
use shex_tools::run_tool;
use std::alloc::{AllocError, Global};

/// A program that a row calls.
#[derive(Clone, Copy)]
pub enum Program {
    /// `shex`.
    Shex,
    /// `shextool`.
    Tool,
    /// `typing_session`.
    Session,
}

impl Program {
    /// The program that a line with this first word calls, if it calls one.
    fn of_verb(verb: &str) -> Option<Program> {
        match verb {
            "run" => Some(Program::Shex),
            "tool" => Some(Program::Tool),
            "session" => Some(Program::Session),
            _ => None,
        }
    }

    /// Calls the program with words, and gives its status.
    pub fn call(
        self,
        alloc: Global,
        words: &[String],
        files: &mut MemFiles,
        out: &mut MemSink,
        err: &mut MemSink,
    ) -> u8 {
        match self {
            Program::Shex => run(alloc, words, files, out, err),
            Program::Tool => run_tool(alloc, words, files, out, err),
            Program::Session => run_session(alloc, words, files, out, err),
        }
    }
}

/// A call of a program.
#[derive(Drop)]
pub struct Call {
    /// The program.
    pub program: Program,
    /// Its words, in a line.
    pub words: String,
}

impl Call {
    /// The call that a line makes, if it makes one.
    pub fn of_entry(alloc: Global, entry: &Entry) -> Result<Option<Call>, AllocError> {
        let Some(program) = Program::of_verb(entry.verb.as_str()) else {
            return Ok(None);
        };
        let words = String::from_str(alloc, entry.rest.as_str())?;
        Ok(Some(Call { program, words }))
    }

    /// A copy of the call.
    pub fn try_clone(&self, alloc: Global) -> Result<Call, AllocError> {
        let words = String::from_str(alloc, self.words.as_str())?;
        Ok(Call {
            program: self.program,
            words,
        })
    }
}
