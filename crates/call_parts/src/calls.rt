//! A call of a program in memory.

ghost use Rattle.std.specs.Prelude.{Err, IfOk, MatchOption, OnOk, string_bytes, ◌≡◌};
ghost use Rattle.shex_io.specs.Sure.{bytes_of, contents_of};
ghost use Rattle.call_parts.specs.Calls.{IsCallOf, error_status};
ghost use Rattle.call_parts.specs.Given.{HasWrongText, HaveOwnNames};
ghost use Rattle.call_parts.specs.Handed.{IsHandedOver};

use crate::asked::{Request, files_of, words_of};
use crate::handed::Reply;
use shex_io::{SureFiles, SureSink};
use std::alloc::{AllocError, Global};
use thiserror::Error;

/// Why a call is not made.
#[derive(Clone, Copy, Debug, Drop, PartialEq, Eq, Error)]
pub enum CallError {
    /// A word or a name is not UTF-8.
    #[error("NotUtf8")]
    NotUtf8,
    /// Two files have one name.
    #[error("Twice")]
    Twice,
    /// Memory ran out.
    #[error("Memory")]
    Memory,
}

impl From<AllocError> for CallError {
    ghost use Rattle.call_parts.specs.declared.calls.CallError.TheVariants.{Memory};

    ghost from_gives = { λ _ e. e ≡ Memory };

    fn from(_: AllocError) -> Self {
        CallError::Memory
    }
}

impl CallError {
    /// The status of a call that is not made.
    pub fn status(self) -> u8
        ensures { result ≡ error_status self }
    {
        match self {
            CallError::Memory => 8,
            CallError::NotUtf8 => 9,
            CallError::Twice => 10,
        }
    }
}

/// A call of a program: its words and files, what it has printed, and what it has said.
#[derive(Drop)]
pub struct Call {
    /// The words.
    pub words: Vec<String>,
    /// The files.
    pub files: SureFiles,
    /// The name of the file that is handed back.
    pub wanted: String,
    /// What is printed.
    pub out: SureSink,
    /// What is said.
    pub err: SureSink,
}

impl Call {
    ghost use Rattle.call_parts.specs.declared.calls.CallError.TheVariants.{NotUtf8, Twice};

    /// The call that is asked for. Nothing is printed yet.
    pub fn of(alloc: Global, request: &Request<'_>) -> Result<Call, CallError>
        ensures call { IfOk result (IsCallOf request.now) }
        ensures own_names { OnOk result (HaveOwnNames request.now.files.now) }
        ensures not_utf8 { result ≡ Err NotUtf8 → HasWrongText request.now }
        ensures twice { result ≡ Err Twice → ¬ HaveOwnNames request.now.files.now }
    {
        let Ok(wanted) = std::str::from_utf8(request.wanted.bytes) else {
            return Err(CallError::NotUtf8);
        };
        Ok(Call {
            words: words_of(alloc, request.words)?,
            files: files_of(alloc, request.files)?,
            wanted: String::from_str(alloc, wanted)?,
            out: SureSink::new(alloc),
            err: SureSink::new(alloc),
        })
    }

    /// Hands over what is printed, what is said, and what the file holds that is wanted.
    pub fn hand_over(&self, reply: &mut Reply<'_>)
        ensures { IsHandedOver
            (contents_of self.now.files (string_bytes self.now.wanted))
            (bytes_of self.now.out)
            (bytes_of self.now.err)
            reply.old reply.new }
    {
        reply.output.take(self.out.bytes());
        reply.errors.take(self.err.bytes());
        match self.files.file(self.wanted.as_str()) {
            Some(bytes) => reply.file.take(bytes),
            None => reply.file.count = 0,
        }
    }
}
