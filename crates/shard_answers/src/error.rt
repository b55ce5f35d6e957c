//! Why a call about shards has no answer.

ghost use Rattle.std.specs.Prelude.{◌≡◌};
ghost use Rattle.shard_answers.specs.Stops.{IsDataStop, stop_of};

use graph_index::read_error::ReadError;
use shex_inputs::{InputError, Refusal, Source};
use std::alloc::AllocError;

/// A file that `covers` reads.
#[derive(Clone, Copy, Debug, PartialEq, Eq)]
pub enum CoverFile {
    /// The ways that a schema reads.
    Followed,
    /// The part.
    Part,
    /// The nodes of the shard at this place among the words, the first at 0.
    Nodes(usize),
    /// The lines of the shard at this place.
    Shard(usize),
}

/// A file that a call reads.
#[derive(Clone, Copy, Debug, PartialEq, Eq)]
pub enum CallFile {
    /// A file of the inputs.
    Input(Source),
    /// A file of `covers`.
    Cover(CoverFile),
}

/// Why a file is refused. Want of memory is never the cause.
#[derive(Debug, Drop)]
pub enum ShardRefusal {
    /// A file of the inputs is not taken.
    Input(Refusal),
    /// This file of `covers` has more than 67,108,864 bytes.
    Size(CoverFile),
}

impl ShardRefusal {
    ghost use Rattle.std.specs.Prelude.{◌≡◌};
    ghost use Rattle.shard_answers.specs.Sources.{refused_source};

    /// The file that is refused.
    pub fn source(&self) -> CallFile
        ensures { result ≡ refused_source self.now }
    {
        match self {
            ShardRefusal::Input(refusal) => CallFile::Input(refusal.source()),
            ShardRefusal::Size(file) => CallFile::Cover(*file),
        }
    }
}

/// Why there is no answer.
#[derive(Debug, Drop)]
pub enum ShardError {
    /// A file is refused.
    Refused(ShardRefusal),
    /// The file was not fetched.
    Failed(CallFile),
    /// Memory ran out.
    Memory,
}

impl From<AllocError> for ShardError {
    ghost use Rattle.std.specs.Prelude.{◌≡◌};
    ghost use Rattle.shard_answers.specs.declared.error.ShardError.TheVariants.{Memory};

    ghost from_gives = { λ _ e. e ≡ Memory };

    fn from(_error: AllocError) -> ShardError {
        ShardError::Memory
    }
}

/// Why there is no answer where the inputs are not taken.
pub(crate) fn stop_of(error: InputError) -> ShardError
    ensures { result ≡ stop_of error }
{
    match error {
        InputError::Refused(refusal) => ShardError::Refused(ShardRefusal::Input(refusal)),
        InputError::Failed(source) => ShardError::Failed(CallFile::Input(source)),
        InputError::Memory => ShardError::Memory,
    }
}

/// Why there is no answer where the data are not read.
pub(crate) fn data_stop(error: ReadError) -> ShardError
    ensures { IsDataStop error result }
{
    match error {
        ReadError::Memory => ShardError::Memory,
        error => ShardError::Refused(ShardRefusal::Input(Refusal::Data(error))),
    }
}
