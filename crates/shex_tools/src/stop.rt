//! Why a call ends before its answer.

ghost use Rattle.std.specs.Prelude.{◌≡◌};
ghost use Rattle.shex_tools.specs.Stopping.{IsDocumentStop, IsWritingStop, extents_stop, shard_stop, stop_of};

use label_extents::ExtentsError;
use schema_documents::SchemaError;
use schema_files::SchemaFile;
use shard_answers::{CallFile, ShardError, ShardRefusal};
use shex_inputs::{InputError, Refusal as InputRefusal, Source};
use shexj_writer::WriteError;
use std::alloc::AllocError;

/// Why a file is refused. Want of memory is never the cause.
#[derive(Debug, Drop)]
pub enum Refusal {
    /// A file is not taken.
    Input(InputRefusal),
    /// The document in the schema file has no text in ShExJ.
    Unwritten(WriteError),
    /// The extents ask for more than 4,194,304 pairs of a node and a Shape.
    Pairs,
    /// A file of a call about data in shards is not taken.
    Shards(ShardRefusal),
}

impl Refusal {
    ghost use Rattle.std.specs.Prelude.{◌≡◌};
    ghost use Rattle.shex_tools.specs.Texts.{refused_source};

    /// The file that is refused: the data, where the extents ask for too many pairs.
    pub fn source(&self) -> CallFile
        ensures { result ≡ refused_source self.now }
    {
        match self {
            Refusal::Input(refusal) => CallFile::Input(refusal.source()),
            Refusal::Unwritten(_) => CallFile::Input(Source::Schema(SchemaFile::Root)),
            Refusal::Pairs => CallFile::Input(Source::Data),
            Refusal::Shards(refusal) => refusal.source(),
        }
    }
}

/// Why there is no answer.
#[derive(Debug, Drop)]
pub enum Stop {
    /// A file is refused.
    Refused(Refusal),
    /// The file was not fetched.
    Failed(CallFile),
    /// Memory ran out.
    Memory,
}

impl From<AllocError> for Stop {
    ghost use Rattle.std.specs.Prelude.{◌≡◌};
    ghost use Rattle.shex_tools.specs.declared.stop.Stop.TheVariants.{Memory};

    ghost from_gives = { λ _ e. e ≡ Memory };

    fn from(_error: AllocError) -> Stop {
        Stop::Memory
    }
}

/// Why nothing is shown of a file that is refused.
#[derive(Clone, Copy, Debug, Drop, PartialEq, Eq)]
pub enum Unshown {
    /// This file was not fetched once more.
    Failed(Source),
    /// Memory ran out.
    Memory,
}

impl From<AllocError> for Unshown {
    ghost use Rattle.std.specs.Prelude.{◌≡◌};
    ghost use Rattle.shex_tools.specs.declared.stop.Unshown.TheVariants.{Memory};

    ghost from_gives = { λ _ e. e ≡ Memory };

    fn from(_error: AllocError) -> Unshown {
        Unshown::Memory
    }
}

/// Why there is no answer where the inputs are not taken.
pub fn stop_of(error: InputError) -> Stop
    ensures { result ≡ stop_of error }
{
    match error {
        InputError::Refused(refusal) => Stop::Refused(Refusal::Input(refusal)),
        InputError::Failed(source) => Stop::Failed(CallFile::Input(source)),
        InputError::Memory => Stop::Memory,
    }
}

/// Why there is no answer where a call about data in shards has none.
pub fn shard_stop(error: ShardError) -> Stop
    ensures { result ≡ shard_stop error }
{
    match error {
        ShardError::Refused(refusal) => Stop::Refused(Refusal::Shards(refusal)),
        ShardError::Failed(file) => Stop::Failed(file),
        ShardError::Memory => Stop::Memory,
    }
}

/// Why there is no answer where the bytes of the schema file are no document that is read.
pub fn document_stop(error: SchemaError) -> Stop
    ensures { IsDocumentStop error result }
{
    match error {
        SchemaError::Memory => Stop::Memory,
        error => Stop::Refused(Refusal::Input(InputRefusal::Schema(SchemaFile::Root, error))),
    }
}

/// Why there is no answer where the document is not written.
pub fn writing_stop(error: WriteError) -> Stop
    ensures { IsWritingStop error result }
{
    match error {
        WriteError::Memory => Stop::Memory,
        error => Stop::Refused(Refusal::Unwritten(error)),
    }
}

/// Why there is no answer where the extents are not given.
pub fn extents_stop(error: ExtentsError) -> Stop
    ensures { result ≡ extents_stop error }
{
    match error {
        ExtentsError::Pairs => Stop::Refused(Refusal::Pairs),
        ExtentsError::Memory => Stop::Memory,
    }
}
