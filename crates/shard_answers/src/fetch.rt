//! The bytes of a file that a call about shards reads.

ghost use Rattle.std.specs.Prelude.{◌≡◌, IfErr, IfOk, OnOk};
ghost use Rattle.shex_io.specs.Fetching.{IsFile};
ghost use Rattle.shard_answers.specs.Stops.{FetchStops, size_refusal};

use crate::error::{CallFile, CoverFile, ShardError, ShardRefusal};
use shex_inputs::{Refusal, Source};
use shex_io::{FetchError, Files};
use std::alloc::Global;

/// Why a file is refused that has too many bytes.
fn size_of(source: CallFile) -> ShardRefusal
    ensures { result ≡ size_refusal source }
{
    match source {
        CallFile::Input(source) => ShardRefusal::Input(Refusal::Size(source)),
        CallFile::Cover(file) => ShardRefusal::Size(file),
    }
}

/// The bytes of a file, of which there may be 67,108,864. It is refused as `Size` where it has more.
pub fn fetch<F: Files>(
    alloc: Global,
    files: &mut F,
    name: &str,
    source: CallFile,
) -> Result<Vec<u8>, ShardError>
    ensures bytes { IfOk result (λ bytes. IsFile (F.told files.old) name.now bytes.items) }
    ensures stops { IfErr result (FetchStops (F.told files.old) name.now source (F.faults files.old) (F.faults files.new) (F.blame files.new) (F.act files.new)) }
    ensures faults_stay { OnOk result (F.faults files.new ≡ F.faults files.old) }
    ensures told_stays { F.told files.new ≡ F.told files.old }
{
    match shex_io::fetch(alloc, files, name) {
        Ok(bytes) => Ok(bytes),
        Err(FetchError::Failed) => Err(ShardError::Failed(source)),
        Err(FetchError::Long) => Err(ShardError::Refused(size_of(source))),
        Err(FetchError::Memory) => Err(ShardError::Memory),
    }
}
