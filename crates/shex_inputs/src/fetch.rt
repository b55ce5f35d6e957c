//! The bytes of the data file and the map file.

ghost use Rattle.std.specs.Prelude.{◌≡◌, IfErr, IfOk, OnOk};
ghost use Rattle.shex_io.specs.Fetching.{IsFile};
ghost use Rattle.shex_inputs.specs.Stops.{FetchStops};

use crate::error::{InputError, Refusal, Source};
use shex_io::{FetchError, Files};
use std::alloc::Global;

/// The bytes of a file of the inputs, within the limit.
pub fn fetch<F: Files>(
    alloc: Global,
    files: &mut F,
    name: &str,
    source: Source,
) -> Result<Vec<u8>, InputError>
    ensures bytes { IfOk result (λ bytes. IsFile (F.told files.old) name.now bytes.items) }
    ensures stops { IfErr result (FetchStops (F.told files.old) name.now source (F.faults files.old) (F.faults files.new) (F.blame files.new) (F.act files.new)) }
    ensures faults_stay { OnOk result (F.faults files.new ≡ F.faults files.old) }
    ensures told_stays { F.told files.new ≡ F.told files.old }
{
    match shex_io::fetch(alloc, files, name) {
        Ok(bytes) => Ok(bytes),
        Err(FetchError::Failed) => Err(InputError::Failed(source)),
        Err(FetchError::Long) => Err(InputError::Refused(Refusal::Size(source))),
        Err(FetchError::Memory) => Err(InputError::Memory),
    }
}
