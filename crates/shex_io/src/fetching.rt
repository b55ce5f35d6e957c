//! Files that have a limit.

ghost use Rattle.std.specs.Prelude.{◌≡◌, IfErr, IfOk, OnOk};
ghost use Rattle.shex_io.specs.Fetching.{FetchStops, IsFile};

use crate::files::{FetchError, Files};
use std::alloc::Global;

/// How many bytes a file of the inputs has at most.
pub const MAX_FILE: u64 = 67_108_864;

/// The bytes of a file, within the limit. It fails where the fetch fails, where the file has more than `MAX_FILE` bytes, and where
/// memory runs out.
pub fn fetch<F: Files>(alloc: Global, files: &mut F, name: &str) -> Result<Vec<u8>, FetchError>
    ensures bytes { IfOk result (λ bytes. IsFile (F.told files.old) name.now bytes.items) }
    ensures stops { IfErr result (FetchStops (F.told files.old) name.now (F.faults files.old) (F.faults files.new) (F.blame files.new) (F.act files.new)) }
    ensures faults_stay { OnOk result (F.faults files.new ≡ F.faults files.old) }
    ensures told_stays { F.told files.new ≡ F.told files.old }
{
    files.fetch(alloc, name, MAX_FILE)
}
