//! Named files.

ghost use Rattle.std.specs.Prelude.{ℕ, List, Some, ◌≡◌, ◌≢◌, ◌≤◌, ◌<◌, ◌^◌, ◌⊎◌, length, OnOk, OnErr, IfOk};
ghost use Rattle.shex_io.specs.Faults.{Rose};
ghost use Rattle.shex_io.specs.Files.{Told, Holds, Lacks, IsTakenOf, HoldsPart, KeepsOthers};

use std::alloc::Global;
use thiserror::Error;

/// Why a file was not fetched.
#[derive(Clone, Copy, Debug, Drop, PartialEq, Eq, Error)]
pub enum FetchError {
    /// The outside refused; the count of faults rose.
    #[error("Failed")]
    Failed,
    /// The file has more bytes than the limit.
    #[error("Long")]
    Long,
    /// Memory was refused.
    #[error("Memory")]
    Memory,
}

/// Why a file was not stored.
#[derive(Clone, Copy, Debug, Drop, PartialEq, Eq, Error)]
pub enum StoreError {
    /// The outside refused; the count of faults rose.
    #[error("Failed")]
    Failed,
    /// Memory was refused.
    #[error("Memory")]
    Memory,
}

/// The kind of a call on named files.
#[derive(Clone, Copy, Debug, Drop, PartialEq, Eq)]
pub enum Act {
    /// A file was to be read.
    Fetch,
    /// A file was to be written.
    Store,
}

/// Files that are named by texts.
pub trait Files {
    ghost use Rattle.shex_io.specs.declared.files.Act.{Act};

    /// What the names hold, where this is told.
    ghost told: { Self → Told };

    /// How many bytes the last fetch took.
    ghost taken: { Self → ℕ };

    /// How many calls failed.
    ghost faults: { Self → ℕ };

    /// The bytes of the name in the call that failed last, empty where none did.
    ghost blame: { Self → List ℕ };

    /// The kind of the call that failed last.
    ghost act: { Self → Act };

    /// Reads the file of this name, if it has at most `limit` bytes.
    ///
    /// An absent file is a fault. The memory for the name is taken before a fault is answered.
    fn fetch(&mut self, alloc: Global, name: &str, limit: u64) -> Result<Vec<u8>, FetchError>
        ensures gives { IfOk result (λ bytes. Holds (told self.old) name.now (Some bytes.items)) }
        ensures absent { Lacks (told self.old) name.now
            → (result ≡ Err FetchError.Failed) ⊎ (result ≡ Err FetchError.Memory) }
        ensures told_stays { told self.new ≡ told self.old }

        // `Long` comes exactly where no fault rose and more than the limit was taken.
        ensures long { result ≡ Err FetchError.Long → limit < taken self.new }
        ensures above_limit { ¬ Rose (faults self.old) (faults self.new) → limit < taken self.new
            → result ≡ Err FetchError.Long }
        ensures length { IfOk result (λ bytes. taken self.new ≡ length bytes.items) }
        ensures within { IfOk result (λ bytes. length bytes.items ≤ limit) }
        ensures taken_whole { OnOk result
            (IsTakenOf (told self.old) name.now limit (taken self.new)) }
        ensures taken_part { result ≡ Err FetchError.Long
            → IsTakenOf (told self.old) name.now limit (taken self.new) }
        ensures taken_fits { taken self.new < 2 ^ 64 }

        // `Failed` comes only where a fault rose, and alone changes the faults.
        ensures failed { result ≡ Err FetchError.Failed → Rose (faults self.old) (faults self.new) }
        ensures blamed { result ≡ Err FetchError.Failed → blame self.new ≡ name.now }
        ensures acted { result ≡ Err FetchError.Failed → act self.new ≡ Act.Fetch }
        ensures never_falls { faults self.old ≤ faults self.new }
        ensures faults_stay { result ≢ Err FetchError.Failed → faults self.new ≡ faults self.old }
        ensures blame_stays { result ≢ Err FetchError.Failed → blame self.new ≡ blame self.old }
        ensures act_stays { result ≢ Err FetchError.Failed → act self.new ≡ act self.old };

    /// Makes these bytes the whole file of this name.
    ///
    /// After a refusal the name holds what it held before, or a prefix of the bytes.
    fn store(&mut self, name: &str, bytes: &[u8]) -> Result<(), StoreError>
        ensures holds { OnOk result (Holds (told self.new) name.now (Some bytes.now)) }
        ensures part { OnErr result (HoldsPart (told self.old) (told self.new) name.now bytes.now) }
        ensures others { KeepsOthers (told self.old) (told self.new) name.now }
        ensures taken_stays { taken self.new ≡ taken self.old }

        // `Failed` comes only where a fault rose, and alone changes the faults.
        ensures failed { result ≡ Err StoreError.Failed → Rose (faults self.old) (faults self.new) }
        ensures blamed { result ≡ Err StoreError.Failed → blame self.new ≡ name.now }
        ensures acted { result ≡ Err StoreError.Failed → act self.new ≡ Act.Store }
        ensures never_falls { faults self.old ≤ faults self.new }
        ensures faults_stay { result ≢ Err StoreError.Failed → faults self.new ≡ faults self.old }
        ensures blame_stays { result ≢ Err StoreError.Failed → blame self.new ≡ blame self.old }
        ensures act_stays { result ≢ Err StoreError.Failed → act self.new ≡ act self.old };
}
