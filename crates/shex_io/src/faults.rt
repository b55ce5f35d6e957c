//! The account of failed calls that each kind of named files keeps.

ghost use Rattle.std.specs.Prelude.{[], ◌≡◌, ◌≤◌, string_bytes};
ghost use Rattle.shex_io.specs.Faults.{Rose};

use crate::files::Act;
use std::alloc::Global;

/// How many calls failed, and which failed last.
#[derive(Drop)]
pub(crate) struct Faults {
    count: u64,
    blame: String,
    act: Act,
}

impl Faults {
    /// No call has failed.
    pub(crate) fn new(alloc: Global) -> Self
        ensures count { result.count ≡ 0 }
        ensures blame { string_bytes result.blame ≡ [] }
    {
        Faults {
            count: 0,
            blame: String::new(alloc),
            act: Act::Fetch,
        }
    }

    /// Notes that a call of this kind with this name failed.
    ///
    /// The count stands still at its last value.
    pub(crate) fn note(&mut self, name: String, act: Act)
        ensures rose { Rose self.old.count self.new.count }
        ensures never_falls { self.old.count ≤ self.new.count }
        ensures blame { string_bytes self.new.blame ≡ string_bytes name }
        ensures act { self.new.act ≡ act }
    {
        self.count = self.count.saturating_add(1);
        self.blame = name;
        self.act = act;
    }
}
