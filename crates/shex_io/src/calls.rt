//! The numbers of calls, from 0 on, and which of them are to fail.

ghost use Rattle.std.specs.Prelude.{◌≡◌, ◌↔◌, IsTrue, Contains};
ghost use Rattle.shex_io.specs.Calls.{one_more};

/// The calls that are to fail, and how many were made.
#[derive(Drop)]
pub(crate) struct Calls {
    fail: Vec<u64>,
    made: u64,
}

impl Calls {
    /// No call was made.
    pub(crate) fn new(fail: Vec<u64>) -> Self
        ensures fail { result.fail.items ≡ fail.items }
        ensures made { result.made ≡ 0 }
    {
        Calls { fail, made: 0 }
    }

    /// Counts a call, and says whether it is to fail.
    pub(crate) fn next_fails(&mut self) -> bool
        ensures listed { IsTrue result ↔ Contains self.old.fail.items self.old.made }
        ensures fail { self.new.fail.items ≡ self.old.fail.items }
        ensures made { self.new.made ≡ one_more self.old.made }
    {
        let listed = self.fail.contains(&self.made);
        self.made = self.made.saturating_add(1);
        listed
    }
}
