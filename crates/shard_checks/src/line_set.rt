//! Lines that are found by their bytes.

ghost use Rattle.std.specs.Prelude.{◌≡◌, ℕ, List, map};
ghost use Rattle.std.specs.Cmp.Lexicographic.{slice_cmp};
ghost use Rattle.std.specs.Ordering.{nat_cmp};
ghost use Rattle.shard_checks.specs.Lines.{is_among};
ghost use Rattle.shard_checks.specs.Sets.{Knows};

use std::cmp::Ordering;

/// The order of two lines by their bytes.
fn order(line: &[u8], other: &[u8]) -> Ordering
    ensures { result ≡ slice_cmp nat_cmp line.now other.now }
{
    line.cmp(&other)
}

/// A set of lines, which stand in order and are found by halving.
#[derive(Drop)]
pub(crate) struct LineSet<'a> {
    lines: Vec<&'a [u8]>,
}

impl<'a> LineSet<'a> {
    /// The set of these lines. Where they stand in order already, it is made in one pass.
    pub(crate) fn of(mut lines: Vec<&'a [u8]>) -> LineSet<'a>
        ensures { Knows result.lines.items (map (λ x. x.now) lines.entry.items) }
    {
        lines.sort_unstable();
        LineSet { lines }
    }

    /// Whether the line is one of them.
    pub(crate) fn has(&self, line: &[u8]) -> bool
        ensures { (lines : List (List ℕ)) → Knows self.now.lines.items lines → result ≡ is_among line.now lines }
    {
        let lines = self.lines.as_slice();
        lines.binary_search_by(|other| order(*other, line)).is_ok()
    }
}
