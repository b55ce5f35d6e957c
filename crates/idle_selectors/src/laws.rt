//! The law of idle selectors, for callers' proofs: its contract is the law, and it does nothing when called.

ghost use Rattle.idle_selectors.specs.Laws.{LinesAreExact};

/// Each selector of a map that is idle has its line, and each line is that of one that is.
pub fn lines_are_exact()
    ensures { LinesAreExact }
{}
