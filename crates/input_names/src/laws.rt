//! Laws of what is to be read, for callers' proofs.

ghost use Rattle.input_names.specs.Laws.{BasesAreLines};

/// A base is on one line, where it is UTF-8 and passes its check.
pub fn bases_are_lines()
    ensures { BasesAreLines }
{}
