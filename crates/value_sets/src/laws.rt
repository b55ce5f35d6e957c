//! Laws of the definitions, for callers' proofs: each function's contract is a law, and its body is empty.
ghost use Rattle.value_sets.specs.Laws.{ValuesAreDecided};

/// A value set holds for a term or does not.
pub fn values_are_decided()
    ensures { ValuesAreDecided }
{}
