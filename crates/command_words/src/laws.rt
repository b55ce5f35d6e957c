//! Laws of what words ask for, for callers' proofs.

ghost use Rattle.command_words.specs.Laws.{AnswersAreOne};

/// Words ask for one command at most and for one drill at most, and have one first fault at most; words that ask for a
/// command ask for no drill and have no first fault.
pub fn answers_are_one()
    ensures { AnswersAreOne }
{}
