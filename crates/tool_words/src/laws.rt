//! Laws of what words ask for, for callers' proofs.

ghost use Rattle.tool_words.specs.Laws.{AnswersAreOne};

/// Words ask `shextool` for one thing at most, and `typing_session` too; they have one first fault at most, and none where they
/// ask for something.
pub fn answers_are_one()
    ensures { AnswersAreOne }
{}
