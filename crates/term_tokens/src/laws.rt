//! Laws of what tokens stand for, for those that read: each function's contract is a law, and its body is empty.

ghost use Rattle.term_tokens.specs.Laws.{TextsAreRead, NamesAreNamed};

/// The characters that a token stands for.
pub fn texts_are_read()
    ensures { TextsAreRead }
{}

/// The name of a blank node by its printed name.
pub fn names_are_named()
    ensures { NamesAreNamed }
{}
