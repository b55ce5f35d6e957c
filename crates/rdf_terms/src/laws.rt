//! Laws of the definitions, for callers' proofs: each function's contract is a law, and its body is empty.

ghost use Rattle.rdf_terms.specs.Laws.{AddingBringsLines, NamesAreOne, PrintedNamesAreDistinct, PrintedNamesAreRead, TextsAreDistinct};

/// A printed name is that of one blank node, and is read as its name.
pub fn printed_names_are_read()
    ensures read { PrintedNamesAreRead }
    ensures one { NamesAreOne }
    ensures distinct { PrintedNamesAreDistinct }
{}

/// The text of a term is that of no other term.
pub fn texts_are_distinct()
    ensures { TextsAreDistinct }
{}

/// Where each term of a table can stand on one line, each can when the table has taken up more such terms.
pub fn adding_brings_lines()
    ensures { AddingBringsLines }
{}
