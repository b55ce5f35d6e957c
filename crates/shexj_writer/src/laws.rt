//! Laws of the definitions, for callers' proofs: each function's contract is a law, and its body is empty.

ghost use Rattle.shexj_writer.specs.Laws.{PlainHoldsOfTheSame, ReadAreExpressible, ReadAreHeld, WholeNumbersAreTold, WrittenAreRead};

/// Each document that bytes in ShExJ spell has a form in ShExJ, so it is read back.
pub fn read_are_expressible()
    ensures { ReadAreExpressible }
{}

/// The parts of each document that bytes in ShExJ spell are those that the types of a program allow.
pub fn read_are_held()
    ensures { ReadAreHeld }
{}

/// What is written of a document that has a form in ShExJ is read back as the document in plain form.
pub fn written_are_read()
    ensures { WrittenAreRead }
{}

/// A constraint whose facets are in plain form holds of the same terms as the constraint that it comes from.
pub fn plain_holds_of_the_same()
    ensures { PlainHoldsOfTheSame }
{}

/// The test for whole numbers says of a decimal text whether it stands for a whole number from -2^63 to 2^64 - 1.
pub fn whole_numbers_are_told()
    ensures { WholeNumbersAreTold }
{}
