//! Laws of the texts of proofs: each function's contract is a law, and its body is empty.

ghost use Rattle.proof_file.specs.Laws.{LinesAreFew, ProofTextsAreDistinct, ProofsHaveTexts};

/// Claims that a proof that keeps the orders and limits has one text, where no text of a term or target holds a line feed.
pub fn proofs_have_texts()
    ensures { ProofsHaveTexts }
{}

/// Claims that no two proofs have the same text.
pub fn proof_texts_are_distinct()
    ensures { ProofTextsAreDistinct }
{}

/// Claims that a proof has at most as many lines, first and last aside, as its text has bytes.
pub fn lines_are_few()
    ensures { LinesAreFew }
{}
