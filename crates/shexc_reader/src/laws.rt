//! Laws of documents in ShExC, for callers' proofs: each function's contract is a law, and its body is empty.

ghost use Rattle.shexc_reader.specs.Documents.{DocumentsAreOne};
ghost use Rattle.shexc_reader.specs.Laws.{DocumentsAreOrdered, ImportsHaveSchemes, NamesHaveLines};

/// The bytes are one document at most.
pub fn documents_are_one()
    ensures { DocumentsAreOne }
{}

/// No minimum of a document that bytes spell is above its bound.
pub fn documents_are_ordered()
    ensures { DocumentsAreOrdered }
{}

/// Each import of a document has a scheme where the base has one, so the import's IRI can be the base of what it names.
pub fn imports_have_schemes()
    ensures { ImportsHaveSchemes }
{}

/// Where the base is on one line, so are the base and the IRI of each prefix at the end of a document.
pub fn names_have_lines()
    ensures { NamesHaveLines }
{}
