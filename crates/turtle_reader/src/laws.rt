//! Laws of documents, for those who read what `read` says.

ghost use Rattle.turtle_reader.specs.Documents.{DocumentsAreOne, DocumentsHaveLines, LimitedDocumentsAreOne, LimitedDocumentsAreDocuments};

/// The laws that the same bytes with the same base are one document at most, of whatever lengths and depth and so within
/// the limits too, and that a document within the limits is the same without them.
pub fn documents_are_one()
    ensures any { DocumentsAreOne }
    ensures limited { LimitedDocumentsAreOne }
    ensures within { LimitedDocumentsAreDocuments }
{}

/// The law that under a base on one line each term of a document can stand on one line, and that the base and the IRI of
/// each prefix at its end are on one line.
pub fn documents_have_lines()
    ensures { DocumentsHaveLines }
{}
