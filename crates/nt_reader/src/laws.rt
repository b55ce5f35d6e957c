//! Laws of tokens and of documents, for those who read what `read` says: each clause is a law, and the body is empty.

ghost use Rattle.nt_reader.specs.Endings.{DocumentsHaveLines, ShortDocumentsHaveLines};
ghost use Rattle.nt_reader.specs.Laws.{LabelsStandBehindMarks, ShortStringsAreQuotedOnce, TagsStandBehindMarks};

/// Strings, labels and language tags are what their marks tell (RDF 1.1 N-Triples, sections 2.3 and 2.4).
pub fn tokens_are_marked()
    ensures strings { ShortStringsAreQuotedOnce }
    ensures labels { LabelsStandBehindMarks }
    ensures tags { TagsStandBehindMarks }
{}

/// The law that each term of a document can stand on one line, since an IRI and a label are spelled without a line feed
/// and the text of a literal escapes it.
pub fn documents_have_lines()
    ensures any { DocumentsHaveLines }
    ensures short { ShortDocumentsHaveLines }
{}
