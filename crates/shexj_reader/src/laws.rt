//! Laws of the definitions, for callers' proofs: each function's contract is a law, and its body is empty.

ghost use Rattle.shexj_reader.specs.Laws.{DocumentsAreOne, DocumentsAreOrdered, RefusedAreNone};

/// Bytes spell one document at most.
pub fn documents_are_one()
    ensures { DocumentsAreOne }
{}

/// Bytes that are refused for another cause than want of memory spell no document.
pub fn refused_are_none()
    ensures { RefusedAreNone }
{}

/// No minimum of a document that bytes spell is above its bound.
pub fn documents_are_ordered()
    ensures { DocumentsAreOrdered }
{}
