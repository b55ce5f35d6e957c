//! Laws of readers and of what lies ahead of a cursor, for those that read: each function's contract is a law, and its body is empty.

ghost use Rattle.rdf_cursor.specs.Laws.{FaultsBlock, LoopsGoOn, StreamsAreTokens};

/// What lies ahead of a text's beginning is its tokens.
pub fn streams_are_tokens()
    ensures { StreamsAreTokens }
{}

/// A loop whose step takes a token is the step and the loop again, or nothing, so that no bound on its steps is needed.
pub fn loops_go_on()
    ensures { LoopsGoOn }
{}

/// Where a reader looks no further than the next token and reads each document that is spelled, no document goes on as
/// the text does at the place of a fault.
pub fn faults_block()
    ensures { FaultsBlock }
{}
