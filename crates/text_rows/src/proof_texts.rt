//! Texts of proofs, read and written again.

ghost use Rattle.proof_file.specs.Text.{Keeps};

use proof_file::Proof;
use proof_file::read::read;
use proof_file::write::write;
use std::alloc::{AllocError, Global};

/// A text with a line feed for each `¶`.
fn with_line_feeds(alloc: Global, text: &str) -> Result<String, AllocError> {
    let mut out = String::new(alloc);
    for character in text.chars() {
        out.push(if character == '¶' { '\n' } else { character })?;
    }
    Ok(out)
}

/// What is written of a proof.
fn text_of(alloc: Global, proof: &Proof) -> Result<String, AllocError>
    requires { Keeps proof.now }
{
    String::from_utf8_lossy(alloc, write(alloc, proof)?.as_slice())
}

/// What is written of the proof that bytes are read as, or why they are none.
pub fn rewritten(alloc: Global, bytes: &[u8]) -> Result<String, AllocError> {
    match read(alloc, bytes) {
        Ok(proof) => text_of(alloc, &proof),
        Err(error) => format!(in alloc; "{error}"),
    }
}

/// What is written of the proof that a text is read as in which `¶` stands for a line feed, or why it is none.
pub fn of_line(alloc: Global, text: &str) -> Result<String, AllocError> {
    rewritten(alloc, with_line_feeds(alloc, text)?.as_bytes())
}
