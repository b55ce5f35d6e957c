//! Schemas in ShExC.

use shexc_reader::read;
use std::alloc::{AllocError, Global};

/// That a text is read under the base `http://b.example/`, or why it is refused.
pub fn outcome(alloc: Global, text: &str) -> Result<String, AllocError> {
    match read(alloc, text.as_bytes(), "http://b.example/") {
        Ok(_) => String::from_str(alloc, "read"),
        Err(error) => format!(in alloc; "{error}"),
    }
}
