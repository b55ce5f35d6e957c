//! Patterns that are too large to be written down.

use crate::documents::repeated;
use std::alloc::{AllocError, Global};
use std::test::Fail;
use xs_pattern::{Pattern, PatternError};

/// Whether the pattern is found in the text, or why it is refused.
fn search(
    alloc: Global,
    pattern: &str,
    flags: &str,
    text: &str,
) -> Result<Result<bool, PatternError>, AllocError> {
    match Pattern::read(alloc, pattern, flags) {
        Ok(pattern) => Ok(Ok(pattern.found(alloc, text)?)),
        Err(error) => Ok(Err(error)),
    }
}

#[test]
fn as_many_positions_as_the_limit_are_read(rt: HostRuntime) -> Result<(), Fail> {
    for (length, want) in [(4096, true), (4095, false)] {
        let text = repeated(rt.alloc(), "", "a", length, "")?;
        let found = search(rt.alloc(), "(a{64}){64}", "", text.as_str())?;
        assert_eq!(rt; found, Ok(want), "in {length} letters");
    }
    Ok(())
}

/// Each character is a position under the flag of literals, and nested repetitions are answered at once.
#[test]
fn literal_characters_are_positions_and_nested_repetitions_end(
    rt: HostRuntime,
) -> Result<(), Fail> {
    let alloc = rt.alloc();
    for (part, number, flags, length, want) in [
        (".", 4096, "q", 0, Ok(false)),
        (".", 4097, "q", 0, Err(PatternError::Large)),
        ("(a*)*b", 1, "", 100_000, Ok(false)),
    ] {
        let pattern = repeated(alloc, "", part, number, "")?;
        let text = repeated(alloc, "", "a", length, "")?;
        let found = search(alloc, pattern.as_str(), flags, text.as_str())?;
        assert_eq!(rt; found, want, "{part} {number} times in {length} letters");
    }
    Ok(())
}
