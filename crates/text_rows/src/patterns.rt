//! Patterns: whether they are found in a text, or how they are refused.

use anyhow::bail;
use std::alloc::{AllocError, Global};
use xs_pattern::Pattern;

/// Whether a pattern under flags is found in a text, or how it is refused.
fn search(alloc: Global, pattern: &str, flags: &str, text: &str) -> Result<String, AllocError> {
    let pattern = match Pattern::read(alloc, pattern, flags) {
        Ok(pattern) => pattern,
        Err(error) => return format!(in alloc; "{error}"),
    };
    let found = pattern.found(alloc, text)?;
    String::from_str(alloc, if found { "found" } else { "not found" })
}

/// Whether a pattern that stands behind its flags and a slash is found in a text, or how it is refused.
pub fn sought(alloc: Global, flagged: &str, text: &str) -> anyhow::Result<String> {
    let Some((flags, pattern)) = flagged.split_once('/') else {
        bail!("a pattern stands behind its flags and a slash");
    };
    Ok(search(alloc, pattern, flags, text)?)
}
