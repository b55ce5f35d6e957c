//! References: resolved against a base, and cut into their components (RFC 3986).

use iri_resolve::{resolve, split};
use std::alloc::{AllocError, Global};

/// The text that a reference stands for under a base, or why there is none.
pub fn resolved(alloc: Global, base: &str, reference: &str) -> Result<String, AllocError> {
    match resolve(alloc, base, reference) {
        Ok(text) => Ok(text),
        Err(error) => format!(in alloc; "{error:?}"),
    }
}

/// Appends a component, if it is there.
fn push_part(out: &mut String, name: &str, part: Option<&str>) -> Result<(), AllocError> {
    let Some(part) = part else {
        return Ok(());
    };
    if !out.is_empty() {
        out.push_str(", ")?;
    }
    write!(out, "{name} {part:?}")
}

/// The components of a reference, each with its name.
pub fn components(alloc: Global, reference: &str) -> Result<String, AllocError> {
    let parts = split(reference);
    let mut out = String::new(alloc);
    push_part(&mut out, "scheme", parts.scheme)?;
    push_part(&mut out, "authority", parts.authority)?;
    push_part(&mut out, "path", Some(parts.path))?;
    push_part(&mut out, "query", parts.query)?;
    push_part(&mut out, "fragment", parts.fragment)?;
    Ok(out)
}
