//! The items of a shape map.

use rdf_terms::terms::Term;
use rdf_terms::written::write_term;
use shape_map::{Focus, Item, Selector, ShapeMap, TriplePattern};
use std::alloc::{AllocError, Global};

/// Appends a term, or `_` where there is none.
fn push_other(alloc: Global, other: Option<&Term>, out: &mut Vec<u8>) -> Result<(), AllocError> {
    match other {
        Some(term) => write_term(alloc, term, out),
        None => out.extend_from_slice(b"_"),
    }
}

/// Appends a triple pattern.
fn push_pattern(
    alloc: Global,
    pattern: &TriplePattern,
    out: &mut Vec<u8>,
) -> Result<(), AllocError> {
    if pattern.focus == Focus::Subject {
        out.extend_from_slice(b"{FOCUS ")?;
        write_term(alloc, &pattern.predicate, out)?;
        out.push(b' ')?;
        push_other(alloc, pattern.other.as_ref(), out)?;
    } else {
        out.push(b'{')?;
        push_other(alloc, pattern.other.as_ref(), out)?;
        out.push(b' ')?;
        write_term(alloc, &pattern.predicate, out)?;
        out.extend_from_slice(b" FOCUS")?;
    }
    out.extend_from_slice(b"}")
}

/// Appends an item, and a separator before each but the first.
fn push_item(alloc: Global, item: &Item, out: &mut Vec<u8>) -> Result<(), AllocError> {
    if !out.is_empty() {
        out.extend_from_slice(b", ")?;
    }
    match &item.selector {
        Selector::Node(term) => write_term(alloc, term, out)?,
        Selector::Triples(pattern) => push_pattern(alloc, pattern, out)?,
    }
    out.extend_from_slice(if item.want { b"@" } else { b"@!" })?;
    out.extend_from_slice(item.target.text(alloc)?.as_bytes())
}

/// The items of a map, with commas between them.
pub fn items(alloc: Global, map: &ShapeMap) -> Result<String, AllocError> {
    let mut out = Vec::new(alloc);
    for item in map.items() {
        push_item(alloc, item, &mut out)?;
    }
    String::from_utf8_lossy(alloc, out.as_slice())
}
