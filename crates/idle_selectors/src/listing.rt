//! The lines for idle selectors.

ghost use Rattle.std.specs.Prelude.{ℕ, List, ◌≡◌, ◌++◌, IfOk, OnOk, take};
ghost use Rattle.std.specs.List.{flat_map};
ghost use Rattle.shape_map.specs.Resolving.{IsSealedOnce};
ghost use Rattle.shape_map.specs.declared.items.Selector.TheVariants.{Node, Triples};
ghost use Rattle.idle_selectors.specs.Idle.{AreIdleLines};
ghost use Rattle.idle_selectors.specs.Noting.{Notes};
ghost use Rattle.idle_selectors.specs.Texts.{idle_text, more_line, other_text, pattern_text, selector_line};

use crate::finding::finds;
use crate::line::{Line, Lines};
use graph_index::graph::Graph;
use rdf_terms::table::TermTable;
use rdf_terms::terms::Term;
use rdf_terms::written::write_term;
use shape_map::{Focus, Item, Selector, ShapeMap, TriplePattern};
use std::alloc::{AllocError, Global};

/// Appends the end of a pattern that is not at the focus.
fn push_other(alloc: Global, other: &Option<Term>, out: &mut Vec<u8>) -> Result<(), AllocError>
    ensures { OnOk result (out.new.items ≡ out.old.items ++ other_text other.now) }
{
    match other {
        Some(node) => write_term(alloc, node, out),
        None => out.extend_from_slice(b"_"),
    }
}

/// Appends a pattern.
fn push_pattern(alloc: Global, pattern: &TriplePattern, out: &mut Vec<u8>) -> Result<(), AllocError>
    ensures { OnOk result (out.new.items ≡ out.old.items ++ pattern_text pattern.now) }
{
    match pattern.focus {
        Focus::Subject => {
            out.extend_from_slice(b"{FOCUS ")?;
            write_term(alloc, &pattern.predicate, out)?;
            out.extend_from_slice(b" ")?;
            push_other(alloc, &pattern.other, out)?;
            out.extend_from_slice(b"}")
        }
        Focus::Object => {
            out.extend_from_slice(b"{")?;
            push_other(alloc, &pattern.other, out)?;
            out.extend_from_slice(b" ")?;
            write_term(alloc, &pattern.predicate, out)?;
            out.extend_from_slice(b" FOCUS}")
        }
    }
}

/// Appends the line for a node that is not in the data.
fn push_absent(alloc: Global, node: &Term, out: &mut Vec<u8>) -> Result<(), AllocError>
    ensures { OnOk result (out.new.items ≡ out.old.items ++ selector_line (Node node.now)) }
{
    out.extend_from_slice(b"not in the data: ")?;
    write_term(alloc, node, out)?;
    out.extend_from_slice(b"\n")
}

/// Appends the line for a pattern that matches nothing.
fn push_unmatched(
    alloc: Global,
    pattern: &TriplePattern,
    out: &mut Vec<u8>,
) -> Result<(), AllocError>
    ensures { OnOk result (out.new.items ≡ out.old.items ++ selector_line (Triples pattern.now)) }
{
    out.extend_from_slice(b"nothing selected: ")?;
    push_pattern(alloc, pattern, out)?;
    out.extend_from_slice(b"\n")?;
    Ok(())
}

/// The line for an idle selector.
fn line_of(alloc: Global, selector: &Selector) -> Result<Vec<u8>, AllocError>
    ensures { IfOk result (λ v. v.items ≡ selector_line selector.now) }
{
    let mut line = Vec::new(alloc);
    match selector {
        Selector::Node(node) => push_absent(alloc, node, &mut line)?,
        Selector::Triples(pattern) => push_unmatched(alloc, pattern, &mut line)?,
    }
    Ok(line)
}

/// Adds the line for a selector, if it is idle.
fn note(
    alloc: Global,
    graph: &Graph,
    terms: &TermTable,
    selector: &Selector,
    lines: &mut Lines,
) -> Result<(), AllocError>
    requires { IsSealedOnce graph.now }
    ensures { OnOk result (Notes terms.now graph.now.triples selector.now lines.old lines.new) }
{
    if finds(graph, terms, selector) {
        Ok(())
    } else {
        lines.add(line_of(alloc, selector)?)
    }
}

/// The lines for the idle selectors of items, each once.
fn idle_lines(
    alloc: Global,
    graph: &Graph,
    terms: &TermTable,
    items: &[Item],
) -> Result<Lines, AllocError>
    requires { IsSealedOnce graph.now }
    ensures { IfOk result (AreIdleLines terms.now graph.now.triples items.now) }
{
    let mut lines = Lines::new(alloc);
    for item in items {
        note(alloc, graph, terms, &item.selector, &mut lines)?;
    }
    Ok(lines)
}

/// The first lines, at most so many.
fn shown(lines: &[Line], limit: usize) -> &[Line]
    ensures { result.now ≡ take limit lines.now }
{
    if lines.len() <= limit {
        lines
    } else {
        &lines[..limit]
    }
}

/// Appends lines.
fn push_all(lines: &[Line], out: &mut Vec<u8>) -> Result<(), AllocError>
    ensures { OnOk result (out.new.items ≡ out.old.items ++ flat_map (λ line. line) lines.now) }
{
    for line in lines {
        out.extend_from_slice(line.as_slice())?;
    }
    Ok(())
}

/// Appends a line that says how many more there are, if there are more.
fn push_more(alloc: Global, more: usize, out: &mut Vec<u8>) -> Result<(), AllocError>
    ensures { OnOk result (out.new.items ≡ out.old.items ++ more_line more) }
{
    if more == 0 {
        return Ok(());
    }
    let text = format!(in alloc; ".. {more} more\n")?;
    out.extend_from_slice(text.as_bytes())
}

/// Appends at most so many lines, and how many more there are.
fn push_limited(
    alloc: Global,
    lines: &[Line],
    limit: usize,
    out: &mut Vec<u8>,
) -> Result<(), AllocError>
    ensures { OnOk result (out.new.items ≡ out.old.items ++ idle_text limit lines.now) }
{
    push_all(shown(lines, limit), out)?;
    push_more(alloc, lines.len().saturating_sub(limit), out)
}

/// Appends a line for each selector of a map that finds nothing in a graph, each once and in the map's order: `nothing selected: PATTERN`
/// for a triple pattern that matches no triple, and `not in the data: NODE` for a node that is neither the subject nor the object of a
/// triple (ShapeMap Structure and Language, section 3.1). Of more than `limit` lines the first are appended, and a line that says how
/// many more there are. The graph is sealed. It fails for want of memory alone, and then some of the lines may be there.
pub fn push_idle_lines(
    alloc: Global,
    graph: &Graph,
    terms: &TermTable,
    map: &ShapeMap,
    limit: usize,
    out: &mut Vec<u8>,
) -> Result<(), AllocError>
    requires { IsSealedOnce graph.now }
    ensures { OnOk result ((lines : List (List ℕ)) × AreIdleLines terms.now graph.now.triples map.now lines × (out.new.items ≡ out.old.items ++ idle_text limit lines)) }
{
    let lines = idle_lines(alloc, graph, terms, map.items())?;
    push_limited(alloc, lines.as_slice(), limit, out)
}
