//! What is noted beside an explanation.

ghost use Rattle.std.specs.Prelude.{ℕ, List, ◌≡◌, ◌++◌, IfOk, OnOk};
ghost use Rattle.explanation_texts.specs.Names.{shape_name};
ghost use Rattle.rdf_terms.specs.Order.{text_at};
ghost use Rattle.shape_map.specs.Resolving.{IsSealedOnce};
ghost use Rattle.shex_tools.specs.Notes.{AreIdleNotes, name_mark, named_by, named_line, named_lines, number_mark, width_mark};

use explanation_texts::Setting;
use explanation_texts::names::Names;
use graph_index::graph::Graph;
use idle_selectors::push_idle_lines;
use rdf_terms::table::TermTable;
use rdf_terms::terms::TermId;
use rdf_terms::written::write_term;
use schema_tree::schema::ShapeId;
use shape_map::ShapeMap;
use std::alloc::{AllocError, Global};
use typing_refiner::building::WidePair;

/// Appends the text of the term of a number, if it is of the table.
fn push_term(
    alloc: Global,
    terms: &TermTable,
    node: TermId,
    out: &mut Vec<u8>,
) -> Result<(), AllocError>
    ensures { OnOk result (out.new.items ≡ out.old.items ++ text_at terms.now node) }
{
    if (node.0 as usize) < terms.len() {
        write_term(alloc, terms.get(node), out)?;
    }
    Ok(())
}

/// Appends the number of a Shape.
fn push_number(alloc: Global, shape: ShapeId, out: &mut Vec<u8>) -> Result<(), AllocError>
    ensures { OnOk result (out.new.items ≡ out.old.items ++ number_mark shape) }
{
    let text = format!(in alloc; " #{}", shape.0)?;
    out.extend_from_slice(text.as_bytes())
}

/// Appends a Width and the budget.
fn push_width(alloc: Global, width: u64, budget: u64, out: &mut Vec<u8>) -> Result<(), AllocError>
    ensures { OnOk result (out.new.items ≡ out.old.items ++ width_mark width budget) }
{
    let text = format!(in alloc; " width {width} budget {budget}\n")?;
    out.extend_from_slice(text.as_bytes())
}

/// Appends a space and a name, if it is not empty.
fn push_mark(name: &[u8], out: &mut Vec<u8>) -> Result<(), AllocError>
    ensures { OnOk result (out.new.items ≡ out.old.items ++ name_mark name.now) }
{
    if name.len() == 0 {
        return Ok(());
    }
    out.extend_from_slice(b" ")?;
    out.extend_from_slice(name)
}

/// Appends a space and the name of a Shape, if it has one.
fn push_name(names: &Names, shape: ShapeId, out: &mut Vec<u8>) -> Result<(), AllocError>
    ensures { OnOk result (out.new.items ≡ out.old.items ++ name_mark (shape_name names.now shape)) }
{
    match names.shapes.as_slice().get(shape.0 as usize) {
        Some(name) => push_mark(name.as_slice(), out),
        None => Ok(()),
    }
}

/// Appends the line for a wide pair.
fn push_wide(
    setting: &Setting<'_>,
    budget: u64,
    wide: WidePair,
    out: &mut Vec<u8>,
) -> Result<(), AllocError>
    ensures { OnOk result (out.new.items ≡ out.old.items ++ named_line setting.now.names.now setting.now.terms.now budget wide) }
{
    out.extend_from_slice(b"wide ")?;
    push_term(setting.alloc, setting.terms, wide.pair.node, out)?;
    push_number(setting.alloc, wide.pair.shape, out)?;
    push_name(setting.names, wide.pair.shape, out)?;
    push_width(setting.alloc, wide.width, budget, out)?;
    Ok(())
}

/// Appends the lines for wide pairs.
fn push_wides(
    setting: &Setting<'_>,
    budget: u64,
    wide: &[WidePair],
    out: &mut Vec<u8>,
) -> Result<(), AllocError>
    ensures { OnOk result (out.new.items ≡ out.old.items ++ named_lines setting.now.names.now setting.now.terms.now budget wide.now) }
{
    for pair in wide {
        push_wide(setting, budget, *pair, out)?;
    }
    Ok(())
}

/// The lines for wide pairs, where something is not told.
#[tactic(auto, unfolding(crate::specs::Notes::named_by))]
pub fn wide_notes(
    setting: &Setting<'_>,
    budget: u64,
    undecided: bool,
    wide: &[WidePair],
) -> Result<Vec<u8>, AllocError>
    ensures { IfOk result (λ v. v.items ≡ named_by setting.now.names.now setting.now.terms.now budget undecided wide.now) }
{
    let mut notes = Vec::new(setting.alloc);
    if undecided {
        push_wides(setting, budget, wide, &mut notes)?;
    }
    Ok(notes)
}

/// Appends the lines for the idle selectors of a map.
pub fn push_idle_notes(
    setting: &Setting<'_>,
    graph: &Graph,
    map: &ShapeMap,
    out: &mut Vec<u8>,
) -> Result<(), AllocError>
    requires { IsSealedOnce graph.now }
    ensures { OnOk result ((idle : List ℕ) × AreIdleNotes setting.now.terms.now graph.now.triples map.now setting.now.limit idle × (out.new.items ≡ out.old.items ++ idle)) }
{
    push_idle_lines(setting.alloc, graph, setting.terms, map, setting.limit, out)
}
