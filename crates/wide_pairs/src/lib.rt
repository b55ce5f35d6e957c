//! The pairs whose Width is above a budget, and the lines that are printed for them.
#![tactic(auto)]

ghost use Rattle.std.specs.Prelude.{◌≡◌, ◌++◌, OnOk};
ghost use Rattle.rdf_terms.specs.Order.{text_at};
ghost use Rattle.wide_pairs.specs.Lines.{wide_line, wide_lines};

pub mod laws;

use rdf_terms::table::TermTable;
use rdf_terms::terms::TermId;
use rdf_terms::written::write_term;
use std::alloc::{AllocError, Global};
use typing_refiner::building::WidePair;

/// Appends the text of the term of a number, if it is of the table.
fn push_term(
    alloc: Global,
    terms: &TermTable,
    node: TermId,
    out: &mut Vec<u8>,
) -> Result<(), AllocError>
    ensures { OnOk result (out.new.items ≡ out.old.items ++ text_at terms.now node) }
{
    if (node.0 as usize) < terms.len() {
        write_term(alloc, terms.get(node), out)?;
    }
    Ok(())
}

/// Appends the line for a wide pair.
fn push_wide(
    alloc: Global,
    terms: &TermTable,
    budget: u64,
    wide: WidePair,
    out: &mut Vec<u8>,
) -> Result<(), AllocError>
    ensures { OnOk result (out.new.items ≡ out.old.items ++ wide_line terms.now budget wide) }
{
    out.extend_from_slice(b"wide ")?;
    push_term(alloc, terms, wide.pair.node, out)?;
    let rest = format!(in alloc;
        " #{} width {} budget {}\n",
        wide.pair.shape.0, wide.width, budget
    )?;
    out.extend_from_slice(rest.as_bytes())
}

/// Appends a line `wide NODE #SHAPE width W budget N` for each wide pair, in their order. It fails for want of memory alone, and
/// then some of the lines may be there.
pub fn push_lines(
    alloc: Global,
    terms: &TermTable,
    budget: u64,
    wide: &[WidePair],
    out: &mut Vec<u8>,
) -> Result<(), AllocError>
    ensures { OnOk result (out.new.items ≡ out.old.items ++ wide_lines terms.now budget wide.now) }
{
    for pair in wide {
        push_wide(alloc, terms, budget, *pair, out)?;
    }
    Ok(())
}
