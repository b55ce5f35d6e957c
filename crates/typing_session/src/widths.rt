//! The pairs that are too wide to be looked into.

ghost use Rattle.std.specs.Prelude.{ℕ, ◌≡◌, ◌++◌, IfOk, OnOk};
ghost use Rattle.graph_index.specs.Contents.{IsSealedWith};
ghost use Rattle.schema_tree.specs.declared.schema.Pair.{Pair as Held};
ghost use Rattle.schema_tree.specs.Loaded.{IsLoaded};
ghost use Rattle.typing_refiner.specs.Building.{AreWidths, wide_of, wide_one};

use graph_index::graph::Graph;
use rdf_terms::table::TermTable;
use schema_tree::schema::{Pair, Schema};
use std::alloc::{AllocError, Global};
use typing_refiner::building::{WidePair, width_of_pair};

/// Appends a pair with its Width where that is above the budget.
fn push_wide(
    pair: Pair,
    width: u64,
    budget: u64,
    wide: &mut Vec<WidePair>,
) -> Result<(), AllocError>
    ensures { OnOk result (wide.new.items ≡ wide.old.items ++ wide_one pair width budget) }
{
    if width <= budget {
        return Ok(());
    }
    wide.push(WidePair { pair, width })?;
    Ok(())
}

/// Those of the pairs whose Width is above the budget, in their order.
pub(crate) fn wide_among(
    alloc: Global,
    schema: &Schema,
    graph: &Graph,
    terms: &TermTable,
    pairs: &[Pair],
    budget: u64,
) -> Result<Vec<WidePair>, AllocError>
    requires loaded { IsLoaded schema.now }
    requires sealed { IsSealedWith terms.now graph.now }
    ensures { IfOk result (λ w. (width : Held → ℕ) → AreWidths schema.now terms.now graph.now.triples width → w.items ≡ wide_of width budget pairs.now) }
{
    let mut wide = Vec::new(alloc);
    for pair in pairs {
        let width = width_of_pair(alloc, schema, graph, terms, *pair)?;
        push_wide(*pair, width, budget, &mut wide)?;
    }
    Ok(wide)
}
