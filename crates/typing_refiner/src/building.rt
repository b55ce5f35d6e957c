//! What a refinement reads is put together.

ghost use Rattle.std.specs.Prelude.{ℕ, ◌≡◌, ◌≤◌, ◌<◌, ◌++◌, ◌-◌, ◌^◌, ◌∷◌, [], All, Contains, IfOk, OnOk, map, length, slice_get, Some, Option};
ghost use Rattle.graph_index.specs.Contents.{IsSealedWith};
ghost use Rattle.lists.specs.Distinct.{AreDistinct};
ghost use Rattle.schema_tree.specs.declared.schema.Pair.{Pair as Held};
ghost use Rattle.schema_tree.specs.Loaded.{IsLoaded};
ghost use Rattle.demand.specs.Orders.{max_pairs};
ghost use Rattle.demand.specs.Links.{AreLinks};
ghost use Rattle.typing_refiner.specs.Building.{AreAddedAt, AreWidths, AreEmpty, AreNeeds, IsAddedAt, is_within, told_width, wide_by, wide_of};

use bag_match::width;
use demand::links::{Link, links};
use demand::needs::needs_into;
use demand::table::{PairError, PairTable};
use graph_index::graph::Graph;
use rdf_terms::items::Items;
use rdf_terms::table::TermTable;
use schema_tree::schema::{Pair, Schema};
use std::alloc::{AllocError, Global};

/// A pair whose Width is above the budget.
#[derive(Clone, Copy, Debug, PartialEq, Eq)]
pub struct WidePair {
    /// The pair.
    pub pair: Pair,
    /// Its Width, or 18,446,744,073,709,551,615 where it is more.
    pub width: u64,
}

/// Which pairs are within the budget, and the others.
#[derive(Drop)]
pub struct Told {
    /// Whether the Width of each pair is within the budget.
    pub narrow: Vec<bool>,
    /// The pairs whose Width is above it.
    pub wide: Vec<WidePair>,
}

/// Adds a pair that is not within the budget.
fn push_wide(
    within: bool,
    pair: Pair,
    width: u64,
    wide: &mut Vec<WidePair>,
) -> Result<(), AllocError>
    ensures { OnOk result (wide.new.items ≡ wide.old.items ++ wide_by within pair width) }
{
    if !within {
        wide.push(WidePair { pair, width })?;
    }
    Ok(())
}

/// The Width of a pair, or 18,446,744,073,709,551,615 where it is more. It fails for want of memory alone.
pub fn width_of_pair(
    alloc: Global,
    schema: &Schema,
    graph: &Graph,
    terms: &TermTable,
    pair: Pair,
) -> Result<u64, AllocError>
    requires loaded { IsLoaded schema.now }
    requires sealed { IsSealedWith terms.now graph.now }
    ensures { IfOk result (λ r. (width : Held → ℕ) → AreWidths schema.now terms.now graph.now.triples width → r ≡ told_width width pair) }
{
    width(alloc, schema, graph, terms, pair)
}

/// Tells the Widths of pairs.
pub(crate) fn tell_widths(
    alloc: Global,
    schema: &Schema,
    graph: &Graph,
    terms: &TermTable,
    pairs: &[Pair],
    budget: u64,
) -> Result<Told, AllocError>
    requires loaded { IsLoaded schema.now }
    requires sealed { IsSealedWith terms.now graph.now }
    ensures narrow { IfOk result (λ w. (width : Held → ℕ) → AreWidths schema.now terms.now graph.now.triples width → w.narrow.items ≡ map (is_within width budget) pairs.now) }
    ensures wide { IfOk result (λ w. (width : Held → ℕ) → AreWidths schema.now terms.now graph.now.triples width → w.wide.items ≡ wide_of width budget pairs.now) }
{
    let mut narrow = Vec::new(alloc);
    let mut wide = Vec::new(alloc);
    for pair in pairs {
        let width = width_of_pair(alloc, schema, graph, terms, *pair)?;
        let within = width <= budget;
        narrow.push(within)?;
        push_wide(within, *pair, width, &mut wide)?;
    }
    Ok(Told { narrow, wide })
}

/// The table of pairs.
pub(crate) fn table_of(alloc: Global, pairs: &[Pair]) -> Result<PairTable, AllocError>
    requires distinct { AreDistinct pairs.now }
    requires few { length pairs.now ≤ max_pairs }
    ensures { IfOk result (λ t. t ≡ pairs.now) }
{
    let mut table = PairTable::with_room(alloc, pairs.len())?;
    for pair in pairs {
        match table.put(*pair) {
            Ok(()) => {}
            Err(PairError::Full) => unreachable!(),
            Err(PairError::Memory) => return Err(AllocError),
        }
    }
    Ok(table)
}

/// Empty lists, as many as this.
pub(crate) fn empty_lists(alloc: Global, count: usize) -> Result<Vec<Vec<u32>>, AllocError>
    ensures count { IfOk result (λ v. length v.items ≡ count) }
    ensures empty { IfOk result (λ v. AreEmpty (map (λ l. l.items) v.items)) }
{
    let mut lists = Vec::new(alloc);
    for _ in 0..count {
        lists.push(Vec::new(alloc))?;
    }
    Ok(lists)
}

/// Adds a number to one of the lists.
pub(crate) fn add_number(lists: &mut Vec<Vec<u32>>, at: u32, number: u32) -> Result<(), AllocError>
    requires there { at < length lists.old.items }
    ensures added { OnOk result (IsAddedAt (map (λ l. l.items) lists.old.items) at number (map (λ l. l.items) lists.new.items)) }
    ensures same { length lists.new.items ≡ length lists.old.items }
{
    lists[at as usize].push(number)?;
    Ok(())
}

/// Adds a number to the lists of those of the pairs that the table holds.
fn add_needs(
    table: &PairTable,
    found: &[Pair],
    number: u32,
    lists: &mut Vec<Vec<u32>>,
) -> Result<(), AllocError>
    requires each { length lists.old.items ≡ length table.now }
    ensures added { OnOk result (AreAddedAt table.now (map (λ l. l.items) lists.old.items) found.now number (map (λ l. l.items) lists.new.items)) }
    ensures same { length lists.new.items ≡ length lists.old.items }
{
    let _count = table.len();
    for pair in found {
        if let Some(at) = table.find(*pair) {
            add_number(lists, at, number)?;
        }
    }
    Ok(())
}

/// For each pair of the table the numbers of those that need it.
pub(crate) fn needing(
    alloc: Global,
    schema: &Schema,
    graph: &Graph,
    terms: &TermTable,
    links: &[Items<Link>],
    table: &PairTable,
) -> Result<Vec<Vec<u32>>, AllocError>
    requires links { AreLinks schema.now links.now }
    requires sealed { IsSealedWith terms.now graph.now }
    ensures { IfOk result (λ v. AreNeeds schema.now graph.now.triples table.now (map (λ l. l.items) v.items)) }
{
    let mut lists = empty_lists(alloc, table.len())?;
    let mut found = Vec::new(alloc);
    let mut number = 0;
    while number < table.len() {
        let pair = table.as_slice()[number];
        needs_into(schema, links, graph, terms, pair, &mut found)?;
        add_needs(table, found.as_slice(), number as u32, &mut lists)?;
        number += 1;
    }
    Ok(lists)
}
