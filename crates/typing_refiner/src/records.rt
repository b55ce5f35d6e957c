//! Records of the verdicts of a refinement.

ghost use Rattle.std.specs.Prelude.{ℕ, [], ◌↔◌, ◌≡◌, ◌≢◌, ◌<◌, ◌≤◌, ◌+◌, ◌++◌, IfOk, IsTrue, List, OnOk, Option, Some, length, map, slice_get, slice_set};
ghost use Rattle.std.specs.List.{AllByRecursion};
ghost use Rattle.schema_tree.specs.declared.schema.ShapeId.{ShapeId as OfShape};
ghost use Rattle.schema_tree.specs.Edges.{level};
ghost use Rattle.schema_tree.specs.Typings.{top_of};
ghost use Rattle.proof_file.specs.declared.RecordKind.{RecordKind as Kind};
ghost use Rattle.typing_refiner.specs.Filing.{AreFiled, EndsWith, IsFiled, IsNumbered, IsPushed, put_confirmed, put_gone, put_strata, section_of, sections_from};
ghost use Rattle.typing_refiner.specs.Ready.{IsReady};

use crate::ground::Ground;
use crate::removal::Removed;
use crate::strata_loop::{Confirmed, top};
use proof_file::{Record, RecordKind, Section};
use rdf_terms::items::Items;
use rdf_terms::terms::TermId;
use std::alloc::{AllocError, Global};

/// Records, and the nodes that they count.
#[derive(Debug, Drop)]
pub struct Records {
    /// The nodes of the records, in the order of their texts.
    pub nodes: Vec<TermId>,
    /// The records of each stratum that has some.
    pub sections: Vec<Section>,
}

/// A place for each of so many pairs, with nothing said of them.
pub(crate) fn no_kinds(alloc: Global, count: usize) -> Result<Vec<Option<RecordKind>>, AllocError>
    ensures count { IfOk result (λ v. length v.items ≡ count) }
    ensures empty { IfOk result (λ v. (i : ℕ) (k : Kind) → slice_get v.items i ≢ Some (Some k)) }
{
    let mut kinds = Vec::new(alloc);
    for _ in 0..count {
        kinds.push(None)?;
    }
    Ok(kinds)
}

/// Puts what is said of a pair at its number.
fn put_kind(kinds: &mut Vec<Option<RecordKind>>, at: u32, kind: RecordKind)
    requires { at < length kinds.old.items }
    ensures { kinds.new.items ≡ slice_set kinds.old.items at (Some kind) }
{
    kinds[at as usize] = Some(kind);
}

/// Puts what is said of the pairs that went from a stratum.
fn put_removed(kinds: &mut Vec<Option<RecordKind>>, gone: Vec<Removed>)
    requires there { AllByRecursion (λ x. x.at < length kinds.old.items) gone.items }
    ensures put { kinds.new.items ≡ put_gone gone.items kinds.old.items }
    ensures same { length kinds.new.items ≡ length kinds.old.items }
{
    for removed in gone {
        put_kind(
            kinds,
            removed.at,
            RecordKind::Minus(removed.rank, removed.states),
        );
    }
}

/// Puts what is said of the pairs that went from each stratum.
pub(crate) fn put_all_removed(kinds: &mut Vec<Option<RecordKind>>, all: Vec<Vec<Removed>>)
    requires there { AllByRecursion (λ v. AllByRecursion (λ x. x.at < length kinds.old.items) v.items) all.items }
    ensures put { kinds.new.items ≡ put_strata (map (λ v. v.items) all.items) kinds.old.items }
    ensures same { length kinds.new.items ≡ length kinds.old.items }
{
    for gone in all {
        put_removed(kinds, gone);
    }
}

/// Puts what is said of the pairs that are confirmed.
pub(crate) fn put_all_confirmed(kinds: &mut Vec<Option<RecordKind>>, all: Vec<Confirmed>)
    requires there { AllByRecursion (λ c. c.at < length kinds.old.items) all.items }
    ensures put { kinds.new.items ≡ put_confirmed all.items kinds.old.items }
    ensures same { length kinds.new.items ≡ length kinds.old.items }
{
    for confirmed in all {
        put_kind(kinds, confirmed.at, RecordKind::Plus(confirmed.places));
    }
}

/// Whether the list ends with the node.
fn ends_with(nodes: &[TermId], node: TermId) -> bool
    ensures { IsTrue result ↔ EndsWith nodes.now node }
{
    let count = nodes.len();
    if count == 0 {
        return false;
    }
    nodes[count - 1].0 == node.0
}

/// The number of a node, which is last, and new where the list did not end with it.
fn number_of(nodes: &mut Vec<TermId>, node: TermId) -> Result<u32, AllocError>
    requires few { length nodes.old.items < 4294967295 }
    ensures { IfOk result (IsNumbered nodes.old.items node nodes.new.items) }
{
    if ends_with(nodes.as_slice(), node) {
        return Ok(nodes.len() as u32 - 1);
    }
    let number = nodes.len() as u32;
    nodes.push(node)?;
    Ok(number)
}

/// Lists without records, as many as this.
fn no_lists(alloc: Global, count: usize) -> Result<Vec<Vec<Record>>, AllocError>
    ensures count { IfOk result (λ v. length v.items ≡ count) }
    ensures empty { IfOk result (λ v. (i : ℕ) (rs : List _) → slice_get (map (λ l. l.items) v.items) i ≡ Some rs → rs ≡ []) }
{
    let mut lists = Vec::new(alloc);
    for _ in 0..count {
        lists.push(Vec::new(alloc))?;
    }
    Ok(lists)
}

/// Puts a record behind those of its stratum.
fn push_record(lists: &mut Vec<Vec<Record>>, stratum: u32, made: Record) -> Result<(), AllocError>
    requires there { stratum < length lists.old.items }
    ensures pushed { OnOk result (IsPushed (map (λ l. l.items) lists.old.items) stratum made (map (λ l. l.items) lists.new.items)) }
    ensures same { length lists.new.items ≡ length lists.old.items }
{
    lists[stratum as usize].push(made)?;
    Ok(())
}

/// Adds the section of a stratum, where it has records.
fn add_section(
    stratum: u32,
    records: Vec<Record>,
    sections: &mut Vec<Section>,
) -> Result<(), AllocError>
    ensures { OnOk result (sections.new.items ≡ sections.old.items ++ section_of stratum records.items) }
{
    if !records.is_empty() {
        sections.push(Section {
            stratum,
            records: Items::of(records),
        })?;
    }
    Ok(())
}

/// The sections of the strata that have records.
fn sections_of(alloc: Global, lists: Vec<Vec<Record>>) -> Result<Vec<Section>, AllocError>
    requires few { length lists.items ≤ 4294967296 }
    ensures { IfOk result (λ v. v.items ≡ sections_from 0 (map (λ l. l.items) lists.items)) }
{
    let mut sections = Vec::new(alloc);
    let mut stratum: u64 = 0;
    for records in lists {
        add_section(stratum as u32, records, &mut sections)?;
        stratum += 1;
    }
    Ok(sections)
}

impl Ground<'_> {
    /// Puts a record of the pair of a number behind those of its stratum, if something is said of it.
    fn file(
        &self,
        at: u32,
        kind: Option<RecordKind>,
        nodes: &mut Vec<TermId>,
        lists: &mut Vec<Vec<Record>>,
    ) -> Result<(), AllocError>
        requires ready { IsReady self.now }
        requires there { at < length self.now.table.now }
        requires strata { (i : OfShape) → level self.now.strata.now i < length lists.old.items }
        requires few { length nodes.old.items ≤ at }
        ensures filed { OnOk result ((kinds : List (Option Kind)) → slice_get kinds at ≡ Some kind →
            IsFiled self.now.terms.now self.now.strata.now self.now.table.now kinds at nodes.old.items (map (λ l. l.items) lists.old.items) →
            IsFiled self.now.terms.now self.now.strata.now self.now.table.now kinds (at + 1) nodes.new.items (map (λ l. l.items) lists.new.items)) }
        ensures few { OnOk result (length nodes.new.items ≤ at + 1) }
        ensures same { length lists.new.items ≡ length lists.old.items }
    {
        match kind {
            Some(kind) => {
                let pair = self.pair_of(at);
                let node = number_of(nodes, pair.node)?;
                let record = Record {
                    node,
                    shape: pair.shape.0,
                    kind,
                };
                push_record(lists, self.stratum_of(pair), record)?;
                Ok(())
            }
            None => Ok(()),
        }
    }

    /// Puts a record of each pair of which something is said behind those of its stratum.
    fn file_all(
        &self,
        kinds: Vec<Option<RecordKind>>,
        nodes: &mut Vec<TermId>,
        lists: &mut Vec<Vec<Record>>,
    ) -> Result<(), AllocError>
        requires ready { IsReady self.now }
        requires each { length kinds.items ≡ length self.now.table.now }
        requires strata { (i : OfShape) → level self.now.strata.now i < length lists.old.items }
        requires none { nodes.old.items ≡ [] }
        requires filed { IsFiled self.now.terms.now self.now.strata.now self.now.table.now kinds.items 0 nodes.old.items (map (λ l. l.items) lists.old.items) }
        ensures filed { OnOk result (IsFiled self.now.terms.now self.now.strata.now self.now.table.now kinds.items (length kinds.items) nodes.new.items (map (λ l. l.items) lists.new.items)) }
        ensures same { length lists.new.items ≡ length lists.old.items }
    {
        let mut at: u32 = 0;
        for kind in kinds {
            self.file(at, kind, nodes, lists)?;
            at += 1;
        }
        Ok(())
    }

    /// The records of the pairs of which something is said.
    pub(crate) fn records(
        &self,
        alloc: Global,
        kinds: Vec<Option<RecordKind>>,
    ) -> Result<Records, AllocError>
        requires ready { IsReady self.now }
        requires each { length kinds.items ≡ length self.now.table.now }
        ensures { IfOk result (λ r. AreFiled self.now.terms.now self.now.strata.now self.now.table.now kinds.items r.nodes.items r.sections.items) }
    {
        let mut nodes = Vec::new(alloc);
        let mut lists = no_lists(alloc, top(self.strata) as usize + 1)?;
        self.file_all(kinds, &mut nodes, &mut lists)?;
        let sections = sections_of(alloc, lists)?;
        Ok(Records { nodes, sections })
    }
}
