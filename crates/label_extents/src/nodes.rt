//! The nodes of a graph.

ghost use Rattle.std.specs.Prelude.{◌↔◌, Contains, IfOk, OnOk};
ghost use Rattle.std.specs.List.Sorted.{IsStrictlySortedBy};
ghost use Rattle.lists.specs.Additions.{Adds, AddsAll};
ghost use Rattle.rdf_terms.specs.Order.{compare_at};
ghost use Rattle.rdf_terms.specs.declared.terms.TermId.{TermId as Id};
ghost use Rattle.label_extents.specs.Extents.{AreInOrder, IsNode};
ghost use Rattle.label_extents.specs.Members.{ends_of};

use graph_index::graph::Graph;
use indexmap::IndexSet;
use rdf_terms::joined::JoinedTexts;
use rdf_terms::table::TermTable;
use rdf_terms::terms::{TermId, Triple};
use std::alloc::{AllocError, Global};

/// Takes a node up, where it is new.
fn note(nodes: &mut IndexSet<TermId>, node: TermId) -> Result<(), AllocError>
    ensures { OnOk result (Adds nodes.old.keys node nodes.new.keys) }
{
    nodes.insert(node)?;
    Ok(())
}

/// Takes the subject and the object of a triple up, where they are new.
#[tactic(auto, using(crate::proofs::Gathered::both_added))]
fn note_ends(nodes: &mut IndexSet<TermId>, triple: Triple) -> Result<(), AllocError>
    ensures { OnOk result (AddsAll nodes.old.keys (ends_of triple) nodes.new.keys) }
{
    note(nodes, triple.s)?;
    note(nodes, triple.o)?;
    Ok(())
}

/// The nodes of triples, each once, as they are met.
fn nodes_in(alloc: Global, triples: &[Triple]) -> Result<IndexSet<TermId>, AllocError>
    ensures { IfOk result (λ nodes. (n : Id) → Contains nodes.keys n ↔ IsNode triples.now n) }
{
    let mut nodes = IndexSet::new(alloc);
    for triple in triples {
        note_ends(&mut nodes, *triple)?;
    }
    Ok(nodes)
}

/// Puts nodes into the order of their texts, each once. All texts of the table are joined for it, which pays where the nodes are a
/// good part of the table.
fn put_in_order(alloc: Global, terms: &TermTable, nodes: &mut Vec<TermId>) -> Result<(), AllocError>
    ensures sorted { OnOk result (IsStrictlySortedBy (compare_at terms.now) nodes.new.items) }
    ensures same { OnOk result ((n : Id) → Contains nodes.new.items n ↔ Contains nodes.old.items n) }
{
    let texts = JoinedTexts::of(alloc, terms)?;
    nodes.sort_by(|a, b| texts.compare(*a, *b))?;
    nodes.dedup();
    Ok(())
}

/// The nodes of a graph (RDF 1.1 Concepts, section 3.1), each once, in the order of their texts.
pub(crate) fn nodes_of(
    alloc: Global,
    graph: &Graph,
    terms: &TermTable,
) -> Result<Vec<TermId>, AllocError>
    ensures { IfOk result (λ v. AreInOrder terms.now (IsNode graph.now.triples) v.items) }
{
    let met = nodes_in(alloc, graph.triples())?;
    let mut nodes: Vec<TermId> = met.as_slice().iter().copied().collect(alloc)?;
    put_in_order(alloc, terms, &mut nodes)?;
    Ok(nodes)
}
