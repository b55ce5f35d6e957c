//! The pairs that a pair needs.

ghost use Rattle.std.specs.Prelude.{List, ◌≡◌, ◌++◌, ◌↔◌, All, Contains, IfOk, OnOk, map};
ghost use Rattle.std.specs.List.{flat_map};
ghost use Rattle.rdf_terms.specs.declared.terms.Term.{Term};
ghost use Rattle.graph_index.specs.Contents.{IsSealed, IsSealedWith};
ghost use Rattle.schema_tree.specs.declared.schema.Pair.{Pair as Needed};
ghost use Rattle.schema_tree.specs.Entries.{pair_of};
ghost use Rattle.schema_tree.specs.Needs.{Needs};
ghost use Rattle.demand.specs.Links.{AreLinks};
ghost use Rattle.demand.specs.Needed.{arcs_of, ends_of, needs_at};

use crate::links::Link;
use graph_index::graph::Graph;
use rdf_terms::items::Items;
use rdf_terms::table::TermTable;
use rdf_terms::terms::{TermId, Triple};
use schema_tree::schema::{Occurrence, Pair, Schema, ShapeId};
use std::alloc::{AllocError, Global};

/// The triples that an occurrence fits at a node.
fn arcs(graph: &Graph, node: TermId, occ: Occurrence) -> &[Triple]
    requires sealed { IsSealed graph.now }
    ensures { (terms : List Term) → IsSealedWith terms graph.now → result.now ≡ arcs_of terms graph.now.triples node occ }
{
    if occ.inverse {
        graph.ins_by(node, occ.predicate)
    } else {
        graph.outs_by(node, occ.predicate)
    }
}

/// Adds the node with each of the Shapes.
pub fn push_pairs(node: TermId, shapes: &[ShapeId], found: &mut Vec<Pair>) -> Result<(), AllocError>
    ensures { OnOk result (found.new.items ≡ found.old.items ++ map (pair_of node) shapes.now) }
{
    for shape in shapes {
        let shape = *shape;
        found.push(Pair { node, shape })?;
    }
    Ok(())
}

/// Adds the other end of each triple with each Shape of the link.
fn push_ends(link: &Link, triples: &[Triple], found: &mut Vec<Pair>) -> Result<(), AllocError>
    ensures { OnOk result (found.new.items ≡ found.old.items ++ flat_map (ends_of link.now) triples.now) }
{
    for triple in triples {
        let end = link.occ.other_end(*triple);
        push_pairs(end, link.shapes.as_slice(), found)?;
    }
    Ok(())
}

/// Adds the pairs that a link leads to from a node. No triple is sought for a link without Shapes, which leads to none.
fn push_led(
    graph: &Graph,
    node: TermId,
    link: &Link,
    found: &mut Vec<Pair>,
) -> Result<(), AllocError>
    requires sealed { IsSealed graph.now }
    ensures { (terms : List Term) → IsSealedWith terms graph.now →
        OnOk result (found.new.items ≡ found.old.items ++ needs_at terms graph.now.triples node link.now) }
{
    if link.shapes.as_slice().is_empty() {
        return Ok(());
    }
    push_ends(link, arcs(graph, node, link.occ), found)
}

/// Adds the pairs that the links of a Shape lead to from a node.
fn push_needs(
    graph: &Graph,
    node: TermId,
    links: &[Link],
    found: &mut Vec<Pair>,
) -> Result<(), AllocError>
    requires sealed { IsSealed graph.now }
    ensures { (terms : List Term) → IsSealedWith terms graph.now →
        OnOk result (found.new.items ≡ found.old.items ++ flat_map (needs_at terms graph.now.triples node) links.now) }
{
    for link in links {
        push_led(graph, node, link, found)?;
    }
    Ok(())
}

/// Puts the pairs that a pair needs in the place of those of the list, each as often as a triple, an occurrence and a Shape
/// lead to it; `links` are those of the schema.
pub fn needs_into(
    schema: &Schema,
    links: &[Items<Link>],
    graph: &Graph,
    terms: &TermTable,
    pair: Pair,
    found: &mut Vec<Pair>,
) -> Result<(), AllocError>
    requires links { AreLinks schema.now links.now }
    requires sealed { IsSealedWith terms.now graph.now }
    ensures { OnOk result ((q : Needed) → Contains found.new.items q ↔ Needs schema.now graph.now.triples pair q) }
{
    found.clear();
    if let Some(own) = links.get(pair.shape.0 as usize) {
        push_needs(graph, pair.node, own.as_slice(), found)?;
    }
    Ok(())
}

/// The pairs that a pair needs, each as often as a triple, an occurrence and a Shape lead to it; `links` are those of the
/// schema.
pub fn needs(
    alloc: Global,
    schema: &Schema,
    links: &[Items<Link>],
    graph: &Graph,
    terms: &TermTable,
    pair: Pair,
) -> Result<Vec<Pair>, AllocError>
    requires links { AreLinks schema.now links.now }
    requires sealed { IsSealedWith terms.now graph.now }
    ensures { IfOk result (λ v. (q : Needed) → Contains v.items q ↔ Needs schema.now graph.now.triples pair q) }
{
    let mut found = Vec::new(alloc);
    needs_into(schema, links, graph, terms, pair, &mut found)?;
    Ok(found)
}
