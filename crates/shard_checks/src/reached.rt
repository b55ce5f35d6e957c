//! The nodes that roots reach.

ghost use Rattle.std.specs.Prelude.{◌≡◌, ◌++◌, Err, IfOk, List, OnOk, map};
ghost use Rattle.std.specs.List.{flat_map};
ghost use Rattle.graph_index.specs.Contents.{IsSealedWith};
ghost use Rattle.rdf_terms.specs.declared.terms.TermId.{TermId as Id};
ghost use Rattle.schema_tree.specs.Loaded.{IsLoaded};
ghost use Rattle.schema_tree.specs.declared.schema.Schema.{Schema as Reading};
ghost use Rattle.rdf_terms.specs.declared.terms.Triple.{Triple as Arc};
ghost use Rattle.demand.specs.declared.reach.Root.{Root as Start};
ghost use Rattle.demand.specs.Demand.{AreAsked, AreTooMany};
ghost use Rattle.shard_checks.specs.Reached.{AreReached, node_line};

use crate::written::push_number;
use demand::{DemandError, Root, close};
use graph_index::graph::Graph;
use rdf_terms::order::put_in_order;
use rdf_terms::table::TermTable;
use rdf_terms::terms::TermId;
use schema_tree::schema::{Pair, Schema};
use std::alloc::{AllocError, Global};

/// The nodes of pairs, in their order.
fn nodes_in(alloc: Global, pairs: &[Pair]) -> Result<Vec<TermId>, AllocError>
    ensures { IfOk result (λ v. v.items ≡ map (λ q. q.node) pairs.now) }
{
    pairs.iter().map(|pair| pair.node).collect(alloc)
}

/// The nodes of the pairs that roots reach, each once, in the order of their texts.
fn nodes_of(alloc: Global, terms: &TermTable, pairs: &[Pair]) -> Result<Vec<TermId>, AllocError>
    ensures { IfOk result (λ v. (s : Reading) (g : List Arc) (roots : List Start) →
        AreAsked s terms.now g roots pairs.now → AreReached s terms.now g roots v.items) }
{
    let mut nodes = nodes_in(alloc, pairs)?;
    put_in_order(terms, &mut nodes)?;
    Ok(nodes)
}

/// Appends the line of a node.
fn push_node(
    alloc: Global,
    terms: &TermTable,
    node: TermId,
    out: &mut Vec<u8>,
) -> Result<(), AllocError>
    ensures { OnOk result (out.new.items ≡ out.old.items ++ node_line terms.now node) }
{
    push_number(alloc, None, terms, node, out)?;
    out.push(b'\n')?;
    Ok(())
}

/// The lines of nodes.
fn lines_of_nodes(alloc: Global, terms: &TermTable, nodes: &[TermId]) -> Result<Vec<u8>, AllocError>
    ensures { IfOk result (λ v. v.items ≡ flat_map (node_line terms.now) nodes.now) }
{
    let mut out = Vec::new(alloc);
    for node in nodes {
        push_node(alloc, terms, *node, &mut out)?;
    }
    Ok(out)
}

/// The nodes of the pairs that roots reach over a graph, each once, a line each, in the order of their texts.
pub fn lines_of_pairs(
    alloc: Global,
    terms: &TermTable,
    pairs: &[Pair],
) -> Result<Vec<u8>, AllocError>
    ensures { IfOk result (λ v. (s : Reading) (g : List Arc) (roots : List Start) → AreAsked s terms.now g roots pairs.now →
        (nodes : List Id) × AreReached s terms.now g roots nodes × (v.items ≡ flat_map (node_line terms.now) nodes)) }
{
    let nodes = nodes_of(alloc, terms, pairs)?;
    lines_of_nodes(alloc, terms, nodes.as_slice())
}

/// The nodes at which roots reach a Shape over a graph, each once, a line each, in the order of their texts. The graph is sealed
/// with the table of its terms.
///
/// It fails as `Pairs` exactly where the roots reach more than 4,194,304 pairs, unless memory runs out.
pub fn reached_lines(
    alloc: Global,
    schema: &Schema,
    graph: &Graph,
    terms: &TermTable,
    roots: &[Root],
) -> Result<Vec<u8>, DemandError>
    requires loaded { IsLoaded schema.now }
    requires sealed { IsSealedWith terms.now graph.now }
    ensures lines { IfOk result (λ v. (nodes : List Id)
        × AreReached schema.now terms.now graph.now.triples roots.now nodes × (v.items ≡ flat_map (node_line terms.now) nodes)) }
    ensures many { (result ≡ Err DemandError.Pairs) → AreTooMany schema.now graph.now.triples roots.now }
    ensures few { IfOk result (λ v. ¬ AreTooMany schema.now graph.now.triples roots.now) }
{
    let pairs = close(alloc, schema, graph, terms, roots)?;
    Ok(lines_of_pairs(alloc, terms, pairs.list())?)
}
