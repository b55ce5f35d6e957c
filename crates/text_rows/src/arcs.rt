//! The arcs at a node of data.

ghost use Rattle.graph_index.specs.Contents.{IsSealed};

use crate::graphs::{Data, data_of, written};
use crate::terms::term_of;
use anyhow::bail;
use graph_index::graph::Graph;
use rdf_terms::table::TermTable;
use rdf_terms::terms::{TermId, Triple};
use row_format::first_word;
use std::alloc::{AllocError, Global};

/// The number of the term of a text, or one that no table has.
fn number_of(alloc: Global, terms: &TermTable, text: &str) -> anyhow::Result<TermId> {
    let term = term_of(alloc, text)?;
    Ok(terms.find(&term).unwrap_or(TermId(u32::MAX)))
}

/// The neighbourhood of a node.
fn neighbourhood(alloc: Global, graph: &Graph, node: TermId) -> Result<Vec<Triple>, AllocError>
    requires { IsSealed graph.now }
{
    let neigh = graph.neigh(node);
    let mut triples = Vec::new(alloc);
    for place in 0..neigh.len() {
        triples.push(*neigh.at(place))?;
    }
    Ok(triples)
}

/// The arcs of a kind at a node, those with a predicate if one is given.
fn at_node(
    alloc: Global,
    graph: &Graph,
    kind: &str,
    node: TermId,
    predicate: Option<TermId>,
) -> anyhow::Result<Vec<Triple>>
    requires { IsSealed graph.now }
{
    let arcs = match (kind, predicate) {
        ("outs", None) => graph.outs(node),
        ("ins", None) => graph.ins(node),
        ("outs", Some(predicate)) => graph.outs_by(node, predicate),
        ("ins", Some(predicate)) => graph.ins_by(node, predicate),
        ("neigh", None) => return Ok(neighbourhood(alloc, graph, node)?),
        _ => bail!("arcs are outs, ins or neigh"),
    };
    Ok(Vec::from_slice(alloc, arcs)?)
}

/// The arcs that a question is about: a kind, a node, and a predicate if one is meant.
fn arcs_of(alloc: Global, data: &Data, question: &str) -> anyhow::Result<Vec<Triple>> {
    let (kind, ends) = first_word(question);
    let (node, predicate) = match ends.split_once(' ') {
        Some((node, predicate)) => (node, Some(number_of(alloc, &data.terms, predicate)?)),
        None => (ends, None),
    };
    let node = number_of(alloc, &data.terms, node)?;
    if !data.graph.is_sealed() {
        bail!("the graph is not sealed");
    }
    at_node(alloc, &data.graph, kind, node, predicate)
}

/// The arcs of data that a question is about, in their order, once the graph is sealed.
fn arcs_in(alloc: Global, data: &mut Data, question: &str) -> anyhow::Result<String> {
    data.graph.seal(&data.terms)?;
    let triples = arcs_of(alloc, data, question)?;
    if triples.is_empty() {
        return Ok(String::from_str(alloc, "none")?);
    }
    Ok(written(alloc, &data.terms, triples.as_slice(), b", ")?)
}

/// The arcs of the data of a file that a question is about, in their order.
pub fn arcs(alloc: Global, name: &str, source: &[u8], question: &str) -> anyhow::Result<String> {
    match data_of(alloc, name, source) {
        Ok(mut data) => arcs_in(alloc, &mut data, question),
        Err(_) => bail!("the data are refused"),
    }
}
