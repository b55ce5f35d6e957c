//! The pairs that extents ask for.

ghost use Rattle.std.specs.Prelude.{◌≡◌, IfErr, IfOk};
ghost use Rattle.graph_index.specs.Contents.{IsSealedWith};
ghost use Rattle.schema_tree.specs.Loaded.{IsLoaded};
ghost use Rattle.schema_tree.specs.Needs.{HoldNeeds};
ghost use Rattle.label_extents.specs.Demanded.{AreDemanded, AreTooMany, Explains};
ghost use Rattle.label_extents.specs.Extents.{AreInOrder, IsNode};
ghost use Rattle.label_extents.specs.Members.{exprs_of};

use crate::error::ExtentsError;
use demand::{DemandError, Pairs, close_each};
use graph_index::graph::Graph;
use rdf_terms::table::TermTable;
use rdf_terms::terms::TermId;
use schema_tree::labels::Labels;
use schema_tree::schema::{ExprId, Schema};
use std::alloc::{AllocError, Global};

/// The expressions of the labels, in reading order.
fn exprs_of(alloc: Global, labels: &Labels) -> Result<Vec<ExprId>, AllocError>
    ensures { IfOk result (λ v. v.items ≡ exprs_of labels.now) }
{
    let mut exprs = Vec::new(alloc);
    for place in 0..labels.len() {
        match labels.at(place) {
            Some((_, expr)) => exprs.push(expr)?,
            None => unreachable!(),
        }
    }
    Ok(exprs)
}

/// The pairs that the nodes of the graph with the expressions of the labels reach, each once, in the order of the texts of their
/// nodes and then of their Shapes. They are refused as `Pairs` exactly where they are more than 4,194,304.
pub(crate) fn demanded(
    alloc: Global,
    schema: &Schema,
    graph: &Graph,
    terms: &TermTable,
    nodes: &[TermId],
) -> Result<Pairs, ExtentsError>
    requires loaded { IsLoaded schema.now }
    requires sealed { IsSealedWith terms.now graph.now }
    requires nodes { AreInOrder terms.now (IsNode graph.now.triples) nodes.now }
    ensures demanded { IfOk result (AreDemanded schema.now terms.now graph.now.triples) }
    ensures closed { IfOk result (HoldNeeds schema.now graph.now.triples) }
    ensures refused { IfErr result (Explains schema.now graph.now.triples) }
    ensures few { IfOk result (λ p. ¬ AreTooMany schema.now graph.now.triples) }
{
    let exprs = exprs_of(alloc, &schema.labels)?;
    match close_each(alloc, schema, graph, terms, nodes, exprs.as_slice()) {
        Ok(pairs) => Ok(pairs),
        Err(DemandError::Pairs) => Err(ExtentsError::Pairs),
        Err(DemandError::Memory) => Err(ExtentsError::Memory),
    }
}
