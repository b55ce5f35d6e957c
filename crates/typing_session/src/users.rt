//! The pairs that need a pair, which the triples of its node and the schema tell.

ghost use Rattle.std.specs.Prelude.{◌≡◌, ◌++◌, IfOk, OnOk, map};
ghost use Rattle.std.specs.List.{flat_map};
ghost use Rattle.graph_index.specs.Contents.{IsSealedWith};
ghost use Rattle.schema_tree.specs.Loaded.{IsLoaded};
ghost use Rattle.schema_tree.specs.Matches.{near_end};
ghost use Rattle.typing_session.specs.Uses.{AreUsers, AreUsesByValue, arcs_to, user_at, users_by};

use crate::uses::Use;
use graph_index::graph::Graph;
use rdf_terms::table::TermTable;
use rdf_terms::terms::{TermId, Triple};
use schema_tree::schema::{Occurrence, Pair, Schema};
use std::alloc::{AllocError, Global};

/// The end of a triple where an occurrence stands.
fn near_end(occ: Occurrence, triple: Triple) -> TermId
    ensures { result ≡ near_end occ.inverse triple }
{
    if occ.inverse { triple.o } else { triple.s }
}

/// The triples at whose other end the node is, for an occurrence.
fn arcs_to<'a>(graph: &'a Graph, terms: &TermTable, node: TermId, occ: Occurrence) -> &'a [Triple]
    requires sealed { IsSealedWith terms.now graph.now }
    ensures { result.now ≡ arcs_to terms.now graph.now.triples node occ }
{
    if occ.inverse {
        graph.outs_by(node, occ.predicate)
    } else {
        graph.ins_by(node, occ.predicate)
    }
}

/// Adds the end of each triple where the occurrence of the use stands, with its Shape.
fn push_users(used: Use, triples: &[Triple], found: &mut Vec<Pair>) -> Result<(), AllocError>
    ensures { OnOk result (found.new.items ≡ found.old.items ++ map (user_at used) triples.now) }
{
    for triple in triples {
        let node = near_end(used.occ, *triple);
        let shape = used.shape;
        found.push(Pair { node, shape })?;
    }
    Ok(())
}

/// Adds the pairs that need the node with a Shape, by the uses of this Shape.
fn push_by_uses(
    graph: &Graph,
    terms: &TermTable,
    node: TermId,
    uses: &[Use],
    found: &mut Vec<Pair>,
) -> Result<(), AllocError>
    requires sealed { IsSealedWith terms.now graph.now }
    ensures { OnOk result (found.new.items ≡ found.old.items ++ flat_map (users_by terms.now graph.now.triples node) uses.now) }
{
    for used in uses {
        let triples = arcs_to(graph, terms, node, used.occ);
        push_users(*used, triples, found)?;
    }
    Ok(())
}

/// The pairs that need a pair, each as often as a triple and an occurrence lead from it; `uses` are those of the schema, by
/// their values.
pub(crate) fn users(
    alloc: Global,
    schema: &Schema,
    uses: &[Vec<Use>],
    graph: &Graph,
    terms: &TermTable,
    pair: Pair,
) -> Result<Vec<Pair>, AllocError>
    requires loaded { IsLoaded schema.now }
    requires uses { AreUsesByValue schema.now (map (λ l. l.items) uses.now) }
    requires sealed { IsSealedWith terms.now graph.now }
    ensures { IfOk result (λ v. AreUsers schema.now graph.now.triples pair v.items) }
{
    let mut found = Vec::new(alloc);
    if let Some(own) = uses.get(pair.shape.0 as usize) {
        push_by_uses(graph, terms, pair.node, own.as_slice(), &mut found)?;
    }
    Ok(found)
}
