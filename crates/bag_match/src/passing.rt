//! Whether a state is dead, from the triples that a graph lends.

ghost use Rattle.std.specs.Prelude.{◌≡◌, ◌↔◌, ◌≤◌, ◌-◌, List, IsTrue, drop, filter, length};
ghost use Rattle.rdf_terms.specs.declared.terms.Term.{Term};
ghost use Rattle.graph_index.specs.Contents.{IsSealedWith};
ghost use Rattle.schema_tree.specs.Entries.{shape_at};
ghost use Rattle.schema_tree.specs.Loaded.{IsLoaded};
ghost use Rattle.bag_match.specs.Later.{IsDeadOf, IsStateOf, is_kept};

use crate::arcs::fits_any;
use crate::dying::is_dead_by_arcs;
use graph_index::graph::Graph;
use rdf_terms::terms::{TermId, Triple};
use schema_tree::schema::{Occurrence, Pair, Schema};
use schema_tree::verdicts::State;

/// The triples after the first so many.
fn later(triples: &[Triple], done: usize) -> &[Triple]
    requires { done ≤ length triples.now }
    ensures { result.now ≡ drop done triples.now }
{
    &triples[done..]
}

/// A place among triples that are done in their order.
#[derive(Clone, Copy)]
struct Behind {
    /// How many triples lie before it.
    at: usize,
    /// How many are to be done still.
    left: usize,
}

/// Whether some occurrence fits the triple, which is no self-loop where arcs in are looked at.
fn keeps(occs: &[Occurrence], node: TermId, inward: bool, triple: Triple) -> bool
    ensures { result ≡ is_kept occs.now node inward triple }
{
    if inward && triple.s == triple.o {
        return false;
    }
    fits_any(occs, node, triple)
}

/// The place behind so many of the triples that are kept, or the end.
fn place_behind(
    triples: &[Triple],
    occs: &[Occurrence],
    node: TermId,
    inward: bool,
    done: usize,
) -> Behind
    ensures within { result.at ≤ length triples.now }
    ensures later { drop done (filter (is_kept occs.now node inward) triples.now) ≡ filter (is_kept occs.now node inward) (drop result.at triples.now) }
    ensures left { result.left ≡ done - length (filter (is_kept occs.now node inward) triples.now) }
{
    let mut left = done;
    for at in 0..triples.len() {
        if left == 0 {
            return Behind { at, left };
        }
        if keeps(occs, node, inward, triples[at]) {
            left -= 1;
        }
    }
    Behind {
        at: triples.len(),
        left,
    }
}

/// Whether the state of the pair is dead: no counts that the later triples of the node can still bring it to match the
/// expression of the Shape once. A pair without such a Shape has no dead state. It takes no memory.
pub fn dead(schema: &Schema, graph: &Graph, pair: Pair, state: &State) -> bool
    requires loaded { IsLoaded schema.now }
    requires sealed { (terms : List Term) × IsSealedWith terms graph.now }
    requires state { IsStateOf (shape_at schema.now pair.shape) state.now }
    ensures { (terms : List Term) → IsSealedWith terms graph.now → IsTrue result ↔ IsDeadOf terms graph.now.triples pair.node (shape_at schema.now pair.shape) state.now }
{
    let node = pair.node;
    let Some(shape) = schema.shapes.as_slice().get(pair.shape.0 as usize) else {
        return false;
    };
    // The length of a graph tells contracts that it is within the limit.
    let _held = graph.len();
    let outs = graph.outs(node);
    let ins = graph.ins(node);
    let occs = shape.occs.as_slice();
    let out = place_behind(outs, occs, node, false, state.done as usize);
    let inward = place_behind(ins, occs, node, true, out.left);
    is_dead_by_arcs(
        shape,
        node,
        state.counts.as_slice(),
        later(outs, out.at),
        later(ins, inward.at),
    )
}
