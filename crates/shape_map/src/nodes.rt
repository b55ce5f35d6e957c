//! The nodes that are written in a map.

ghost use Rattle.std.specs.Prelude.{◌≡◌, ◌++◌, All, IfErr, IfOk, List, OnOk};
ghost use Rattle.std.specs.List.Sorted.{IsPermutation, IsSorted};
ghost use Rattle.rdf_terms.specs.Laws.{IsTerm};
ghost use Rattle.rdf_terms.specs.declared.terms.Term.{Term as Value};
ghost use Rattle.lists.specs.Additions.{AddsAll};
ghost use Rattle.shape_map.specs.Selection.{TakesNodes, compare_terms, written_nodes};
ghost use Rattle.shape_map.specs.Resolving.{Fills, TakingStops};

use crate::error::MapError;
use crate::items::{Item, Selector};
use rdf_terms::order::compare_texts;
use rdf_terms::table::{PutError, TermTable};
use rdf_terms::terms::Term;
use rdf_terms::values::term_is_whole;
use std::alloc::{AllocError, Global};

/// Copies of the nodes that are written in items.
fn written_nodes(alloc: Global, items: &[Item]) -> Result<Vec<Term>, AllocError>
    ensures nodes { IfOk result (λ v. v.items ≡ written_nodes items.now) }
    ensures own { IfOk result (λ v. All IsTerm v.items) }
{
    let mut nodes = Vec::new(alloc);
    for item in items {
        match &item.selector {
            Selector::Node(node) => {
                term_is_whole(node);
                let copy = node.try_clone(alloc)?;
                nodes.push(copy)?;
            }
            Selector::Triples(_) => (),
        }
    }
    Ok(nodes)
}

/// Puts terms into the order of their texts.
fn put_in_order(nodes: &mut Vec<Term>) -> Result<(), AllocError>
    ensures sorted { OnOk result (IsSorted compare_terms nodes.new.items) }
    ensures same { OnOk result (IsPermutation nodes.old.items nodes.new.items) }
{
    nodes.sort_by(|a, b| compare_texts(a, b))?;
    Ok(())
}

/// Puts terms into a table, which takes each once.
fn put_all(nodes: Vec<Term>, terms: &mut TermTable) -> Result<(), MapError>
    ensures added { OnOk result (AddsAll terms.old nodes.items terms.new) }
    ensures full { IfErr result (Fills terms.old nodes.items) }
    ensures grown { (more : List Value) × (terms.new ≡ terms.old ++ more) }
{
    for node in nodes {
        match terms.put(node) {
            Ok(_) => (),
            Err(PutError::Full) => return Err(MapError::Full),
            Err(PutError::Memory) => return Err(MapError::Memory),
        }
    }
    Ok(())
}

/// Puts the nodes that are written in items into a table, in the order of their texts. It fails as `Full` where the table
/// cannot take them all up, and as `Memory`.
pub fn take_nodes(alloc: Global, items: &[Item], terms: &mut TermTable) -> Result<(), MapError>
    ensures taken { OnOk result (TakesNodes terms.old items.now terms.new) }
    ensures full { IfErr result (TakingStops terms.old items.now) }
    ensures grown { (more : List Value) × (terms.new ≡ terms.old ++ more) }
{
    let mut nodes = written_nodes(alloc, items)?;
    put_in_order(&mut nodes)?;
    put_all(nodes, terms)
}
