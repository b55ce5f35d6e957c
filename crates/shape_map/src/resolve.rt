//! The associations that a shape map selects.

ghost use Rattle.std.specs.Prelude.{◌≡◌, ◌≤◌, ◌++◌, [], List, length, map, Contains, IfOk, IfErr, OnOk};
ghost use Rattle.graph_index.specs.Contents.{IsSealedWith};
ghost use Rattle.rdf_terms.specs.declared.terms.Term.{Term as Value};
ghost use Rattle.rdf_terms.specs.declared.terms.Triple.{Triple as Arc};
ghost use Rattle.lists.specs.Distinct.{AreDistinct};
ghost use Rattle.schema_tree.specs.Labels.{labels_of};
ghost use Rattle.shape_map.specs.Selection.{max_associations, association, refusal_of, selected, refused, written, written_nodes, AreNodes, Ends, Outcome, Resolves, UnlessMemory};
ghost use Rattle.shape_map.specs.Resolving.{HoldsAll, IsSealedOnce, Declares, Steps};

use crate::error::MapError;
use crate::focus::{distinct_terms, focus_nodes};
use crate::items::{Item, Selector, ShapeMap};
use crate::nodes::take_nodes;
use graph_index::graph::Graph;
use rdf_terms::table::TermTable;
use rdf_terms::terms::{Term, TermId};
use schema_tree::schema::{ExprId, Schema, Target};
use std::alloc::{AllocError, Global};

/// A node, and what is asked of it (ShapeMap Structure and Language, section 4).
#[derive(Debug, Drop, PartialEq, Eq)]
pub struct Association {
    /// The node.
    pub node: TermId,
    /// What is asked, as it was written.
    pub target: Target,
    /// The expression of the target.
    pub expr: ExprId,
    /// Whether the node is to satisfy it.
    pub want: bool,
}

/// How many associations a map has at most.
pub const MAX_ASSOCIATIONS: usize = 1_000_000;

/// What the length of its labels tells contracts of a schema: they are distinct.
fn distinct_labels(schema: &Schema)
    ensures { AreDistinct (labels_of schema.now.labels) }
{
    let _count = schema.labels.len();
}

/// The error for a target that is not declared.
fn undeclared(alloc: Global, target: &Target) -> MapError
    ensures { UnlessMemory result (result ≡ refusal_of target.now) }
{
    match target {
        Target::Start => MapError::NoStart,
        Target::Label(label) => match label.try_clone(alloc) {
            Ok(label) => MapError::Label(label),
            Err(_) => MapError::Memory,
        },
    }
}

/// The expression of a target.
fn expr_of(alloc: Global, schema: &Schema, target: &Target) -> Result<ExprId, MapError>
    ensures { Declares schema.now target.now result }
{
    match schema.target(target) {
        Some(expr) => Ok(expr),
        None => Err(undeclared(alloc, target)),
    }
}

/// The number of a node that is written in a map, alone.
fn written_node(alloc: Global, terms: &TermTable, node: &Term) -> Result<Vec<TermId>, AllocError>
    requires { Contains terms.now node.now }
    ensures { (graph : List Arc) → IfOk result (λ v. AreNodes terms.now graph (Selector.Node node.now) v.items) }
{
    let mut nodes = Vec::new(alloc);
    match terms.find(node) {
        Some(id) => nodes.push(id)?,
        None => unreachable!(),
    }
    Ok(nodes)
}

/// The nodes of a selector, of which the one that is written is of the table.
fn nodes_of(
    alloc: Global,
    graph: &Graph,
    terms: &TermTable,
    selector: &Selector,
) -> Result<Vec<TermId>, AllocError>
    requires sealed { IsSealedOnce graph.now }
    requires held { HoldsAll terms.now (written selector.now) }
    ensures { IfOk result (λ v. AreNodes terms.now graph.now.triples selector.now v.items) }
{
    match selector {
        Selector::Node(node) => written_node(alloc, terms, node),
        Selector::Triples(pattern) => focus_nodes(alloc, graph, terms, pattern),
    }
}

/// Appends an association for each node.
fn append(
    alloc: Global,
    item: &Item,
    expr: ExprId,
    nodes: &[TermId],
    out: &mut Vec<Association>,
) -> Result<(), AllocError>
    ensures { OnOk result (out.new.items ≡ out.old.items ++ map (association item.now expr) nodes.now) }
{
    for node in nodes {
        let association = Association {
            node: *node,
            target: item.target.try_clone(alloc)?,
            expr,
            want: item.want,
        };
        out.push(association)?;
    }
    Ok(())
}

/// Appends the associations of an item, whose written node is of the table.
fn step(
    alloc: Global,
    schema: &Schema,
    graph: &Graph,
    terms: &TermTable,
    item: &Item,
    out: &mut Vec<Association>,
) -> Result<(), MapError>
    requires sealed { IsSealedOnce graph.now }
    requires held { HoldsAll terms.now (written item.now.selector) }
    requires few { length out.old.items ≤ max_associations }
    ensures { Steps schema.now graph.now.triples terms.now out.old.items item.now result out.new.items }
{
    let expr = expr_of(alloc, schema, &item.target)?;
    let nodes = nodes_of(alloc, graph, terms, &item.selector)?;
    if nodes.len() > MAX_ASSOCIATIONS - out.len() {
        return Err(MapError::Many);
    }
    append(alloc, item, expr, nodes.as_slice(), out)?;
    Ok(())
}

/// Appends the associations of all items, whose written nodes are of the table.
fn steps(
    alloc: Global,
    schema: &Schema,
    graph: &Graph,
    terms: &TermTable,
    items: &[Item],
    out: &mut Vec<Association>,
) -> Result<(), MapError>
    requires sealed { IsSealedOnce graph.now }
    requires held { HoldsAll terms.now (written_nodes items.now) }
    requires empty { out.old.items ≡ [] }
    ensures found { OnOk result (Ends schema.now graph.now.triples terms.now [] items.now (selected out.new.items terms.now)) }
    ensures refused { IfErr result (λ e. UnlessMemory e (Ends schema.now graph.now.triples terms.now [] items.now (refused e))) }
{
    for item in items {
        step(alloc, schema, graph, terms, item, out)?;
    }
    Ok(())
}

impl ShapeMap {
    /// The associations that the map selects (ShapeMap Structure and Language, section 4), in its order: those of a triple
    /// pattern are the nodes at its focus, each once, in the order of their texts. First the table takes up the nodes that
    /// are written in the map, in the order of their texts, and the graph is sealed with it.
    ///
    /// It fails as `Full` exactly where the table cannot take up these nodes: it holds 4,294,967,295 terms at most. Else
    /// each item is refused as `Label` or `NoStart` exactly where its target is not declared, and then as `Many` exactly
    /// where there are more than 1,000,000 associations with its own; the first refusal is answered. It also fails as
    /// `Memory`. After a failure the table may hold more terms.
    pub fn resolve(
        &self,
        alloc: Global,
        schema: &Schema,
        graph: &mut Graph,
        terms: &mut TermTable,
    ) -> Result<Vec<Association>, MapError>
        // What is answered is what the map selects, or its first refusal.
        ensures found { IfOk result (λ v. Resolves schema.now graph.old.triples terms.old self.now (selected v.items terms.new)) }
        ensures refused { IfErr result (λ e. UnlessMemory e (Resolves schema.now graph.old.triples terms.old self.now (refused e))) }

        // What the map selects is answered, and so is its first refusal.
        ensures only_found { (o : Outcome) → Resolves schema.now graph.old.triples terms.old self.now o → IfOk result (λ v. o ≡ selected v.items terms.new) }
        ensures only_refused { (o : Outcome) → Resolves schema.now graph.old.triples terms.old self.now o → IfErr result (λ e. UnlessMemory e (o ≡ refused e)) }

        ensures grown { (more : List Value) × (terms.new ≡ terms.old ++ more) }
        ensures graph { graph.new.triples ≡ graph.old.triples }
        ensures sealed { OnOk result (IsSealedWith terms.new graph.new) }
    {
        distinct_terms(terms);
        distinct_labels(schema);
        let items = self.items();
        take_nodes(alloc, items, terms)?;
        graph.seal(terms)?;
        distinct_terms(terms);
        let mut out = Vec::new(alloc);
        steps(alloc, schema, graph, terms, items, &mut out)?;
        Ok(out)
    }
}
