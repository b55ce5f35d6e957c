//! The documents. IRIs are absolute or as they are written, as the reader of a form says.

use crate::Label;
use node_constraint::NodeConstraint;
use rdf_terms::items::Items;
use rdf_terms::text::Text;
use tally::Bound;

/// A schema document (ShEx 2.1, section 5.1).
#[derive(Drop)]
pub struct Doc {
    /// The IRIs of the documents that are imported.
    pub imports: Items<Text>,
    /// The start expression, if there is one.
    pub start: Option<DocExpr>,
    /// The declarations, in reading order.
    pub decls: Items<Decl>,
}

/// A shape expression with its label (ShEx 2.1, section 5.3).
#[derive(Drop)]
pub struct Decl {
    /// The label.
    pub label: Label,
    /// The expression.
    pub expr: DocExpr,
}

/// A shape expression (ShEx 2.1, section 5.3).
#[derive(Drop)]
#[cycle(document)]
pub enum DocExpr {
    /// ShapeAnd: each member is satisfied.
    And(Vec<DocExpr>),
    /// ShapeOr: some member is satisfied.
    Or(Vec<DocExpr>),
    /// ShapeNot: the member is not satisfied.
    Not(Box<DocExpr>),
    /// A node constraint.
    Node(NodeConstraint),
    /// A Shape.
    Shape(DocShape),
    /// The expression of a label.
    Ref(Label),
}

/// A Shape (ShEx 2.1, section 5.5).
#[derive(Drop)]
#[cycle(document)]
pub struct DocShape {
    /// Whether other arcs out are refused.
    pub closed: bool,
    /// The predicates of which arcs may be left over.
    pub extra: Items<Text>,
    /// The triple expression, if there is one.
    pub expression: Option<DocTriple>,
}

/// A triple expression with its label and its cardinality (ShEx 2.1, section 5.5).
#[derive(Drop)]
#[cycle(document)]
pub struct DocTriple {
    /// The label, if it has one.
    pub label: Option<Label>,
    /// How often it comes at least.
    pub min: u32,
    /// How often it comes at most.
    pub max: Bound,
    /// What it is.
    pub body: DocBody,
}

/// What a triple expression is, without its label and its cardinality (ShEx 2.1, section 5.5).
#[derive(Drop)]
#[cycle(document)]
pub enum DocBody {
    /// EachOf: each member.
    Each(Vec<DocTriple>),
    /// OneOf: some member.
    One(Vec<DocTriple>),
    /// A TripleConstraint.
    Arc(DocArc),
    /// The triple expression of a label.
    Include(Label),
}

/// A TripleConstraint (ShEx 2.1, section 5.5).
#[derive(Drop)]
#[cycle(document)]
pub struct DocArc {
    /// Whether it takes arcs in rather than arcs out.
    pub inverse: bool,
    /// The predicate of the arcs that it takes.
    pub predicate: Text,
    /// What the other end has to satisfy, if anything.
    pub value: Option<Box<DocExpr>>,
}
