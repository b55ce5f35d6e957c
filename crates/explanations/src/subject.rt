//! Subjects.

use rdf_terms::terms::TermId;
use schema_tree::schema::{ExprId, Pair};

/// What is explained once: a node with a Shape, or a node with a ShapeAnd, a ShapeOr or a ShapeNot.
#[derive(Clone, Copy, Debug, PartialEq, Eq, Hash)]
pub enum Subject {
    /// The node does not have the Shape.
    Pair(Pair),
    /// The node does not satisfy the expression.
    Expr(TermId, ExprId),
}
