//! Causes.

use node_constraint::ConstraintPart;
use rdf_terms::items::Items;
use schema_tree::schema::{ExprId, ShapeId};

/// Why a node does not satisfy a shape expression (ShEx 2.1, sections 5.3 and 5.4), as far as the expression itself says.
#[derive(Debug, Drop)]
pub enum Cause {
    /// Of a ShapeAnd this member is not satisfied.
    Member(ExprId),
    /// Of a ShapeOr none of these is satisfied, which are all its members.
    NoMember(Items<ExprId>),
    /// The member of a ShapeNot is satisfied.
    Negated(ExprId),
    /// This part of a node constraint is the first that does not hold.
    FailedPart(ConstraintPart),
    /// The node does not have this Shape.
    Lacks(ShapeId),
}
