//! Explanations.

use node_constraint::ConstraintPart;
use nonconformance::cause::Cause;
use nonconformance::offers::Offer;
use nonconformance::reason::Reason;
use rdf_terms::items::Items;
use rdf_terms::terms::TermId;
use schema_tree::schema::{ExprId, Pair};
use schema_tree::verdicts::Verdict;

/// Why a node does not satisfy a shape expression (ShEx 2.1, section 5.3).
#[derive(Clone, Copy, Debug, PartialEq, Eq)]
pub enum Why {
    /// The expression is a node constraint, and this part of it is the first that does not hold.
    Part(ConstraintPart),
    /// The block of this number tells it. Blocks are numbered from 1 on.
    See(usize),
}

/// A triple constraint that fits a triple by predicate and direction, and why it does not take it (ShEx 2.1, section 5.5.2).
#[derive(Clone, Copy, Debug, PartialEq, Eq)]
pub struct Misfit {
    /// The number of the constraint's occurrence in the Shape.
    pub constraint: u16,
    /// The other end of the triple.
    pub node: TermId,
    /// The value of the constraint, which this node does not satisfy.
    pub value: ExprId,
    /// Why it does not.
    pub why: Why,
}

/// A reason why a node does not have a Shape, with what it rests on.
#[derive(Debug, Drop)]
pub struct ToldReason {
    /// The reason.
    pub reason: Reason,
    /// Of an unmatched triple, the triple constraints that fit it, in their order; of any other reason, none.
    pub misfits: Items<Misfit>,
    /// Where no way deals the triples, each relevant triple with the places that are allowed for it; of any other reason, none.
    pub offers: Items<Offer>,
}

/// A cause why a node does not satisfy a shape expression, with what it rests on.
#[derive(Debug, Drop)]
pub struct ToldCause {
    /// The cause.
    pub cause: Cause,
    /// Why the node does not satisfy the member of a ShapeAnd, or each member of a ShapeOr, that the cause names.
    pub members: Items<Why>,
}

/// Why a node does not have a Shape or does not satisfy an expression.
#[derive(Debug, Drop)]
pub enum Block {
    /// The reasons of a node with a Shape.
    Reasons(Pair, Items<ToldReason>),
    /// The causes of a node with a ShapeAnd, a ShapeOr or a ShapeNot.
    Causes(TermId, ExprId, Items<ToldCause>),
}

/// What is told of an association.
#[derive(Debug, Drop)]
pub struct Told {
    /// Whether its node satisfies its expression, as far as is known.
    pub verdict: Verdict,
    /// Why the node does not, where it was asked to and it is known that it does not.
    pub why: Option<Why>,
    /// The blocks that are mentioned here first, in the order in which they are mentioned.
    pub blocks: Items<Block>,
}

/// What is told of associations.
#[derive(Debug, Drop)]
pub struct Explanation {
    /// What is told of each, in their order.
    pub answers: Items<Told>,
}
