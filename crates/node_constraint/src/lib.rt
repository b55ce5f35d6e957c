//! Node constraints: which terms may stand in a place (ShEx 2.1, section 5.4).
#![tactic(auto)]

mod constraint;
mod datatypes;
mod facet;
pub mod laws;
mod make_error;
mod part;
mod patterns;

pub use constraint::NodeConstraint;
pub use facet::Facet;
pub use make_error::MakeError;
pub use part::ConstraintPart;

/// The kinds of terms that a constraint can ask for (ShEx 2.1, section 5.4, Node Kind Constraints).
#[derive(Clone, Copy, Debug, PartialEq, Eq)]
pub enum Kind4 {
    /// An IRI.
    Iri,
    /// A blank node.
    Bnode,
    /// An IRI or a blank node.
    NonLiteral,
    /// A literal.
    Literal,
}
