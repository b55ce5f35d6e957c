//! What is known of pairs, and the places and states by which triples are matched.

use rdf_terms::items::Items;

/// What is known of a pair, or of a node with an expression.
#[derive(Clone, Copy, Debug, PartialEq, Eq)]
pub enum Verdict {
    /// It is satisfied.
    Yes,
    /// It is not satisfied.
    No,
    /// Neither is known.
    Unknown,
}

/// How a match takes values that are Unknown.
#[derive(Clone, Copy, Debug, PartialEq, Eq)]
pub enum Lean {
    /// Such a value may be satisfied, and it may not be.
    Possible,
    /// Such a value counts neither as satisfied nor as not satisfied.
    Impossible,
}

/// Where a triple goes in a match: to an occurrence, or to the remainder (ShEx 2.1, section 5.5.2).
#[derive(Clone, Copy, Debug, PartialEq, Eq)]
pub enum Place {
    /// The occurrence of this number takes it.
    At(u16),
    /// It stays in the remainder.
    Rest,
}

/// How far a match has come: its first triples have places.
#[derive(Debug, Drop)]
pub struct State {
    /// How many triples have their places.
    pub done: u32,
    /// How many triples each occurrence has, one number for each occurrence.
    pub counts: Items<u32>,
}
