//! Reads the node constraints of ShExC, the compact syntax of ShEx (ShEx 2.1, sections 5.4 and 6), in a profile of it, and the
//! names, labels, literals, annotations and references that stand in them and around them.
#![tactic(auto)]

pub mod classes;
pub mod constraints;
pub mod facets;
mod faults;
pub mod numbers;
pub mod parts;
pub mod patterns;
pub mod terms;
pub mod tokens;
pub mod values;

pub use faults::{Fault, Stop};
