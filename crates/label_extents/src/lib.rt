//! The extents of the labels of a schema: which nodes of a graph satisfy the shape expression of each.
#![tactic(auto)]

mod error;
mod finding;
pub mod laws;
mod members;
mod nodes;
mod roots;

pub use error::ExtentsError;
pub use finding::{Extents, extents_of};
