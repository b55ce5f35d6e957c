//! The selectors of a shape map that find nothing in a graph, and the lines that are printed for them.
#![tactic(auto)]

mod finding;
pub mod laws;
mod line;
mod listing;

pub use listing::push_idle_lines;
