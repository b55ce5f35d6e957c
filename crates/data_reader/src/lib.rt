//! Data read into a table of terms and a graph, whichever of two formats they are in: N-Triples or Turtle.
#![tactic(auto)]

mod format;
mod laws;
mod reader;

pub use format::Format;
pub use laws::data_have_lines;
pub use reader::{data_are_one, read};
