//! N-Triples read into a table of terms and a graph (RDF 1.1 N-Triples).
#![tactic(auto)]

mod laws;
mod lines;
mod reader;

pub use laws::{documents_have_lines, tokens_are_marked};
pub use reader::{documents_are_one, read};
