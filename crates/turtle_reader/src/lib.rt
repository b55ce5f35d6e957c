//! Reading Turtle into a table of terms and a graph (RDF 1.1 Turtle).
#![tactic(auto)]

mod grammar;
mod laws;
mod loading;
mod objects;
mod reader;
mod resource;
mod state;

pub use laws::{documents_are_one, documents_have_lines};
pub use reader::read;
