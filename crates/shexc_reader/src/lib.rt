//! Reads documents of schemas from ShExC, the compact syntax of ShEx (ShEx 2.1, section 6), in a profile of it.
//!
//! A rule of the grammar is a phrase in `specs/Grammar`, a reader on lists in `specs/Reading` and a function of code that is
//! proved to give what its reader gives. What stands in node constraints is read by `shexc_constraints`.
#![tactic(auto)]

mod classes;
mod grammar;
mod held;
mod laws;
mod members;
mod reader;
mod shapes;
mod state;
mod statements;
mod triples;

pub use laws::{documents_are_one, documents_are_ordered, imports_have_schemes, names_have_lines};
pub use reader::read;
pub use state::Parsed;
