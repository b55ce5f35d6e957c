//! Graphs of triples that lend the triples of a node in order, without copying, and triples of terms that are put into them
//! (RDF 1.1 Concepts, section 3).
#![tactic(auto)]

mod arcs;
mod edited;
mod ends;
pub mod graph;
mod grouping;
pub mod laws;
pub mod loading;
pub mod neighbours;
mod node_rows;
mod numbers;
mod places;
pub mod read_error;
mod rows;

pub use rdf_terms::terms::Triple;
