//! RDF terms, the table that numbers them, and triples of these numbers (RDF 1.1 Concepts, section 3).
#![tactic(auto)]

pub mod items;
pub mod joined;
pub mod laws;
pub mod order;
pub mod reader;
pub mod table;
pub mod terms;
pub mod text;
pub mod values;
pub mod vocabulary;
pub mod written;
