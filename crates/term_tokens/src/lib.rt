//! What single tokens stand for, for the readers of N-Triples, Turtle, shape maps and ShExC (RDF 1.1 Turtle, sections 2, 6 and
//! 7; ShEx 2.1, section 6).
#![tactic(auto)]

mod laws;
mod names;
pub mod parts;
pub mod reading;
pub mod terms;

pub use laws::{names_are_named, texts_are_read};
pub use names::Names;
pub use parts::MAX_TEXT;
