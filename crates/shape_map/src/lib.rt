//! Shape maps: reading them, the associations that they select, and the text of answers (ShapeMap Structure and Language).
#![tactic(auto)]

mod error;
mod focus;
mod grammar;
mod items;
pub mod laws;
mod nodes;
mod reader;
mod resolve;
mod results;

pub use error::MapError;
pub use items::{Focus, Item, Selector, ShapeMap, TriplePattern};
pub use reader::read;
pub use resolve::Association;
pub use results::write_result;
