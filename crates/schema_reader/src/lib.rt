//! The reader of a schema document, in ShExC or in ShExJ.
#![tactic(auto)]

mod format;
mod laws;
mod reader;

pub use format::Format;
pub use laws::{names_have_lines, schemas_are_one, schemas_are_ordered};
pub use reader::read;
pub use shexc_reader::Parsed;
