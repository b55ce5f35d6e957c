//! Writes documents of schemas as ShExJ, the JSON syntax of ShEx 2.1 (appendix A).
#![tactic(auto)]

mod constraints;
mod depths;
mod documents;
mod error;
mod expressions;
pub mod laws;
mod nestings;
mod numbers;
mod objects;
mod texts;
mod values;
mod wholes;
mod writing;

pub use error::WriteError;
pub use writing::write;
