//! Edit scripts of a session: lines that add a triple, remove one, or ask whether a node satisfies a target (own).
#![tactic(auto)]

mod commands;
mod error;
mod grammar;
pub mod laws;
mod reader;
mod signs;

pub use commands::Command;
pub use error::ScriptError;
pub use reader::read_script;
