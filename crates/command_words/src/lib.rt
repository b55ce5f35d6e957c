//! The words of the commands `validate`, `check`, `upgrade` and `drill`, read with `clap` and checked.
#![tactic(auto)]

pub mod checks;
mod command;
pub mod commands;
mod drilling;
mod error;
pub mod imports;
mod laws;
pub mod matches;
pub mod numbers;
mod requests;
mod words;

pub use command::{Call, Checking, Command, Drilling, Upgrading, Validation};
pub use error::WordsError;
pub use laws::answers_are_one;
pub use numbers::DEFAULT_BUDGET;
pub use requests::{DEFAULT_BASE, Given, read_given};
pub use words::read;
