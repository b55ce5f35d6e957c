//! The top call of a session: from the words, the files and the script to the answers that are printed.
#![tactic(auto)]

mod error;
mod report;
mod responding;
mod running;
mod said;
mod stop;
mod top;

pub use top::run_session;
