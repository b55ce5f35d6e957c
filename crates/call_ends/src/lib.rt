//! How calls of programs that store nothing end: what answers one, their statuses, what they have printed then, and what follows
//! from each way to end.
#![tactic(auto)]

mod response;
mod words;

pub use response::{Response, status_of};
pub use words::refuse_words;
