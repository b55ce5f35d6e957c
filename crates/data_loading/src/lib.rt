//! What the readers of data share: what it is that triples are loaded one after the other, and why a text was not read.
#![tactic(auto)]

mod refusal;

pub use refusal::{Refusal, error};
