//! The check of a proof: whether its claims are to be believed.
#![tactic(auto)]

mod checking;
mod claims;
mod current;
mod items;
mod lines;
mod standings;
mod states;

pub use checking::{CheckError, check};
pub use claims::Claims;
