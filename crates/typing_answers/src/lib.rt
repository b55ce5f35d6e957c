//! The answers to associations by the verdicts of refinement, and the proof of them all.
#![tactic(auto)]

mod claims;
pub mod laws;
mod nodes;
mod replies;
mod sections;
mod stored;

pub use replies::answers;
pub use stored::proof_of;
