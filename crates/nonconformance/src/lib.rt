//! Why a node does not have a Shape: reasons of which each alone is enough.
#![tactic(auto)]

pub mod bounds;
pub mod cause;
pub mod causes;
pub mod finding;
pub mod laws;
pub mod numbers;
pub mod offers;
pub mod reason;
pub mod sets;
