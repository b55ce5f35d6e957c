//! The pairs of a node and a Shape that answers depend on.
#![tactic(auto)]

pub mod error;
pub mod links;
pub mod needs;
pub mod order;
pub mod reach;
mod seeing;
mod starting;
pub mod table;

pub use error::DemandError;
pub use reach::{Pairs, Root, close, close_each};
