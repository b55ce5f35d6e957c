//! Where in a schema document in ShExC a thing stands for which it is refused without a place.
#![tactic(auto)]

mod kinds;
mod things;

pub use kinds::{Thing, thing_of};
pub use things::thing_place;
