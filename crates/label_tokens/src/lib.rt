//! Where a label stands among the tokens of a text in ShExC (ShEx 2.1, section 6).
#![tactic(auto)]

mod scenes;
mod spots;
mod walk;

pub use spots::{Role, Spot, Usage};
pub use walk::{Sought, place_in};
