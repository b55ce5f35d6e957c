//! Matches of the triples of a node with the triple expression of a Shape, by the counts of its occurrences.
#![tactic(auto)]

pub mod arcs;
pub mod counts;
pub mod dying;
mod forms;
mod hopes;
mod keys;
pub mod laws;
mod layers;
mod looking;
mod matching;
mod offering;
mod outcome;
mod passing;
mod place_lists;
pub mod places;
mod products;
pub mod raising;
mod search;
mod sole;
mod spreading;

pub use matching::{can_match, find_match, match_pair};
pub use outcome::Outcome;
pub use passing::dead;
pub use products::width;
