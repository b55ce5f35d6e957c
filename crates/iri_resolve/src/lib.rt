//! References and their resolution against a base, by RFC 3986.
#![tactic(auto)]

mod laws;
mod parts;
mod path;
mod resolution;

pub use laws::removal_is_by_the_rules;
pub use parts::{Parts, split};
pub use resolution::{IriError, resolve};
