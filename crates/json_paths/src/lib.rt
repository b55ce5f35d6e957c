//! Paths of keys and indices into JSON values (RFC 8259): what stands at one, a value that is changed there, and the text of a path.
#![tactic(auto)]

mod changes;
mod key_path;
mod steps;

pub use changes::with_at;
pub use key_path::KeyPath;
pub use steps::{Step, inside, with_step, without};
