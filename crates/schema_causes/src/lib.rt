//! What is shown of a schema document to say where it is wrong: a place in ShExC, or a path of keys in ShExJ.
#![tactic(auto)]

mod causes;
mod labels;
mod lines;
mod unread;

pub use causes::push_cause;
pub use key_paths::LabelPlace;
pub use labels::push_label;
