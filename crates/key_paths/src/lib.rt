//! Where in a schema in ShExJ stands what it is refused for (ShEx 2.1, appendix A; RFC 8259).
#![tactic(auto)]

mod document;
mod finding;
mod labels;
mod trial;

pub use finding::path_of;
pub use labels::{LabelPlace, path_of_label};
