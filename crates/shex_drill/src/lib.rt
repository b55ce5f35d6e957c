//! The inputs of a drill: a schema, a graph and a shape map of any size, made for a program to test itself with.
#![tactic(auto)]

mod files;
mod laws;
mod making;

pub use files::{DATA_FILE, DrillFiles, MAP_FILE, SCHEMA_FILE};
pub use laws::{graph_is_document, map_is_of_item, schema_is_document};
pub use making::{Drill, make};
