//! What is to be read: the names of the files of a schema and of data, their bases, and the files of imported documents; and what
//! makes a text the name of a schema file, that of a data file, or a base.
#![tactic(auto)]

mod inputs;
mod laws;
mod names;

pub use inputs::{Import, Inputs};
pub use laws::bases_are_lines;
pub use names::{is_base, is_data_name, is_schema_name};
