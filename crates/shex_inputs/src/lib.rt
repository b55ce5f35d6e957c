//! The inputs: what the files of the schema, the data file and the shape map hold, in the numbers of one table of terms.
#![tactic(auto)]

mod data;
mod error;
mod fetch;
mod holding;
mod laws;
mod lines;
mod map;
mod schema;
mod wanted;

pub use error::{InputError, Refusal, Source};
pub use holding::{Holding, Taken, read_holding, read_schema};
pub use laws::{
    inputs_are_one, labels_have_lines, schemas_are_not_left, taken_by_bytes, taken_is_loaded,
};
pub use lines::{input_name, refusal_text};
pub use map::{Asked, read_map};
pub use schema::Loaded;
pub use wanted::Wanted;
