//! What answers the commands for data in shards: the triples of a file on lines, the ways that a schema reads, the nodes that a map
//! reaches, and whether shards have what a part has.
#![tactic(auto)]

mod answering;
mod covers;
mod error;
mod fetch;
mod followed;
mod laws;
mod lines;
mod reached;
mod response;

pub use answering::{answer, source_name};
pub use error::{CallFile, CoverFile, ShardError, ShardRefusal};
pub use laws::calls_end_in_one_way;
