//! Checks of a part of a graph as lines of N-Triples: the lines that it has to have, the nodes that roots reach, and the ways along
//! triples that a schema reads.
#![tactic(auto)]

mod compared;
mod covers;
pub mod laws;
mod left;
mod line_set;
mod lines;
mod reached;
mod way_lines;
mod ways;
mod written;

pub use covers::Part;
pub use left::lines_left;
pub use reached::{lines_of_pairs, reached_lines};
pub use way_lines::lines_of_ways;
pub use ways::{Way, ways_read};
pub use written::triple_lines;
