//! The top call of the program `shextool`, which stores nothing: a schema in ShExJ, the extents of the labels of a
//! schema, why answers are not as asked, and what data in shards need.
#![tactic(auto)]

mod converting;
mod cycles;
mod explaining;
mod laws;
mod listing;
mod noting;
mod report;
mod sharding;
mod showing;
mod stop;
mod top;

pub use top::run_tool;
