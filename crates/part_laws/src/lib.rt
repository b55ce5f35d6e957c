//! Laws of parts of a graph: a part that has what Shapes read at each node that some roots reach gives them the answers of
//! the whole, however the terms of each are numbered.
#![tactic(auto)]

pub mod laws;
