//! Laws of refinement: it says of a pair what the pairs that it needs make sure, whatever else is refined.
#![tactic(auto)]

pub mod laws;
