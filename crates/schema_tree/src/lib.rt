//! Schemas as they are loaded, and what it means that a node satisfies one (ShEx 2.1, section 5).
#![tactic(auto)]

pub mod body;
pub mod examples;
pub mod labels;
pub mod laws;
pub mod schema;
pub mod sure;
pub mod verdicts;
