//! Why associations are not as asked: the reasons of each pair that they depend on, each pair once.
#![tactic(auto)]

pub mod explaining;
pub mod explanation;
pub mod laws;
pub mod subject;
pub mod subjects;
