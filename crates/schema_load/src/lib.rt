//! From documents to the schema that they stand for (ShEx 2.1, sections 5.1, 5.5 and 5.7).
#![tactic(auto)]

mod building;
mod checks;
mod circles;
mod counts;
mod deep;
mod entries;
pub mod error;
mod exprs;
mod given;
mod groups;
mod heads;
mod labels;
pub mod laws;
mod laying;
mod layout;
pub mod limits;
pub mod load;
mod names;
mod nexts;
mod numbers;
pub mod part;
mod predicates;
mod shapes;
mod sizes;
mod sorting;
mod survey;
mod surveyed;
mod targets;
mod unfolding;
