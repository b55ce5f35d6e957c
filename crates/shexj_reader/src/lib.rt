//! A reader of schemas in ShExJ, the JSON syntax of ShEx 2.1 (appendix A). Semantic actions, external and abstract shape
//! expressions are refused; annotations are passed over.
#![tactic(auto)]

mod cardinalities;
mod constraints;
mod documents;
mod expressions;
mod groups;
mod kinds;
mod labels;
pub mod laws;
mod objects;
mod reading;
pub mod stems;
mod values;

pub use reading::read;
