//! The text of explanations: why associations are not as asked.
#![tactic(auto)]

mod answers;
mod block_values;
mod blocks;
mod conditions;
mod data;
mod folding;
pub mod names;
mod object;
mod reason_values;
mod reasons;
mod setting;
mod values;
mod words;

pub use answers::write_explanation;
pub use data::write_explanation_data;
pub use setting::Setting;
