//! Value sets of node constraints: values, stems and ranges (ShEx 2.1, section 5.4, Values Constraint).
#![tactic(auto)]

mod index;
pub mod laws;
mod stem_index;
mod stems;
mod value;
mod value_set;

pub use value::{Except, Exceptions, Value};
pub use value_set::ValueSet;
