//! Patterns as node constraints have them: regular expressions of XPath (Functions and Operators 3.1, section 5.6).
#![tactic(auto)]

mod categories;
mod characters;
mod class;
mod escapes;
pub mod expression;
mod flagged;
pub mod laws;
mod lexer;
mod limits;
mod parser;
mod pattern;
mod pattern_error;
mod quantifier;
mod reader;
mod unrolled;
mod walk;
mod words;

pub use expression::{CharGroup, Expression, Flags, Item, Kind, Set};
pub use pattern::Pattern;
pub use pattern_error::PatternError;
