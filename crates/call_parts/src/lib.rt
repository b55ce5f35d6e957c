//! What a caller that is not Rattle asks of a program over words and files in memory, and what it is handed back.
#![tactic(auto)]

mod asked;
mod calls;
mod handed;

pub use asked::{GivenFile, GivenText, Request};
pub use calls::{Call, CallError};
pub use handed::{Place, Reply};
