//! Verdicts on nodes of a graph that is edited and asked again and again. Of what was found before, an edit loses what
//! depends on the nodes that it touches, and a question finds what is not kept.
#![tactic(auto)]

mod answering;
pub mod error;
mod fresh;
pub mod kept;
pub mod laws;
mod met;
mod reaching;
mod references;
pub mod session;
pub mod set_laws;
mod users;
mod uses;
mod widths;

pub use error::AskError;
pub use session::Session;
