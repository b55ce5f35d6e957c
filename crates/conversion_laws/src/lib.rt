//! Laws of documents that are converted to ShExJ: those that bytes spell in ShExC or in ShExJ have a form there, from which they are
//! read back.
#![tactic(auto)]

pub mod laws;
