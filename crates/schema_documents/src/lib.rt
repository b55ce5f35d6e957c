//! Documents of schemas as readers give them (ShEx 2.1, section 5), and why a schema is refused.
#![tactic(auto)]

mod document;
mod error;
mod label;

pub use document::{Decl, Doc, DocArc, DocBody, DocExpr, DocShape, DocTriple};
pub use error::SchemaError;
pub use label::Label;
