//! The documents of a schema: that of its file, and those which it imports, directly or through others (ShEx 2.1, section 5.1).
//!
//! Imports are followed in the order in which documents name them, document after document, and each file is read once. The import
//! words say which file holds the document that is imported by an IRI.
#![tactic(auto)]

mod asked;
mod digests;
mod document;
mod error;
mod held;
mod imports;
mod laws;
mod reading;

pub use asked::file_name;
pub use digests::digest_of;
pub use error::{FilesError, FilesRefusal, SchemaFile};
pub use laws::{read_is_not_left, refused_is_one, sources_are_one};
pub use reading::{Documents, FileDigests, read_documents};
