//! Why the documents of a schema are not read.

ghost use Rattle.std.specs.Prelude.{◌≡◌};
ghost use Rattle.schema_files.specs.declared.error.FilesError.TheVariants.{Memory};

use rdf_terms::text::Text;
use schema_documents::SchemaError;
use std::alloc::{AllocError, AllocFailed};

/// A file of a schema.
#[derive(Clone, Copy, Debug, PartialEq, Eq)]
pub enum SchemaFile {
    /// The file of the schema itself.
    Root,
    /// The file of the import word of this number, counted from 0.
    Imported(usize),
}

/// Why a schema is refused for its files. Want of memory is never the cause.
#[derive(Debug, Drop)]
pub enum FilesRefusal {
    /// This file has more than 67,108,864 bytes.
    Size(SchemaFile),
    /// The bytes of this file spell no schema document that is read.
    Document(SchemaFile, SchemaError),
    /// The document in this file imports another by this IRI, for which no word names a file.
    Import(SchemaFile, Text),
}

impl FilesRefusal {
    ghost use Rattle.std.specs.Prelude.{◌≡◌};
    ghost use Rattle.schema_files.specs.Named.{file_of};

    /// The file that is refused.
    pub fn file(&self) -> SchemaFile
        ensures { result ≡ file_of self.now }
    {
        match self {
            FilesRefusal::Size(file) => *file,
            FilesRefusal::Document(file, _) => *file,
            FilesRefusal::Import(file, _) => *file,
        }
    }
}

/// Why the documents of a schema are not read.
#[derive(Debug, Drop)]
pub enum FilesError {
    /// A file is refused.
    Refused(FilesRefusal),
    /// The file was not fetched.
    Failed(SchemaFile),
    /// Memory ran out.
    Memory,
}

impl From<AllocError> for FilesError {
    ghost from_gives = { λ _ e. e ≡ Memory };

    fn from(_error: AllocError) -> FilesError {
        FilesError::Memory
    }
}

impl<T: Drop> From<AllocFailed<T>> for FilesError {
    ghost from_gives = { λ _ e. e ≡ Memory };

    fn from(_error: AllocFailed<T>) -> FilesError {
        FilesError::Memory
    }
}
