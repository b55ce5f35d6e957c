//! Why a document is not written.

ghost use Rattle.std.specs.Prelude.{◌≡◌};
ghost use Rattle.shexj_writer.specs.declared.error.WriteError.TheVariants.{Memory};

use std::alloc::{AllocError, AllocFailed};
use std::error::Error;
use std::fmt;

/// Why a document is not written. It shows the text that a program prints for it.
#[derive(Debug, Drop, PartialEq, Eq)]
pub enum WriteError {
    /// The value of a range facet is no whole number from -2^63 to 2^64 - 1.
    FacetNumber,
    /// Shape and triple expressions nest over 64, or the lists and objects of the JSON value over 127.
    Deep,
    /// Memory ran out.
    Memory,
}

impl fmt::Display for WriteError {
    ghost use Rattle.std.specs.Prelude.{Some};
    ghost use Rattle.shexj_writer.specs.Messages.{write_text};

    ghost output = { λ e. Some (write_text e) };

    fn fmt<W: fmt::Write>(&self, f: &mut fmt::Formatter<W>) -> fmt::Result {
        match self {
            WriteError::FacetNumber => f.write_str("FacetNumber"),
            WriteError::Deep => f.write_str("Deep"),
            WriteError::Memory => f.write_str("Memory"),
        }
    }
}

impl Error for WriteError {}

impl From<AllocError> for WriteError {
    ghost from_gives = { λ _ e. e ≡ Memory };

    fn from(_error: AllocError) -> WriteError {
        WriteError::Memory
    }
}

impl<T: Drop> From<AllocFailed<T>> for WriteError {
    ghost from_gives = { λ _ e. e ≡ Memory };

    fn from(_error: AllocFailed<T>) -> WriteError {
        WriteError::Memory
    }
}
