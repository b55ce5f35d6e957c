//! Why data was not read into a graph.

use std::error::Error;
use std::fmt;

/// Why the bytes of a document were not read into a graph. A place is counted in bytes from 0. It shows the text that a
/// program prints for it.
#[derive(Debug, Drop, PartialEq, Eq)]
pub enum ReadError {
    /// The bytes are not UTF-8.
    NotUtf8,
    /// The bytes are no document from this place on.
    Syntax(u64),
    /// The prefix that stands at this place is not declared.
    Prefix(u64),
    /// Blank node property lists and collections nest over 64 deep.
    Deep,
    /// The text of a term that begins at this place is too long.
    Long(u64),
    /// A new triple would be the 4,000,001st, or the table of terms is full.
    Full,
    /// Memory ran out.
    Memory,
}

impl fmt::Display for ReadError {
    ghost use Rattle.std.specs.Prelude.{Some};
    ghost use Rattle.graph_index.specs.Messages.{data_text};

    ghost output = { λ e. Some (data_text e) };

    fn fmt<W: fmt::Write>(&self, f: &mut fmt::Formatter<W>) -> fmt::Result {
        match self {
            ReadError::NotUtf8 => f.write_str("NotUtf8"),
            ReadError::Syntax(at) => write!(f, "Syntax({at})"),
            ReadError::Prefix(at) => write!(f, "Prefix({at})"),
            ReadError::Deep => f.write_str("Deep"),
            ReadError::Long(at) => write!(f, "Long({at})"),
            ReadError::Full => f.write_str("Full"),
            ReadError::Memory => f.write_str("Memory"),
        }
    }
}

impl Error for ReadError {}
