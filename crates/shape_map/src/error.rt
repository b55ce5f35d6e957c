//! Why a shape map was not read, or what it selects was not found.

ghost use Rattle.std.specs.Prelude.{◌≡◌};
ghost use Rattle.shape_map.specs.declared.error.MapError.TheVariants.{Memory};

use schema_tree::labels::Label;
use std::alloc::{AllocError, AllocFailed};
use std::error::Error;
use std::fmt;

/// Why a shape map was not read, or its associations were not found. A place is counted in bytes from 0. It
/// shows the text that a program prints for it.
#[derive(Debug, Drop, PartialEq, Eq)]
pub enum MapError {
    /// The bytes are not UTF-8.
    NotUtf8,
    /// The bytes are no shape map from this place on.
    Syntax(u64),
    /// The prefix that stands at this place is not declared.
    Prefix(u64),
    /// This target is not declared.
    Label(Label),
    /// The start is asked for, and the schema has none.
    NoStart,
    /// There are more than 1,000,000 associations.
    Many,
    /// Memory ran out.
    Memory,
    /// A node is new, and the table holds 4,294,967,295 terms.
    Full,
}

impl fmt::Display for MapError {
    ghost use Rattle.std.specs.Prelude.{Some};
    ghost use Rattle.shape_map.specs.Messages.{map_text};

    ghost output = { λ e. Some (map_text e) };

    fn fmt<W: fmt::Write>(&self, f: &mut fmt::Formatter<W>) -> fmt::Result {
        match self {
            MapError::NotUtf8 => f.write_str("NotUtf8"),
            MapError::Syntax(at) => write!(f, "Syntax({at})"),
            MapError::Prefix(at) => write!(f, "Prefix({at})"),
            MapError::Label(label) => write!(f, "Label({label})"),
            MapError::NoStart => f.write_str("NoStart"),
            MapError::Many => f.write_str("Many"),
            MapError::Full => f.write_str("Full"),
            MapError::Memory => f.write_str("Memory"),
        }
    }
}

impl Error for MapError {}

impl From<AllocError> for MapError {
    ghost from_gives = { λ _ e. e ≡ Memory };

    fn from(_error: AllocError) -> MapError {
        MapError::Memory
    }
}

impl<T: Drop> From<AllocFailed<T>> for MapError {
    ghost from_gives = { λ _ e. e ≡ Memory };

    fn from(_error: AllocFailed<T>) -> MapError {
        MapError::Memory
    }
}
