//! Why extents are not given.

ghost use Rattle.std.specs.Prelude.{◌≡◌};
ghost use Rattle.label_extents.specs.declared.error.ExtentsError.TheVariants.{Memory};

use std::alloc::AllocError;
use std::error::Error;
use std::fmt;

/// Why the extents of a schema in a graph are not given. It shows the text that a program prints for it.
#[derive(Debug, Drop, PartialEq, Eq)]
pub enum ExtentsError {
    /// The nodes of the graph with the expressions of the labels reach more than 4,194,304 pairs.
    Pairs,
    /// Memory ran out.
    Memory,
}

impl fmt::Display for ExtentsError {
    ghost use Rattle.std.specs.Prelude.{Some};
    ghost use Rattle.label_extents.specs.Messages.{extents_text};

    ghost output = { λ e. Some (extents_text e) };

    fn fmt<W: fmt::Write>(&self, f: &mut fmt::Formatter<W>) -> fmt::Result {
        match self {
            ExtentsError::Pairs => f.write_str("Pairs"),
            ExtentsError::Memory => f.write_str("Memory"),
        }
    }
}

impl Error for ExtentsError {}

impl From<AllocError> for ExtentsError {
    ghost from_gives = { λ _ e. e ≡ Memory };

    fn from(_error: AllocError) -> ExtentsError {
        ExtentsError::Memory
    }
}
