//! Why a question is not answered.

ghost use Rattle.std.specs.Prelude.{◌≡◌};
ghost use Rattle.typing_session.specs.declared.error.AskError.TheVariants.{Memory};

use std::alloc::AllocError;
use std::error::Error;
use std::fmt;

/// Why a question is not answered. It shows the text that a program prints for it.
#[derive(Debug, Drop, PartialEq, Eq)]
pub enum AskError {
    /// The node with the expression reaches more than 4,194,304 pairs.
    Pairs,
    /// Memory ran out.
    Memory,
}

impl fmt::Display for AskError {
    ghost use Rattle.std.specs.Prelude.{Some};
    ghost use Rattle.typing_session.specs.Messages.{ask_text};

    ghost output = { λ e. Some (ask_text e) };

    fn fmt<W: fmt::Write>(&self, f: &mut fmt::Formatter<W>) -> fmt::Result {
        match self {
            AskError::Pairs => f.write_str("Pairs"),
            AskError::Memory => f.write_str("Memory"),
        }
    }
}

impl Error for AskError {}

impl From<AllocError> for AskError {
    ghost from_gives = { λ _ e. e ≡ Memory };

    fn from(_error: AllocError) -> AskError {
        AskError::Memory
    }
}
