//! Why a text is refused as a pattern.
ghost use Rattle.std.specs.Prelude.{◌≡◌};
ghost use Rattle.xs_pattern.specs.declared.pattern_error.PatternError.TheVariants.{Memory};

use std::alloc::AllocError;
use std::error::Error;
use std::fmt;

/// Why no pattern is read. It shows the text that a program prints for it.
#[derive(Clone, Copy, Debug, PartialEq, Eq)]
pub enum PatternError {
    /// A flag is none of `s`, `i` and `q`.
    Flag,
    /// No pattern is spelled so.
    Syntax,
    /// A quantifier has a number over 4,096, groups and classes nest over 64 deep, or the pattern has over 4,096 positions.
    Large,
    /// Memory ran out.
    Memory,
}

impl fmt::Display for PatternError {
    ghost use Rattle.std.specs.Prelude.{Some};
    ghost use Rattle.xs_pattern.specs.Messages.{pattern_text};

    ghost output = { λ e. Some (pattern_text e) };

    fn fmt<W: fmt::Write>(&self, f: &mut fmt::Formatter<W>) -> fmt::Result {
        match self {
            PatternError::Flag => f.write_str("Flag"),
            PatternError::Syntax => f.write_str("Syntax"),
            PatternError::Large => f.write_str("Large"),
            PatternError::Memory => f.write_str("Memory"),
        }
    }
}

impl Error for PatternError {}

impl From<AllocError> for PatternError {
    ghost from_gives = { λ _ e. e ≡ Memory };

    fn from(_error: AllocError) -> PatternError {
        PatternError::Memory
    }
}
