//! Why a script was not read.

ghost use Rattle.std.specs.Prelude.{◌≡◌};
ghost use Rattle.session_script.specs.declared.error.ScriptError.TheVariants.{Memory};

use std::alloc::{AllocError, AllocFailed};
use std::error::Error;
use std::fmt;

/// Why a script was not read. A place is counted in bytes of the script from 0. It shows the text that a program prints
/// for it.
#[derive(Debug, Drop, PartialEq, Eq)]
pub enum ScriptError {
    /// The bytes are not UTF-8.
    NotUtf8,
    /// The bytes are no script from this place on.
    Syntax(u64),
    /// The IRI, the label or the lexical form of a term that begins at this place has over 16,777,216 bytes.
    Long(u64),
    /// Memory ran out.
    Memory,
}

impl fmt::Display for ScriptError {
    ghost use Rattle.std.specs.Prelude.{Some};
    ghost use Rattle.session_script.specs.Messages.{script_text};

    ghost output = { λ e. Some (script_text e) };

    fn fmt<W: fmt::Write>(&self, f: &mut fmt::Formatter<W>) -> fmt::Result {
        match self {
            ScriptError::NotUtf8 => f.write_str("NotUtf8"),
            ScriptError::Syntax(at) => write!(f, "Syntax({at})"),
            ScriptError::Long(at) => write!(f, "Long({at})"),
            ScriptError::Memory => f.write_str("Memory"),
        }
    }
}

impl Error for ScriptError {}

impl From<AllocError> for ScriptError {
    ghost from_gives = { λ _ e. e ≡ Memory };

    fn from(_error: AllocError) -> ScriptError {
        ScriptError::Memory
    }
}

impl<T: Drop> From<AllocFailed<T>> for ScriptError {
    ghost from_gives = { λ _ e. e ≡ Memory };

    fn from(_error: AllocFailed<T>) -> ScriptError {
        ScriptError::Memory
    }
}
