//! Why documents are refused.

ghost use Rattle.std.specs.Prelude.{◌≡◌};
ghost use Rattle.schema_load.specs.declared.error.LoadError.TheVariants.{Memory};

use schema_tree::labels::Label;
use schema_tree::schema::Target;
use std::alloc::{AllocError, AllocFailed};
use std::error::Error;
use std::fmt;

/// Why documents stand for no schema, in the order in which it is looked for. A label or a target is that of the first thing
/// in reading order. It shows the text that a program prints for it.
#[derive(Debug, Drop, PartialEq, Eq)]
pub enum LoadError {
    /// A label is declared twice, for shape expressions or for triple expressions.
    Twice(Label),
    /// A reference or an inclusion has no target.
    Missing(Label),
    /// A shape expression refers to itself without passing through a TripleConstraint.
    Circle(Label),
    /// A triple expression includes itself, directly or through others.
    IncludeCircle(Label),
    /// An expression is deeper than 256, references and inclusions followed.
    Deep(Target),
    /// A Shape has more than 256 occurrences, inclusions unfolded.
    Occurrences(Target),
    /// There are more than 4,096 Shapes.
    Shapes,
    /// There are more than 4,294,967,295 expressions, or the table cannot take up the predicates.
    Full,
    /// Memory ran out.
    Memory,
}

impl fmt::Display for LoadError {
    ghost use Rattle.std.specs.Prelude.{Some};
    ghost use Rattle.schema_load.specs.Messages.{load_text};

    ghost output = { λ e. Some (load_text e) };

    fn fmt<W: fmt::Write>(&self, f: &mut fmt::Formatter<W>) -> fmt::Result {
        match self {
            LoadError::Twice(label) => write!(f, "Twice({label})"),
            LoadError::Missing(label) => write!(f, "Missing({label})"),
            LoadError::Circle(label) => write!(f, "Circle({label})"),
            LoadError::IncludeCircle(label) => write!(f, "IncludeCircle({label})"),
            LoadError::Deep(target) => write!(f, "Deep({target})"),
            LoadError::Occurrences(target) => write!(f, "Occurrences({target})"),
            LoadError::Shapes => f.write_str("Shapes"),
            LoadError::Full => f.write_str("Full"),
            LoadError::Memory => f.write_str("Memory"),
        }
    }
}

impl Error for LoadError {}

impl From<AllocError> for LoadError {
    ghost from_gives = { λ _ e. e ≡ Memory };

    fn from(_error: AllocError) -> LoadError {
        LoadError::Memory
    }
}

impl<T: Drop> From<AllocFailed<T>> for LoadError {
    ghost from_gives = { λ _ e. e ≡ Memory };

    fn from(_error: AllocFailed<T>) -> LoadError {
        LoadError::Memory
    }
}
