//! Why words are refused.

ghost use Rattle.std.specs.Prelude.{◌≡◌};
ghost use Rattle.command_words.specs.declared.error.WordsError.TheVariants.{Memory};

use std::alloc::{AllocError, AllocFailed};
use std::error::Error;
use std::fmt;

/// The first thing that is wrong with words, or that memory ran out. It shows the text that a program prints for it.
#[derive(Clone, Copy, Debug, PartialEq, Eq)]
pub enum WordsError<'a> {
    /// The words are not those of a command, or the budget or the number of items of a drill is no number within its
    /// limits.
    Arguments,
    /// The name of a schema file ends in none of `.shex`, `.json` and `.shexj`, or that of the data file in neither `.nt`
    /// nor `.ttl`.
    Ending(&'a str),
    /// A word has not the form `IRI=FILE`, or its IRI was given before.
    Import(&'a str),
    /// A base has no scheme, or a character that may not stand in an IRI.
    Base(&'a str),
    /// The name of the proof, or the one under which it is to be stored in the newest format, is that of another file.
    Same(&'a str),
    /// Memory ran out.
    Memory,
}

impl fmt::Display for WordsError<'_> {
    ghost use Rattle.std.specs.Prelude.{Some};
    ghost use Rattle.command_words.specs.Lent.{words_text};

    ghost output = { λ e. Some (words_text e) };

    fn fmt<W: fmt::Write>(&self, f: &mut fmt::Formatter<W>) -> fmt::Result {
        match self {
            WordsError::Arguments => f.write_str("Arguments"),
            WordsError::Ending(name) => write!(f, "Ending({name})"),
            WordsError::Import(word) => write!(f, "Import({word})"),
            WordsError::Base(iri) => write!(f, "Base({iri})"),
            WordsError::Same(name) => write!(f, "Same({name})"),
            WordsError::Memory => f.write_str("Memory"),
        }
    }
}

impl Error for WordsError<'_> {}

impl From<AllocError> for WordsError<'_> {
    ghost from_gives = { λ _ e. e ≡ Memory };

    fn from(_error: AllocError) -> Self {
        WordsError::Memory
    }
}

impl<T: Drop> From<AllocFailed<T>> for WordsError<'_> {
    ghost from_gives = { λ _ e. e ≡ Memory };

    fn from(_error: AllocFailed<T>) -> Self {
        WordsError::Memory
    }
}
