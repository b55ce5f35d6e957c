//! Why a text was not read into a table and a graph.

ghost use Rattle.std.specs.Prelude.{◌≡◌};
ghost use Rattle.data_loading.specs.Refusals.{from_stop, from_load, error_of};

use graph_index::loading::LoadError;
use graph_index::read_error::ReadError;
use rdf_cursor::{Fault, Stop};

/// Why a text was not read.
#[derive(Debug, Drop)]
pub enum Refusal {
    /// Memory ran out.
    Memory,
    /// A triple finds no room.
    Full,
    /// A fault at the next token.
    Fault(Fault),
}

impl From<Stop> for Refusal {
    ghost from_gives = { λ s r. r ≡ from_stop s };

    fn from(stop: Stop) -> Refusal {
        match stop {
            Stop::Memory => Refusal::Memory,
            Stop::Fault(fault) => Refusal::Fault(fault),
        }
    }
}

impl From<LoadError> for Refusal {
    ghost from_gives = { λ e r. r ≡ from_load e };

    fn from(error: LoadError) -> Refusal {
        match error {
            LoadError::Full => Refusal::Full,
            LoadError::Memory => Refusal::Memory,
        }
    }
}

/// The answer for a refusal at a place.
pub fn error(refusal: Refusal, at: u64) -> ReadError
    ensures { result ≡ error_of refusal at }
{
    match refusal {
        Refusal::Memory => ReadError::Memory,
        Refusal::Full => ReadError::Full,
        Refusal::Fault(Fault::Syntax) => ReadError::Syntax(at),
        Refusal::Fault(Fault::Prefix) => ReadError::Prefix(at),
        Refusal::Fault(Fault::Deep) => ReadError::Deep,
        Refusal::Fault(Fault::Long) => ReadError::Long(at),
        Refusal::Fault(Fault::Full) => ReadError::Full,
    }
}
