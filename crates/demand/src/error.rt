//! Why pairs are not given.

ghost use Rattle.std.specs.Prelude.{◌≡◌};
ghost use Rattle.demand.specs.declared.error.DemandError.TheVariants.{Memory};

use std::alloc::AllocError;
use std::error::Error;
use std::fmt;

/// Why the pairs that roots reach are not given. It shows the text that a program prints for it.
#[derive(Debug, Drop, PartialEq, Eq)]
pub enum DemandError {
    /// The roots reach more than 4,194,304 pairs.
    Pairs,
    /// Memory ran out.
    Memory,
}

impl fmt::Display for DemandError {
    ghost use Rattle.std.specs.Prelude.{Some};
    ghost use Rattle.demand.specs.Messages.{demand_text};

    ghost output = { λ e. Some (demand_text e) };

    fn fmt<W: fmt::Write>(&self, f: &mut fmt::Formatter<W>) -> fmt::Result {
        match self {
            DemandError::Pairs => f.write_str("Pairs"),
            DemandError::Memory => f.write_str("Memory"),
        }
    }
}

impl Error for DemandError {}

impl From<AllocError> for DemandError {
    ghost from_gives = { λ _ e. e ≡ Memory };

    fn from(_error: AllocError) -> DemandError {
        DemandError::Memory
    }
}
