//! Why reading stopped.

ghost use Rattle.std.specs.Prelude.{◌≡◌};
ghost use Rattle.shexc_constraints.specs.Stops.{fault_by, stop_by};
ghost use Rattle.shexc_constraints.specs.declared.faults.Stop.TheVariants.{Memory};

use std::alloc::{AllocError, AllocFailed};
use xs_pattern::PatternError;

/// What is wrong at the next token of a text in ShExC.
#[derive(Clone, Copy, Debug, PartialEq, Eq)]
pub enum Fault {
    /// No document has this token there, or the text may not end there.
    Syntax,
    /// A shape expression that is kept elsewhere (ShEx 2.1, section 5.3, ShapeExternal).
    External,
    /// Brackets nest too deep.
    Deep,
    /// The prefix is not declared.
    Prefix,
    /// A range facet has a floating-point number, or a facet on numbers stands beside xsd:float or xsd:double.
    FloatFacet,
    /// The number of a facet is not whole, or not within its limits.
    FacetNumber,
    /// A pattern is refused.
    Pattern(PatternError),
}

/// Why reading stopped at the next token.
#[derive(Debug, Drop)]
pub enum Stop {
    /// Memory ran out.
    Memory,
    /// A fault at the next token.
    Fault(Fault),
}

impl From<AllocError> for Stop {
    ghost from_gives = { λ _ e. e ≡ Memory };

    fn from(_error: AllocError) -> Stop {
        Stop::Memory
    }
}

impl<T: Drop> From<AllocFailed<T>> for Stop {
    ghost from_gives = { λ _ e. e ≡ Memory };

    fn from(_error: AllocFailed<T>) -> Stop {
        Stop::Memory
    }
}

impl From<rdf_cursor::Stop> for Stop {
    ghost from_gives = { λ s e. e ≡ stop_by s };

    fn from(stop: rdf_cursor::Stop) -> Stop {
        match stop {
            rdf_cursor::Stop::Memory => Stop::Memory,
            rdf_cursor::Stop::Fault(fault) => Stop::Fault(fault_by(fault)),
        }
    }
}

/// The fault of a token that is at fault in any language.
fn fault_by(fault: rdf_cursor::Fault) -> Fault
    ensures { result ≡ fault_by fault }
{
    match fault {
        rdf_cursor::Fault::Syntax => Fault::Syntax,
        rdf_cursor::Fault::Prefix => Fault::Prefix,
        rdf_cursor::Fault::Deep => Fault::Deep,
        rdf_cursor::Fault::Long => Fault::Syntax,
        rdf_cursor::Fault::Full => Fault::Syntax,
    }
}
