//! Why a node constraint is refused.
ghost use Rattle.std.specs.Prelude.{◌≡◌};
ghost use Rattle.node_constraint.specs.declared.make_error.MakeError.TheVariants.{Memory};

use std::alloc::AllocFailed;
use thiserror::Error;
use xs_pattern::PatternError;

/// Why a node constraint is not made.
#[derive(Clone, Copy, Debug, PartialEq, Eq, Error)]
pub enum MakeError {
    /// A range facet has a floating-point number, or a facet on numbers stands beside xsd:float or xsd:double.
    #[error("FloatFacet")]
    FloatFacet,
    /// The value of a range facet is no decimal.
    #[error("FacetNumber")]
    FacetNumber,
    /// A pattern is refused.
    #[error("Pattern({0})")]
    Pattern(PatternError),
    /// Memory ran out.
    #[error("Memory")]
    Memory,
}

impl<T: Drop> From<AllocFailed<T>> for MakeError {
    ghost from_gives = { λ _ e. e ≡ Memory };

    fn from(_error: AllocFailed<T>) -> MakeError {
        MakeError::Memory
    }
}
