//! What a refinement is to give.

/// What a refinement is to give.
#[derive(Clone, Copy, Debug, PartialEq, Eq)]
pub enum Wanted {
    /// The verdicts alone.
    Verdicts,
    /// The verdicts, and records that show them.
    Records,
}
