//! Laws of the definitions, for callers' proofs: each function's contract is a law, and its body is empty.
ghost use Rattle.node_constraint.specs.Laws.{FailedPartIsEnough, NodesAreDecided, RefusalsAreDecided};

/// Each node constraint holds for a term or does not.
pub fn nodes_are_decided()
    ensures { NodesAreDecided }
{}

/// What a constraint would ask for is sound, or `make` refuses it for a cause that is no want of memory.
pub fn refusals_are_decided()
    ensures { RefusalsAreDecided }
{}

/// A term that fails a part of a constraint does not satisfy it.
pub fn failed_part_is_enough()
    ensures { FailedPartIsEnough }
{}
