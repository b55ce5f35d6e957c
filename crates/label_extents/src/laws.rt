//! Laws of extents, for callers' proofs: each function claims some by its contract, and does nothing when called.

ghost use Rattle.label_extents.specs.Laws.{ExtentsAreOne, ExtentsExist};

use schema_tree::laws::{
    satisfaction_is_decided, strata_are_alike, strata_are_least, typing_is_one,
};

/// A loaded schema that has strata has extents in each graph, and they are one list.
pub fn extents_are_one()
    ensures exist { ExtentsExist }
    ensures one { ExtentsAreOne }
{
    satisfaction_is_decided();
    strata_are_alike();
    strata_are_least();
    typing_is_one();
}
