//! Laws of reasons and causes. Each function claims some of them by its contract, and does nothing when called.

ghost use Rattle.nonconformance.specs.Laws.{CauseIsEnough, KnownReasonIsEnough, KnownReasonIsTrue, LeastIsKept, LeastIsTaken, ManyAreTaken};
ghost use Rattle.nonconformance.specs.Laws.{MostIsKept, MostIsTaken, NoCannotMatch, NoHasReason, ReasonIsEnough, ReasonsGoBack, SomeCause};
ghost use Rattle.nonconformance.specs.Laws.{SomeReason, UnmatchedHasCauses};

use node_constraint::laws::{failed_part_is_enough, nodes_are_decided};
use schema_tree::laws::{layers_are_meanings, shapes_are_places, sure_is_true, verdict_is_one};

/// Claims that each reason alone is enough: a node with a Shape that has one does not have the Shape (ShEx 2.1, section
/// 5.5.2), under a typing of which it is true, and under all that agree with what it is known by.
pub fn reasons_are_enough()
    ensures typing { ReasonIsEnough }
    ensures known { KnownReasonIsEnough }
{
    shapes_are_places();
    sure_is_true();
}

/// Claims that a reason by what is known is true of a typing, where that is known which the pair needs.
pub fn reasons_are_true()
    ensures { KnownReasonIsTrue }
{
    nodes_are_decided();
}

/// Claims that each pair which cannot match has a reason, that the value of each triple constraint which fits an unmatched
/// triple is sure to be not satisfied, and that a pair which refinement finds to be not satisfied cannot match by all that
/// refinement finds.
pub fn reasons_are_whole()
    ensures some { SomeReason }
    ensures values { UnmatchedHasCauses }
    ensures removed { NoCannotMatch }
{
    verdict_is_one();
}

/// Claims that among the reasons of a pair there is one that rests on lower strata, and on pairs that went before it: so
/// reasons of reasons come to an end, in circles of references too.
pub fn reasons_go_back()
    ensures stratum { ReasonsGoBack }
    ensures refined { NoHasReason }
{
    verdict_is_one();
}

/// Claims that a node is sure not to satisfy an expression exactly where it has a cause (ShEx 2.1, sections 5.3 and 5.4).
pub fn causes_are_exact()
    ensures enough { CauseIsEnough }
    ensures some { SomeCause }
{
    layers_are_meanings();
    nodes_are_decided();
    failed_part_is_enough();
}

/// Claims that in each match of an expression some triple constraints take at least the sum of what each member wants and
/// at most the sum of what each member allows (ShEx 2.1, section 5.5.2).
pub fn bounds_are_kept()
    ensures least { LeastIsKept }
    ensures most { MostIsKept }
{}

/// Claims that some match takes just the least, some just the most, and where there is no most, some as many as one likes.
pub fn bounds_are_taken()
    ensures least { LeastIsTaken }
    ensures most { MostIsTaken }
    ensures many { ManyAreTaken }
{}
