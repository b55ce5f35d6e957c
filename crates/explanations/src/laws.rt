//! Laws of explanations. Each function claims some of them by its contract, and does nothing when called.

ghost use Rattle.explanations.specs.Laws.{BlocksAreTrue, RefinedCannotMatch};

use nonconformance::laws::reasons_are_whole;
use schema_tree::laws::sure_is_true;

/// Claims that by what refinement comes to no pair can match that it finds to be not satisfied, so that explanations can be made by it.
pub fn refined_cannot_match()
    ensures { RefinedCannotMatch }
{
    reasons_are_whole();
}

/// Claims that under each typing of which what is known is true, no node of a block has its Shape, or satisfies its expression.
pub fn blocks_are_true()
    ensures { BlocksAreTrue }
{
    sure_is_true();
}
