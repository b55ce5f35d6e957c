//! The law of answers, for callers' proofs: its contract is the law, and it does nothing when called.

ghost use Rattle.typing_answers.specs.Laws.{SureAnswersAreTrue};

use schema_tree::laws::{
    layers_are_meanings, refinement_is_complete, refinement_is_true, strata_are_alike,
    strata_are_least, sure_is_true, typing_is_one, verdict_is_one, width_is_one,
};

/// What is sure by the verdicts of refinement is true of the complete typing (ShEx 2.1, section 5.2), and it leaves out only what
/// depends on a pair that is wider than the budget.
pub fn sure_answers_are_true()
    ensures { SureAnswersAreTrue }
{
    layers_are_meanings();
    refinement_is_complete();
    refinement_is_true();
    strata_are_alike();
    strata_are_least();
    sure_is_true();
    typing_is_one();
    verdict_is_one();
    width_is_one();
}
