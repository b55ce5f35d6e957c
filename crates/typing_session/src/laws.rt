//! Laws of edits, for callers' proofs: each function's contract is its laws, and it does nothing but call those on which they stand.

ghost use Rattle.part_laws.specs.Growth.{VerdictsOutliveGrowth};
ghost use Rattle.typing_session.specs.Laws.{ReachIsSame, VerdictIsSame, VerdictsStay};

use locality_laws::laws::refinement_is_local;
use schema_tree::laws::refinement_is_one;

/// Claims that what reaches no end of a triple has the same verdicts with the triple and without.
pub fn edits_are_local()
    ensures reach { ReachIsSame }
    ensures verdict { VerdictIsSame }
    ensures verdicts { VerdictsStay }
{
    refinement_is_local();
    refinement_is_one();
}

/// Claims that verdicts stay where the table takes more terms.
pub fn growth_is_local()
    ensures { VerdictsOutliveGrowth }
{
    part_laws::laws::growth_is_local();
}
