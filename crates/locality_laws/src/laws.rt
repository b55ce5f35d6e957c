//! The laws. Each function claims some of them by its contract, and does nothing when called.

ghost use Rattle.locality_laws.specs.Bounds.{NeedsAreCounted, NeedsHaveCounts, StrataAreBounded};
ghost use Rattle.locality_laws.specs.Laws.{RefinementIsIndependent, VerdictIsIndependent};
ghost use Rattle.locality_laws.specs.Laws.{RefinementIsLocal, RefinementOverKeptIsLocal, RefinementOverOthersIsLocal};
ghost use Rattle.locality_laws.specs.Laws.{UnknownIsWide, VerdictIsOne, VerdictIsTrue};

use schema_tree::laws::{
    refinement_is_complete, refinement_is_one, refinement_is_true, width_is_one,
};

/// Claims that refinement says of a pair what the pairs that it needs make sure: it does not depend on what else is
/// refined, so that pairs that are known already need not be refined again.
pub fn refinement_is_local()
    ensures closed { RefinementIsLocal }
    ensures others { RefinementOverOthersIsLocal }
    ensures kept { RefinementOverKeptIsLocal }
{}

/// Claims that refinement gives each pair one verdict, which is Unknown only where the pair leads to one whose Width is
/// above the budget, and else true of the complete typing.
pub fn verdict_is_one()
    ensures one { VerdictIsOne }
    ensures wide { UnknownIsWide }
    ensures true_verdict { VerdictIsTrue }
{
    refinement_is_one();
    refinement_is_complete();
    refinement_is_true();
    width_is_one();
}

/// Claims that refinement gives the same verdicts by any two stratifications, so that those by any are those by the least.
pub fn strata_are_independent()
    ensures refinement { RefinementIsIndependent }
    ensures verdict { VerdictIsIndependent }
{
    refinement_is_one();
}

/// Claims that what the phases of refinement on all strata may cost comes to no more than 2 × k + 3 looks at each narrow
/// pair, where k is the number of pairs that it needs, that tests of needs count these, and that there is such a number for each pair.
pub fn strata_are_bounded()
    ensures strata { StrataAreBounded }
    ensures needs { NeedsAreCounted }
    ensures counts { NeedsHaveCounts }
{}
