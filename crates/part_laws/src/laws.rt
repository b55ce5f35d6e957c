//! The laws. Each function claims some of them by its contract, and does nothing but call those on which they stand.

ghost use Rattle.part_laws.specs.Growth.{VerdictsOutliveGrowth};
ghost use Rattle.part_laws.specs.Numbers.{NumbersDoNotMatter};
ghost use Rattle.part_laws.specs.Texts.{PartsAnswerAlike, PartsAnswerTruly};
ghost use Rattle.part_laws.specs.Laws.{AnswerIsSame, FollowedIsReached, MatchIsSame, NeedsAreSame, NeighIsSame, RefinementIsSame, ReachIsSame, RelevantIsSame, ShapeIsSame, TypingIsSame, VerdictIsSame, WholeIsPart, WidthIsSame};

use graph_index::laws::sealing_outlives_growth;
use locality_laws::laws::refinement_is_local;
use node_constraint::laws::nodes_are_decided;
use rdf_terms::laws::texts_are_distinct;
use schema_tree::laws::{
    refinement_is_complete, refinement_is_one, refinement_is_true, satisfaction_follows_edges,
    shapes_are_places, sure_is_true, width_is_one,
};

/// Claims that a part with all triples at a node has its neighbourhood, and that a part with the arcs out of a node and
/// those into it by predicates that are read back gives its pairs the same relevant triples, Widths, matches, Shapes
/// and needs.
pub fn nodes_are_same()
    ensures neigh { NeighIsSame }
    ensures part { WholeIsPart }
    ensures relevant { RelevantIsSame }
    ensures width { WidthIsSame }
    ensures matching { MatchIsSame }
    ensures shape { ShapeIsSame }
    ensures needs { NeedsAreSame }
{
    shapes_are_places();
}

/// Claims that roots reach the same pairs over their part as over the whole graph, with the same verdicts and answers,
/// whatever else is asked of the whole, and that the complete typing of each says the same of them.
pub fn parts_are_enough()
    ensures followed { FollowedIsReached }
    ensures reach { ReachIsSame }
    ensures refinement { RefinementIsSame }
    ensures verdict { VerdictIsSame }
    ensures answer { AnswerIsSame }
    ensures typing { TypingIsSame }
{
    refinement_is_local();
    refinement_is_one();
    refinement_is_true();
    refinement_is_complete();
    satisfaction_follows_edges();
    schema_tree::laws::verdict_is_one();
    width_is_one();
}

/// Claims that verdicts stay where the table takes more terms.
pub fn growth_is_local()
    ensures { VerdictsOutliveGrowth }
{
    nodes_are_decided();
    sealing_outlives_growth();
    refinement_is_local();
    refinement_is_one();
}

/// Claims that a graph's pairs are refined alike whatever numbers its terms have.
pub fn numbers_do_not_matter()
    ensures { NumbersDoNotMatter }
{
    nodes_are_decided();
    texts_are_distinct();
    width_is_one();
}

/// Claims that roots have over their part the answers that they have over the whole, however both are numbered, and that
/// these are what the complete typing of the whole says.
pub fn parts_answer_for_the_whole()
    ensures alike { PartsAnswerAlike }
    ensures truly { PartsAnswerTruly }
{
    nodes_are_decided();
    texts_are_distinct();
    width_is_one();
    refinement_is_local();
    refinement_is_true();
    sure_is_true();
    schema_tree::laws::verdict_is_one();
}
