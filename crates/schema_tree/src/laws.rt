//! The laws of satisfaction and typings. Each function claims some of them by its contract, and does nothing when called.

ghost use Rattle.schema_tree.specs.Laws.{AnswersAlike, CopiesGiveParts, CyclesAreLists, DecidedByFormIsDecided, DecidedIsAnswered, DecidedIsSure, MatchIsExact, MatchIsTrue, NarrowIsKnown, NoMatchIsTrue, OneRefinement, OneTyping, OneVerdict, OrderIsWhole, PartsSpellCopies, PathsAreShort, PlainShapesAreNarrow, RefinementExists, RefinementIsTrue, SatFollowsPairs, SatIsDecided, SatIsItsLayer, SatKnowsNoBound, ShapesAreDecided, ShapesArePlaces, ShapesFollowEdges, ShapesGrow, SomeVerdict, StatesLeadNowhere, StatesRefute, StrataAlike, StrataAreLeast, StrataAreStratified, StrataGiveOneTyping, StratifiedHasNoCycle, StratumIsTrue, SureFollowsAnswers, SureIsItsLayer, SureIsTrue, SureKnowsNoBound, TypingExists, WidthIsNarrower, WidthIsOne};

use node_constraint::laws::nodes_are_decided;

/// Claims that under a loaded schema the meaning of an expression is its own layer's over its members, whatever bound
/// its recursion is given (ShEx 2.1, section 5.3).
pub fn layers_are_meanings()
    ensures layer { SatIsItsLayer }
    ensures bound { SatKnowsNoBound }
    ensures sure_layer { SureIsItsLayer }
    ensures sure_bound { SureKnowsNoBound }
    ensures sure_answers { SureFollowsAnswers }
{}

/// Claims on which pairs of a typing satisfaction depends, and that it grows with those of its stratum (ShEx 2.1,
/// sections 5.2 and 5.7.4).
pub fn satisfaction_follows_edges()
    ensures expressions { SatFollowsPairs }
    ensures shapes { ShapesFollowEdges }
    ensures growing { ShapesGrow }
{}

/// Claims that under a typing each node satisfies an expression or not, and has a Shape or not.
pub fn satisfaction_is_decided()
    ensures expressions { SatIsDecided }
    ensures shapes { ShapesAreDecided }
{
    nodes_are_decided();
}

/// Claims that the strata are the least stratification, and that there is one only without a cycle that has a negative
/// edge (ShEx 2.1, section 5.7.4).
pub fn strata_are_least()
    ensures stratified { StrataAreStratified }
    ensures least { StrataAreLeast }
    ensures no_cycle { StratifiedHasNoCycle }
    ensures short_paths { PathsAreShort }
    ensures cycles { CyclesAreLists }
{}

/// Claims that a stratified schema has a complete typing over every list of terms, and that any two over one list have
/// the same pairs (ShEx 2.1, section 5.2).
pub fn typing_is_one()
    ensures exists { TypingExists }
    ensures one { OneTyping }
{
    nodes_are_decided();
}

/// Claims that neither the stratification nor the list of terms changes what a complete typing says of a node.
pub fn strata_are_alike()
    ensures pairs { StrataAlike }
    ensures typings { StrataGiveOneTyping }
    ensures answers { AnswersAlike }
{}

/// Claims that triples match an expression so many times exactly where places for them have counts that spell so many
/// copies of it (ShEx 2.1, section 5.5.2).
pub fn matches_are_counts()
    ensures parts_spell { PartsSpellCopies }
    ensures copies_give { CopiesGiveParts }
{}

/// Claims that a node has a Shape exactly where allowed places for its relevant triples have matching counts, in any
/// order of its neighbourhood, and that its own order is one (ShEx 2.1, section 5.5.2).
pub fn shapes_are_places()
    ensures places { ShapesArePlaces }
    ensures order { OrderIsWhole }
{}

/// Claims that under a view exactly one verdict is sure of a node with an expression.
pub fn verdict_is_one()
    ensures some { SomeVerdict }
    ensures one { OneVerdict }
{
    nodes_are_decided();
}

/// Claims that what is sure under a view is true of every typing that agrees with it, matches included, and that a view
/// which answers for all that a pair needs decides its match.
pub fn sure_is_true()
    ensures sure { SureIsTrue }
    ensures matching { MatchIsTrue }
    ensures not_matching { NoMatchIsTrue }
    ensures exact { MatchIsExact }
{
    nodes_are_decided();
}

/// Claims that a list of states that is closed under allowed places, with no living state at the end, leaves no match.
pub fn closed_states_refute()
    ensures nowhere { StatesLeadNowhere }
    ensures refuted { StatesRefute }
{}

/// Claims that each pair has one Width, which is at most the product over the classes by form alone, so that what is
/// decided by form alone is decided; and that the Width is 1 where the Shape has no inverse occurrence, no EXTRA and one
/// occurrence for each predicate.
pub fn width_is_one()
    ensures one { WidthIsOne }
    ensures narrower { WidthIsNarrower }
    ensures decided { DecidedByFormIsDecided }
    ensures plain { PlainShapesAreNarrow }
{
    nodes_are_decided();
}

/// Claims that distinct pairs have a refinement, and that any two say the same.
pub fn refinement_is_one()
    ensures exists { RefinementExists }
    ensures one { OneRefinement }
{
    nodes_are_decided();
}

/// Claims that the verdicts of refinement are true of the complete typing: on a stratum, where those below are, and on all.
pub fn refinement_is_true()
    ensures stratum { StratumIsTrue }
    ensures whole { RefinementIsTrue }
{}

/// Claims that refinement leaves nothing Unknown but what reaches a pair whose Width is above the budget, and that its
/// answers are those of the complete typing.
pub fn refinement_is_complete()
    ensures pairs { NarrowIsKnown }
    ensures expressions { DecidedIsSure }
    ensures answers { DecidedIsAnswered }
{
    nodes_are_decided();
}
