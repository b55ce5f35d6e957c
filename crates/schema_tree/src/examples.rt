//! Claims of what the definitions say of small graphs. Each function does nothing when called.

ghost use Rattle.schema_tree.specs.WorkedShapes.{TwoConstraintsShareTriples, NoTripleServesTwice, LoopServesInverse, GroupIsRepeated, GroupWantsEachCopy, OneOfTakesOne};
ghost use Rattle.schema_tree.specs.WorkedTypings.{AcquaintedBothHold, BrokenChainFalls, NegationLooksBelow};

/// Claims that `{ <name> LITERAL ; <name> . }` is met by two names of which one is a literal.
pub fn two_constraints_share_triples()
    ensures { TwoConstraintsShareTriples }
{}

/// Claims that `{ <name> LITERAL ; <name> LITERAL }` is not met by one literal and one IRI, whatever EXTRA has.
pub fn no_triple_serves_twice()
    ensures { NoTripleServesTwice }
{}

/// Claims that `CLOSED { ^<knows> . }` is met by a node that knows itself, by that one triple.
pub fn loop_serves_inverse()
    ensures { LoopServesInverse }
{}

/// Claims that `{ ( <name> . ; <knows> . ? ){2} }` is met by two names and one acquaintance.
pub fn group_is_repeated()
    ensures { GroupIsRepeated }
{}

/// Claims that `{ ( <name> . ; <knows> . ? ){2} }` is not met by one name.
pub fn group_wants_each_copy()
    ensures { GroupWantsEachCopy }
{}

/// Claims that `{ <name> . | <knows> . }` is met by a name, and not by a name beside an acquaintance.
pub fn one_of_takes_one()
    ensures { OneOfTakesOne }
{}

/// Claims that two nodes that know each other both have S, where S is `{ <knows> @<S>* }`.
pub fn acquainted_both_hold()
    ensures { AcquaintedBothHold }
{}

/// Claims that of two nodes that know each other, of which one has a name, neither has S, where S is
/// `{ <name> . ; <knows> @<S> }`.
pub fn broken_chain_falls()
    ensures { BrokenChainFalls }
{}

/// Claims that a node that knows a node without a name has S, and one that knows a node with a name has not, where S is
/// `{ <knows> NOT @<T> }` and T is `{ <name> . }`.
pub fn negation_looks_below()
    ensures { NegationLooksBelow }
{}
