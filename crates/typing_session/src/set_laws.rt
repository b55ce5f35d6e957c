//! Laws of graphs as sets, for callers' proofs: the contract of the function is its laws, and it does nothing when called.

ghost use Rattle.typing_session.specs.SetLaws.{AnswersAreOfSets, ReachIsOfSets};

/// Claims that answers do not depend on the order in which a graph lists its triples.
pub fn answers_are_of_sets()
    ensures answers { AnswersAreOfSets }
    ensures reach { ReachIsOfSets }
{}
