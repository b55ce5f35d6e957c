//! Laws of lines, for callers' proofs: the contract of each function is a law, and it does nothing but call those on which it stands.

ghost use Rattle.shard_checks.specs.Laws.{CoversAreEnough, LinesAreThoseOfTriples, LinesSayTriples, PlainTermsAreToldApart, ShardsAnswerAlike};

use part_laws::laws::parts_answer_for_the_whole;
use rdf_terms::laws::texts_are_distinct;

/// Claims that a part has what is read at some nodes where no line of the whole that is read there is missing.
pub fn covers_are_enough()
    ensures { CoversAreEnough }
{}

/// Claims that each answer over such a part is that over the whole, whatever lines the whole has.
pub fn shards_answer_alike()
    ensures { ShardsAnswerAlike }
{
    parts_answer_for_the_whole();
}

/// Claims that the lines of the text of triples are theirs.
pub fn lines_are_of_triples()
    ensures lines { LinesAreThoseOfTriples }
    ensures terms { LinesSayTriples }
{}

/// Claims that lines tell the terms of N-Triples apart.
pub fn plain_terms_are_told_apart()
    ensures { PlainTermsAreToldApart }
{
    texts_are_distinct();
}
