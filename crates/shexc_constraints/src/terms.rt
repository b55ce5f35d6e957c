//! What single tokens of ShExC alone stand for (ShEx 2.1, section 6).

ghost use Rattle.std.specs.Prelude.{◌≡◌};
ghost use Rattle.rdf_cursor.specs.Lent.{spelled};
ghost use Rattle.shexc_constraints.specs.Meanings.{tag_of, range_number_of};
ghost use Rattle.shexc_constraints.specs.Stops.{Answers};

use crate::faults::{Fault, Stop};
use rdf_cursor::Symbol;
use rdf_lex::Token;
use rdf_terms::text::Text;
use std::alloc::Global;
use term_tokens::parts::after_at;
use term_tokens::terms::is_tag;

/// A language tag, in lower case.
#[tactic(auto, unfolding(crate::specs::Meanings::tag_of))]
pub fn tag(alloc: Global, token: Token<'_>) -> Result<Text, Stop>
    ensures { Answers (λ text. text) result (tag_of (spelled token.entry)) }
{
    if !is_tag(token) {
        return Err(Stop::Fault(Fault::Syntax));
    }
    let mut lowered = String::from_str(alloc, after_at(token.text))?;
    lowered.make_ascii_lowercase();
    Ok(Text::from_string(lowered))
}

/// The text of a number of a range facet.
#[tactic(auto, unfolding(crate::specs::Meanings::range_number_of, rdf_cursor::specs::Symbols::is_among))]
pub fn range_number(alloc: Global, token: Token<'_>) -> Result<Text, Stop>
    ensures { Answers (λ text. text) result (range_number_of (spelled token.entry)) }
{
    let symbol = Symbol::of(token);
    if !matches!(symbol, Symbol::Integer | Symbol::Decimal | Symbol::Double) {
        return Err(Stop::Fault(Fault::Syntax));
    }
    Ok(Text::from_str(alloc, token.text)?)
}
