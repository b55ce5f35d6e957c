//! Whole numbers of facets and cardinalities.

ghost use Rattle.std.specs.Prelude.{◌≡◌};
ghost use Rattle.rdf_cursor.specs.Lent.{spelled};
ghost use Rattle.shexc_constraints.specs.Stops.{Answers};
ghost use Rattle.shexc_constraints.specs.Meanings.{count_of, is_minus, unsigned, facet_number_of, limit_of};

use crate::faults::{Fault, Stop};
use rdf_cursor::Symbol;
use rdf_lex::Token;

/// The value of digits, one or more, up to 4,294,967,295.
fn count(digits: &str) -> Option<u32>
    ensures { result ≡ count_of digits.now }
{
    if digits.starts_with('+') {
        return None;
    }
    match digits.parse() {
        Ok(n) => Some(n),
        Err(_) => None,
    }
}

/// The text without the sign in front of it.
fn unsigned(text: &str) -> &str
    ensures { result.now ≡ unsigned text.now }
{
    if let Some(digits) = text.strip_prefix('-') {
        return digits;
    }
    match text.strip_prefix('+') {
        Some(digits) => digits,
        None => text,
    }
}

/// Whether `-` stands in front.
fn is_minus(text: &str) -> bool
    ensures { result ≡ is_minus text.now }
{
    text.starts_with('-')
}

/// The number of a facet on lengths or digits.
#[tactic(auto, unfolding(crate::specs::Meanings::facet_number_of, rdf_cursor::specs::Symbols::is_symbol))]
pub fn facet_number(token: Token<'_>) -> Result<u32, Stop>
    ensures { Answers (λ n. n) result (facet_number_of (spelled token.entry)) }
{
    if !Symbol::of(token).is(Symbol::Integer) {
        return Err(Stop::Fault(Fault::Syntax));
    }
    let Some(number) = count(unsigned(token.text)) else {
        return Err(Stop::Fault(Fault::FacetNumber));
    };
    if is_minus(token.text) && number != 0 {
        return Err(Stop::Fault(Fault::FacetNumber));
    }
    Ok(number)
}

/// The number of a cardinality, which is not below another one.
#[tactic(auto, unfolding(crate::specs::Meanings::limit_of, rdf_cursor::specs::Symbols::is_symbol))]
pub fn limit(least: u32, token: Token<'_>) -> Result<u32, Stop>
    ensures { Answers (λ n. n) result (limit_of least (spelled token.entry)) }
{
    if !Symbol::of(token).is(Symbol::Integer) {
        return Err(Stop::Fault(Fault::Syntax));
    }
    match count(token.text) {
        Some(number) if least <= number => Ok(number),
        _ => Err(Stop::Fault(Fault::Syntax)),
    }
}
