//! Texts of tokens and their lengths.

ghost use Rattle.std.specs.Prelude.{ℕ, List, ◌≡◌, ◌&&◌, nat_lt, length, IfOk, string_bytes, true};
ghost use Rattle.std.specs.List.{before_first, after_first, list_all};
ghost use Rattle.std.specs.Str.{chars};
ghost use Rattle.rdf_lex.specs.Escapes.{holds_text, stands_alone, IsBehindColon, IsSpelled};
ghost use Rattle.rdf_lex.specs.declared.escapes.Inside.TheVariants.{Local};
ghost use Rattle.rdf_cursor.specs.Lent.{spelled};
ghost use Rattle.rdf_cursor.specs.Stops.{Answers};
ghost use Rattle.term_tokens.specs.Meanings.{text_of};
ghost use Rattle.term_tokens.specs.Terms.{max_text, is_colon, is_at, limited, bare_name, prefix_of, Unescaped};

use rdf_cursor::{Fault, Stop, Symbol};
use rdf_lex::{LexError, Token, unescape};
use rdf_terms::text::Text;
use std::alloc::Global;

/// How many bytes an IRI, a label or a lexical form has at most, where its length is bounded.
pub const MAX_TEXT: usize = 16_777_216;

/// Whether a text is too long, where its length is bounded.
pub(crate) fn is_long(text: &str, bounded: bool) -> bool
    ensures { result ≡ (bounded && nat_lt max_text (length text.now)) }
{
    bounded && text.len() > MAX_TEXT
}

/// A text that is not too long.
pub(crate) fn limit(text: String, bounded: bool) -> Result<String, Stop>
    ensures answer { Answers string_bytes result (limited bounded (string_bytes text) (string_bytes text)) }
    ensures same { IfOk result (λ same. string_bytes same ≡ string_bytes text) }
{
    if is_long(text.as_str(), bounded) {
        Err(Stop::Fault(Fault::Long))
    } else {
        Ok(text)
    }
}

/// A lexical form that is not too long.
pub(crate) fn short(text: String, bounded: bool) -> Result<Text, Stop>
    ensures { Answers (λ text. text) result (limited bounded (string_bytes text) (chars (string_bytes text))) }
{
    if is_long(text.as_str(), bounded) {
        Err(Stop::Fault(Fault::Long))
    } else {
        Ok(Text::from_string(text))
    }
}

/// What stands before the first colon.
fn before_colon(text: &str) -> &str
    ensures { result.now ≡ before_first is_colon text.now }
{
    match text.split_once(':') {
        Some((before, _)) => before,
        None => text,
    }
}

/// What stands behind the first colon.
pub(crate) fn after_colon(text: &str) -> &str
    ensures { result.now ≡ after_first is_colon text.now }
{
    match text.split_once(':') {
        Some((_, after)) => after,
        None => "",
    }
}

/// The local name in the text of a prefixed name, as it is written.
pub(crate) fn local_name(text: &str) -> &str
    ensures { (body : List ℕ) → IsBehindColon (chars text.now) body → chars result.now ≡ body }
{
    after_colon(text)
}

/// Whether a local name has no escapes, and so stands for itself.
pub(crate) fn stands_for_itself(local: &str) -> bool
    ensures { result ≡ list_all (stands_alone Local) (chars local.now) }
{
    local.chars().all(|ch| ch != '\\')
}

/// What stands behind the first `@` of a text, and nothing where it has none.
pub fn after_at(text: &str) -> &str
    ensures { result.now ≡ after_first is_at text.now }
{
    match text.split_once('@') {
        Some((_, after)) => after,
        None => "",
    }
}

/// A name without the `@` in front of it.
#[tactic(auto, unfolding(rdf_cursor::specs::Symbols::is_symbol))]
fn bare(token: Token<'_>) -> &str
    ensures { result.now ≡ bare_name (spelled token.entry) }
{
    if Symbol::of(token).is(Symbol::AtName) {
        after_at(token.text)
    } else {
        token.text
    }
}

/// The prefix of a name, without its colon (RDF 1.1 Turtle, section 2.4).
pub fn prefix_of(token: Token<'_>) -> &str
    ensures { result.now ≡ prefix_of (spelled token.entry) }
{
    before_colon(bare(token))
}

/// The text that a token stands for; an escape that stands for nothing is `Syntax` (RDF 1.1 Turtle, section 6.4).
pub fn unescaped(alloc: Global, token: Token<'_>) -> Result<String, Stop>
    requires holds { holds_text token.kind ≡ true }
    requires spelled { IsSpelled token.kind (chars token.text.now) }
    ensures { Unescaped result (text_of (spelled token.entry)) }
{
    match unescape(alloc, token) {
        Ok(text) => Ok(text),
        Err(LexError::Escape) => Err(Stop::Fault(Fault::Syntax)),
        Err(LexError::Memory) => Err(Stop::Memory),
    }
}
