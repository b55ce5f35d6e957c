//! The part of a token's text that stands for something.

ghost use Rattle.std.specs.Prelude.{◌≡◌, ℕ, List};
ghost use Rattle.std.specs.Str.{chars};
ghost use Rattle.std.specs.List.{after_first};
ghost use Rattle.rdf_lex.specs.declared.kinds.Kind.TheVariants.{Str};
ghost use Rattle.rdf_lex.specs.Escapes.{Body, IsBehindColon, IsEnclosed, has_long_marks, is_colon};

use crate::kinds::Kind;
use crate::lexed::Token;

/// An IRI between its brackets, a text between its quotation marks, a local name behind its colon.
pub fn body_of<'a>(token: Token<'a>) -> &'a str
    requires { (body : List ℕ) × Body token.kind (chars token.text.now) body }
    ensures { (body : List ℕ) → Body token.entry.kind (chars token.entry.text.now) body
        → chars result.now ≡ body }
{
    match token.kind {
        Kind::IriRef => enclosed(token.text, 1),
        Kind::Str => quoted(token.text),
        Kind::PnameNs | Kind::PnameLn | Kind::AtName => behind_colon(token.text),
        Kind::BlankLabel
        | Kind::LangTag
        | Kind::Integer
        | Kind::Decimal
        | Kind::Double
        | Kind::Word
        | Kind::Punct
        | Kind::Line
        | Kind::Pattern => unreachable!(),
    }
}

/// A text without the marks on both sides, which take so many bytes each.
fn enclosed(text: &str, marks: usize) -> &str
    requires { (body : List ℕ) × IsEnclosed text.now marks body }
    ensures { (body : List ℕ) → IsEnclosed text.now marks body → chars result.now ≡ body }
{
    &text[marks..text.len() - marks]
}

/// Whether a text in quotation marks has three on each side.
fn is_long(text: &str) -> bool
    ensures { result ≡ has_long_marks text.now }
{
    let bytes = text.as_bytes();
    bytes.len() > 2 && bytes[0] == bytes[1]
}

/// A text without its quotation marks.
fn quoted(text: &str) -> &str
    requires { (body : List ℕ) × Body Str (chars text.now) body }
    ensures { (body : List ℕ) → Body Str (chars text.now) body → chars result.now ≡ body }
{
    if is_long(text) {
        enclosed(text, 3)
    } else {
        enclosed(text, 1)
    }
}

/// What stands behind the first colon.
fn behind_colon(text: &str) -> &str
    ensures { (body : List ℕ) → IsBehindColon (chars text.now) body → chars result.now ≡ body }
{
    after_colon(text)
}

/// What stands behind the first colon, or nothing where there is none.
fn after_colon(text: &str) -> &str
    ensures { result.now ≡ after_first is_colon text.now }
{
    match text.split_once(':') {
        Some((_prefix, local)) => local,
        None => "",
    }
}
