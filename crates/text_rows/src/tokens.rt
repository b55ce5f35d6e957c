//! Tokens of a text, and what the first one stands for.

ghost use Rattle.rdf_lex.specs.Tokens.{Lexes};

use anyhow::bail;
use rdf_cursor::{Cursor, Symbol};
use rdf_lex::{Lexed, Mode, Token, next, unescape};
use std::alloc::{AllocError, Global};

/// The language of a name.
fn mode_of(name: &str) -> Option<Mode> {
    match name {
        "N-Triples" => Some(Mode::NTriples),
        "Turtle" => Some(Mode::Turtle),
        "map" => Some(Mode::Map),
        "ShExC" => Some(Mode::Schema),
        _ => None,
    }
}

/// Appends a token: its place, its symbol, and its text unless it is a line end.
fn push_token(out: &mut String, token: Token<'_>) -> Result<(), AllocError> {
    let (at, symbol, text) = (token.at, Symbol::of(token), token.text);
    match symbol {
        Symbol::Line => write!(out, "{at} Line, "),
        _ => write!(out, "{at} {symbol:?} {text}, "),
    }
}

/// The tokens of a text one after the other, and then the place of its end, or that from which on no token begins it.
fn listed(alloc: Global, mode: Mode, source: &str) -> Result<String, AllocError> {
    let mut cursor = Cursor::new(source, mode);
    let mut out = String::new(alloc);
    // A token has a byte at least, so there are no more tokens than bytes.
    for _ in 0..source.len() {
        let Some(token) = cursor.peek() else {
            break;
        };
        push_token(&mut out, token)?;
        cursor.advance();
    }
    let place = cursor.place();
    match cursor.end() {
        Ok(()) => write!(out, "{place} end")?,
        Err(_) => write!(out, "{place} fault")?,
    }
    Ok(out)
}

/// The tokens of a text in the language of a name.
pub fn tokens(alloc: Global, language: &str, source: &str) -> anyhow::Result<String> {
    match mode_of(language) {
        Some(mode) => Ok(listed(alloc, mode, source)?),
        None => bail!("no language has this name"),
    }
}

/// What comes first in a shape map.
fn first(source: &str) -> Lexed<'_>
    ensures { Lexes Mode.Map source.entry.now 0 result }
{
    next(source, 0, Mode::Map)
}

/// What the first token of a shape map stands for, or why it stands for nothing.
pub fn meaning(alloc: Global, source: &str) -> Result<String, AllocError> {
    match first(source) {
        Lexed::Token(token) if token.kind.holds_text() => match unescape(alloc, token) {
            Ok(text) => format!(in alloc; "{text:?}"),
            Err(error) => format!(in alloc; "{error:?}"),
        },
        _ => String::from_str(alloc, "nothing"),
    }
}
