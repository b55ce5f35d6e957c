//! What a token's text stands for.

ghost use Rattle.std.specs.Prelude.{◌≡◌, ℕ, ◌+◌, ◌*◌, ◌^◌, ◌<◌, List, true, false, MatchResult, IfOk, string_bytes};
ghost use Rattle.std.specs.List.{list_all};
ghost use Rattle.std.specs.Str.{chars};
ghost use Rattle.rdf_lex.specs.Escapes.{digit_of, goes_on, numbers, escaped, bound_of, stands_alone, IsBelow, StaysBelow, step_after, fits, Gave, StandsFor, ReadsAs, inside_of, holds_text, IsSpelled, Unescapes};
ghost use Rattle.rdf_lex.specs.declared.machine.Left.{Left};
ghost use Rattle.rdf_lex.specs.declared.escapes.LexError.TheVariants.{Escape, Memory};

use crate::bodies::body_of;
use crate::characters::is_iri_char;
use crate::kinds::Kind;
use crate::lexed::Token;
use crate::machine::{Left, fewer};
use std::alloc::{AllocError, Global};
use thiserror::Error;

/// Why a token's text stands for nothing.
#[derive(Clone, Copy, Debug, PartialEq, Eq, Error)]
pub enum LexError {
    /// An escape names a surrogate, a number above 10FFFF or, in an IRI, a character that an IRI may
    /// not have (RDF 1.1 Turtle, section 6.4).
    #[error("Escape")]
    Escape,
    /// Memory ran out.
    #[error("Memory")]
    Memory,
}

impl From<AllocError> for LexError {
    ghost from_gives = { λ _ e. e ≡ Memory };

    fn from(_error: AllocError) -> LexError {
        LexError::Memory
    }
}

/// Where escapes stand: in an IRI, in a text, or in a local name.
#[derive(Clone, Copy)]
pub enum Inside {
    Iri,
    Text,
    Local,
}

/// How far an escape is read: not begun, behind its backslash, or before further hexadecimal digits
/// with the number that the digits so far spell.
#[derive(Clone, Copy)]
pub enum Reading {
    Plain,
    Behind,
    Digits(Left, u32),
}

/// What one more character makes: an escape goes on, or a character is named by its number.
#[derive(Clone, Copy)]
pub enum Step {
    On(Reading),
    Gives(u32),
}

/// The value of a hexadecimal digit.
fn digit(ch: char) -> u32
    ensures value { result ≡ digit_of ch }
    ensures small { result < 16 }
{
    match ch {
        '0'..='9' => ch as u32 - 48,
        'A'..='F' => ch as u32 - 55,
        'a'..='f' => ch as u32 - 87,
        _ => 0,
    }
}

/// What an escaped character stands for.
fn named(inside: Inside, ch: char) -> u32
    ensures { result ≡ escaped inside ch }
{
    match (inside, ch) {
        (Inside::Text, 't') => 9,
        (Inside::Text, 'b') => 8,
        (Inside::Text, 'n') => 10,
        (Inside::Text, 'r') => 13,
        (Inside::Text, 'f') => 12,
        _ => ch as u32,
    }
}

/// Whether numeric escapes stand there.
fn has_numbers(inside: Inside) -> bool
    ensures { result ≡ numbers inside }
{
    match inside {
        Inside::Iri | Inside::Text => true,
        Inside::Local => false,
    }
}

fn step_on(inside: Inside, reading: Reading, ch: char) -> Step
    requires { IsBelow reading }
    ensures step { result ≡ step_after inside reading ch }
    ensures below { StaysBelow result }
{
    match reading {
        Reading::Plain if ch == '\\' => Step::On(Reading::Behind),
        Reading::Plain => Step::Gives(ch as u32),
        Reading::Behind if has_numbers(inside) && ch == 'u' => Step::On(Reading::Digits(
            Left::Four,
            0,
        )),
        Reading::Behind if has_numbers(inside) && ch == 'U' => Step::On(Reading::Digits(
            Left::Eight,
            0,
        )),
        Reading::Behind => Step::Gives(named(inside, ch)),
        Reading::Digits(left, number) => {
            let number = number_on(number, ch);
            match fewer(left) {
                Some(fewer) => Step::On(Reading::Digits(fewer, number)),
                None => Step::Gives(number),
            }
        }
    }
}

/// A number with one more hexadecimal digit.
fn number_on(number: u32, ch: char) -> u32
    requires { number < 2 ^ 28 }
    ensures value { result ≡ goes_on number ch }
    ensures below { (left : Left) → number < bound_of left → result < 16 * bound_of left }
{
    number * 16 + digit(ch)
}

/// The character of a number, if it may stand there.
fn character(inside: Inside, number: u32) -> Result<char, LexError>
    ensures { MatchResult result
        (λ c. (c ≡ number) × (fits inside number ≡ true))
        (λ e. (e ≡ Escape) × (fits inside number ≡ false)) }
{
    match (inside, char::from_u32(number)) {
        (_, None) => Err(LexError::Escape),
        (Inside::Iri, Some(ch)) if !is_iri_char(ch) => Err(LexError::Escape),
        (_, Some(ch)) => Ok(ch),
    }
}

/// Reads one character, and appends what an escape or the character itself names.
fn read_char(
    inside: Inside,
    reading: Reading,
    ch: char,
    text: &mut String,
) -> Result<Reading, LexError>
    requires { IsBelow reading }
    ensures gave { Gave inside (string_bytes text.old) (string_bytes text.new)
        (step_after inside reading ch) result }
    ensures below { IfOk result IsBelow }
{
    match step_on(inside, reading, ch) {
        Step::On(next) => Ok(next),
        Step::Gives(number) => {
            text.push(character(inside, number)?)?;
            Ok(Reading::Plain)
        }
    }
}

/// Whether each character of a part stands for itself, and may stand there.
fn stands_for_itself(inside: Inside, body: &str) -> bool
    ensures { result ≡ list_all (stands_alone inside) (chars body.now) }
{
    match inside {
        Inside::Iri => body.chars().all(|ch| ch != '\\' && is_iri_char(ch)),
        Inside::Text | Inside::Local => body.chars().all(|ch| ch != '\\'),
    }
}

/// What characters stand for. A part without escapes is copied whole.
fn read_body(alloc: Global, inside: Inside, body: &str) -> Result<String, LexError>
    ensures { (out : List ℕ) → StandsFor inside (chars body.now) out → ReadsAs inside out result }
{
    if stands_for_itself(inside, body) {
        return Ok(String::from_str(alloc, body)?);
    }
    read_escaped(alloc, inside, body)
}

/// What characters stand for, read one by one.
fn read_escaped(alloc: Global, inside: Inside, body: &str) -> Result<String, LexError>
    ensures { (out : List ℕ) → StandsFor inside (chars body.now) out → ReadsAs inside out result }
{
    // An escape is longer than what it stands for, so this is enough.
    let mut text = String::with_capacity(alloc, body.len())?;
    let mut reading = Reading::Plain;
    for ch in body.chars() {
        reading = read_char(inside, reading, ch, &mut text)?;
    }
    Ok(text)
}

/// How a kind's text is escaped.
fn inside_kind(kind: Kind) -> Inside
    ensures { result ≡ inside_of kind }
{
    match kind {
        Kind::IriRef => Inside::Iri,
        Kind::Str => Inside::Text,
        _ => Inside::Local,
    }
}

/// The text that a token stands for: an IRI without its brackets, a text without its quotation
/// marks, the local name behind a prefix, which is empty for a prefix alone; with all escapes but `%`
/// replaced (RDF 1.1 Turtle, section 6.4). The token's kind is one that holds such a text, and its
/// text spells the kind. Fails with `Escape` exactly where an escape names a surrogate, a number above
/// 10FFFF or, in an IRI, a character that an IRI may not have.
pub fn unescape(alloc: Global, token: Token<'_>) -> Result<String, LexError>
    requires holds { holds_text token.kind ≡ true }
    requires spelled { IsSpelled token.kind (chars token.text.now) }
    ensures { Unescapes token.entry.kind (chars token.entry.text.now) result }
{
    read_body(alloc, inside_kind(token.kind), body_of(token))
}
