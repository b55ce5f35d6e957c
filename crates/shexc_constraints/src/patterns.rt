//! Patterns between slashes (ShEx 2.1, section 6, REGEXP).

ghost use Rattle.std.specs.Prelude.{◌≡◌, ◌&&◌, ◌++◌, ◌<◌, ◌∷◌, [], IfOk, IfSome, OnOk, option_map, true};
ghost use Rattle.std.specs.Str.{all_scalars, chars};
ghost use Rattle.rdf_cursor.specs.Lent.{spelled};
ghost use Rattle.rdf_lex.specs.Characters.{has, hexadecimal};
ghost use Rattle.rdf_lex.specs.Escapes.{digit_of, number_of};
ghost use Rattle.shexc_constraints.specs.Patterns.{Leads, are_digits, at_end, eight_digits, escape_at, flags_in, four_digits, numeric, parts_of, pattern_by, pattern_of, piece_at, written};
ghost use Rattle.shexc_constraints.specs.Stops.{Answers};

use crate::facets::is_given;
use crate::faults::{Fault, Stop};
use node_constraint::Facet;
use rdf_cursor::Symbol;
use rdf_lex::Token;
use rdf_terms::text::Text;
use std::alloc::{AllocError, AllocFailed, Global};

/// What one character or one escape of a pattern stands for.
#[derive(Clone, Copy)]
pub enum Piece {
    /// A character.
    One(char),
    /// A backslash and the character behind it.
    Kept(char),
}

/// Whether a character is a hexadecimal digit.
#[tactic(auto, unfolding(rdf_lex::specs::Characters::hexadecimal))]
fn is_hexadecimal(c: char) -> bool
    ensures { result ≡ has hexadecimal c }
{
    matches!(c, '0'..='9' | 'A'..='F' | 'a'..='f')
}

/// The value of a hexadecimal digit.
fn digit(c: char) -> u32
    ensures value { result ≡ digit_of c }
    ensures small { result < 16 }
{
    match c {
        '0'..='9' => c as u32 - 48,
        'A'..='F' => c as u32 - 55,
        'a'..='f' => c as u32 - 87,
        _ => 0,
    }
}

/// Whether four characters are hexadecimal digits.
fn are_digits(a: char, b: char, c: char, d: char) -> bool
    ensures { result ≡ are_digits a b c d }
{
    is_hexadecimal(a) && is_hexadecimal(b) && is_hexadecimal(c) && is_hexadecimal(d)
}

/// The number of four digits.
fn number(a: char, b: char, c: char, d: char) -> u32
    ensures value { result ≡ number_of (a ∷ b ∷ c ∷ d ∷ []) }
    ensures small { result < 65536 }
{
    ((digit(a) * 16 + digit(b)) * 16 + digit(c)) * 16 + digit(d)
}

/// The number of four digits in front, and what is behind them.
fn four_digits(text: &[char]) -> Option<(u32, &[char])>
    ensures value { option_map (λ p. (p.0, p.1.now)) result ≡ four_digits text.now }
    ensures small { IfSome result (λ p. p.0 < 65536) }
{
    match text {
        [a, b, c, d, rest @ ..] => {
            if are_digits(*a, *b, *c, *d) {
                Some((number(*a, *b, *c, *d), rest))
            } else {
                None
            }
        }
        _ => None,
    }
}

/// The number of eight digits in front, and what is behind them.
fn eight_digits(text: &[char]) -> Option<(u32, &[char])>
    ensures { option_map (λ p. (p.0, p.1.now)) result ≡ eight_digits text.now }
{
    let Some((high, behind)) = four_digits(text) else {
        return None;
    };
    let Some((low, rest)) = four_digits(behind) else {
        return None;
    };
    Some((high * 65536 + low, rest))
}

/// The piece of a numeric escape, if it has digits.
fn numeric<'a>(
    letter: char,
    rest: &'a [char],
    digits: Option<(u32, &'a [char])>,
) -> Option<(Piece, &'a [char])>
    ensures { option_map (λ p. (p.0, p.1.now)) result ≡ numeric letter rest.entry.now (option_map (λ p. (p.0, p.1.now)) digits.entry) }
{
    match digits {
        None => Some((Piece::Kept(letter), rest)),
        Some((number, behind)) => match char::from_u32(number) {
            Some(c) => Some((Piece::One(c), behind)),
            None => None,
        },
    }
}

/// The piece of an escape behind its backslash, and what is behind it.
fn escape(text: &[char]) -> Option<(Piece, &[char])>
    ensures { option_map (λ p. (p.0, p.1.now)) result ≡ escape_at text.now }
{
    match text {
        ['/', rest @ ..] => Some((Piece::One('/'), rest)),
        ['u', rest @ ..] => numeric('u', rest, four_digits(rest)),
        ['U', rest @ ..] => numeric('U', rest, eight_digits(rest)),
        [c, rest @ ..] => Some((Piece::Kept(*c), rest)),
        [] => None,
    }
}

/// The piece in front, and what is behind it.
#[tactic(auto, unfolding(crate::specs::Patterns::piece_at))]
fn first_piece(text: &[char]) -> Option<(Piece, &[char])>
    ensures { option_map (λ p. (p.0, p.1.now)) result ≡ piece_at text.now }
{
    match text {
        ['\\', rest @ ..] => escape(rest),
        [c, rest @ ..] => Some((Piece::One(*c), rest)),
        [] => None,
    }
}

/// Whether a slash ends the text, or the characters end.
fn at_end(text: &[char]) -> bool
    ensures { result ≡ at_end text.now }
{
    match text {
        [] => true,
        [c, ..] => *c == '/',
    }
}

/// Puts what a piece stands for behind other characters.
fn push(out: &mut Vec<char>, piece: Piece) -> Result<(), AllocFailed<char>>
    ensures { OnOk result (out.new.items ≡ out.old.items ++ written piece) }
{
    match piece {
        Piece::One(c) => out.push(c),
        Piece::Kept(c) => {
            out.push('\\')?;
            out.push(c)
        }
    }
}

/// The text of these characters.
fn text_of(alloc: Global, characters: &[char]) -> Result<Text, AllocError>
    requires { all_scalars characters.now ≡ true }
    ensures { IfOk result (λ t. t ≡ characters.now) }
{
    let mut text = String::new(alloc);
    for c in characters {
        text.push(*c)?;
    }
    Ok(Text::from_string(text))
}

/// The characters up to the slash that ends the text, and what is from there on; `None` where an escape stands for nothing.
fn read_text(
    alloc: Global,
    text: &[char],
) -> Result<Option<(Vec<char>, &[char])>, AllocFailed<char>>
    requires { all_scalars text.now ≡ true }
    ensures { IfOk result (λ o. Leads text.entry.now (option_map (λ p. (p.0.items, p.1.now)) o)) }
{
    let mut out = Vec::new(alloc);
    let mut rest = text;
    while !at_end(rest) {
        let Some((piece, behind)) = first_piece(rest) else {
            return Ok(None);
        };
        push(&mut out, piece)?;
        rest = behind;
    }
    Ok(Some((out, rest)))
}

/// The flags behind the slash that ends a text.
fn flags(rest: &[char]) -> Option<&[char]>
    ensures { option_map (λ r. r.now) result ≡ flags_in rest.now }
{
    match rest {
        [c, flags @ ..] if *c == '/' => Some(flags),
        _ => None,
    }
}

/// The facet of a pattern whose characters behind the first slash are these.
fn facet(alloc: Global, characters: &[char]) -> Result<Facet, Stop>
    requires { all_scalars characters.now ≡ true }
    ensures { Answers (λ f. f) result (pattern_by (parts_of characters.now)) }
{
    let Some((text, rest)) = read_text(alloc, characters)? else {
        return Err(Stop::Fault(Fault::Syntax));
    };
    let Some(flags) = flags(rest) else {
        return Err(Stop::Fault(Fault::Syntax));
    };
    let text = text_of(alloc, text.as_slice())?;
    let flags = text_of(alloc, flags)?;
    Ok(Facet::Pattern(text, flags))
}

/// The characters of a text.
fn characters(alloc: Global, text: &str) -> Result<Vec<char>, AllocError>
    ensures items { IfOk result (λ v. v.items ≡ chars text.now) }
    ensures scalars { all_scalars (chars text.now) ≡ true }
{
    text.chars().collect(alloc)
}

/// The facet of a pattern, which none is yet.
#[tactic(auto, unfolding(crate::specs::Patterns::pattern_of, rdf_cursor::specs::Symbols::is_symbol))]
pub fn pattern(alloc: Global, facets: &[Facet], token: Token<'_>) -> Result<Facet, Stop>
    ensures { Answers (λ f. f) result (pattern_of facets.now (spelled token.entry)) }
{
    if !Symbol::of(token).is(Symbol::Pattern) {
        return Err(Stop::Fault(Fault::Syntax));
    }
    if is_given(Symbol::Pattern, facets) {
        return Err(Stop::Fault(Fault::Syntax));
    }
    let characters = characters(alloc, token.text)?;
    match characters.as_slice() {
        [_, rest @ ..] => facet(alloc, rest),
        [] => Err(Stop::Fault(Fault::Syntax)),
    }
}
