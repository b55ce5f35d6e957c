//! Reading the tokens of a text (XML Schema Part 2, version 1.1, sections G.1 to G.4).
ghost use Rattle.std.specs.Prelude.{◌≡◌, ◌∷◌, IfOk, codes, option_map, map};
ghost use Rattle.xs_pattern.specs.Lexing.{
  behind_lazy,
  behind_open,
  capped_pair,
  capped_token,
  class_token,
  item_token,
  mark_token,
  plain_token,
  read_class,
  read_escape,
  read_token,
  read_tokens,
  times_token,
  read_quantifier,
};
ghost use Rattle.xs_pattern.specs.Parsing.{token_of, tokens_of};
ghost use Rattle.xs_pattern.specs.Spelling.{is_normal, is_one_of};

use crate::class::{begins, class};
use crate::escapes::escape;
use crate::parser::Token;
use crate::quantifier::quantifier;
use crate::{Item, Set};
use std::alloc::{AllocError, Global};

/// The characters that do not stand for themselves outside of classes.
const SPECIAL: [char; 14] = [
    '.', '\\', '?', '*', '+', '(', ')', '|', '[', ']', '{', '}', '^', '$',
];

fn is_normal(c: char) -> bool
    ensures { result ≡ is_normal c }
{
    !is_special(c)
}

fn is_special(c: char) -> bool
    ensures { result ≡ is_one_of (codes ".\\?*+()|[]{}^$") c }
{
    SPECIAL.iter().any(|d| *d == c)
}

/// The token of one character that does not stand for itself.
fn mark(c: char) -> Option<Token>
    ensures { option_map token_of result ≡ mark_token c }
{
    match c {
        '.' => Some(Token::One(Set::Dot)),
        ')' => Some(Token::Close),
        '|' => Some(Token::Bar),
        '^' => Some(Token::Start),
        '$' => Some(Token::End),
        _ => None,
    }
}

/// What is behind an opening bracket and `?:`, which says that nothing is captured.
fn behind_open(text: &[char]) -> &[char]
    ensures { result.now ≡ behind_open text.now }
{
    match text {
        ['?', ':', rest @ ..] => rest,
        _ => text,
    }
}

/// What is behind the question mark of a quantifier.
fn behind_lazy(text: &[char]) -> &[char]
    ensures { result.now ≡ behind_lazy text.now }
{
    match text {
        ['?', rest @ ..] => rest,
        _ => text,
    }
}

fn times(text: &[char]) -> Option<(Token, &[char])>
    ensures { option_map (λ p. (token_of p.0, p.1.now)) result ≡ capped_pair (times_token (read_quantifier text.now)) }
{
    let (least, most, rest) = quantifier(text)?;
    Some((Token::Times(least, most), behind_lazy(rest)))
}

fn escape_token(text: &[char]) -> Option<(Token, &[char])>
    ensures { option_map (λ p. (token_of p.0, p.1.now)) result ≡ capped_pair (item_token (read_escape text.now)) }
{
    let (item, rest) = escape(text)?;
    Some((Token::One(Set::Item(item)), rest))
}

/// A token that is no class, from its first character and what is behind it.
fn plain<'a>(text: &'a [char], first: char, rest: &'a [char]) -> Option<(Token, &'a [char])>
    requires { text.now ≡ first ∷ rest.now }
    ensures { option_map (λ p. (token_of p.0, p.1.now)) result ≡ capped_pair (plain_token first rest.entry.now) }
{
    if first == '\\' {
        return escape_token(rest);
    }
    if first == '(' {
        return Some((Token::Open, behind_open(rest)));
    }
    if is_normal(first) {
        return Some((Token::One(Set::Item(Item::Char(first))), rest));
    }
    match mark(first) {
        Some(mark) => Some((mark, rest)),
        None => times(text),
    }
}

fn class_token(alloc: Global, text: &[char]) -> Result<Option<(Token, &[char])>, AllocError>
    ensures { IfOk result (λ o. option_map (λ p. (token_of p.0, p.1.now)) o ≡ capped_pair (class_token (read_class text.now))) }
{
    match class(alloc, text)? {
        Some((groups, rest)) => Ok(Some((Token::One(Set::Class(groups)), rest))),
        None => Ok(None),
    }
}

/// The first token, and what is behind it.
fn token(alloc: Global, text: &[char]) -> Result<Option<(Token, &[char])>, AllocError>
    ensures { IfOk result (λ o. option_map (λ p. (token_of p.0, p.1.now)) o ≡ capped_pair (read_token text.now)) }
{
    if begins('[', text) {
        return class_token(alloc, text);
    }
    match text {
        [first, rest @ ..] => Ok(plain(text, *first, rest)),
        [] => Ok(None),
    }
}

/// The tokens of the text. None where it has none.
pub(crate) fn tokens(alloc: Global, text: &[char]) -> Result<Option<Vec<Token>>, AllocError>
    ensures { IfOk result (λ o. option_map (λ v. tokens_of v.items) o ≡ option_map (map capped_token) (read_tokens text.now)) }
{
    let mut tokens = Vec::new(alloc);
    let mut rest = text;
    while !rest.is_empty() {
        let Some((token, behind)) = token(alloc, rest)? else {
            return Ok(None);
        };
        tokens.push(token)?;
        rest = behind;
    }
    Ok(Some(tokens))
}
