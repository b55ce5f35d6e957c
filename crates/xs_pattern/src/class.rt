//! Reading character classes (XML Schema Part 2, version 1.1, section G.4.1).
ghost use Rattle.std.specs.Prelude.{◌≡◌, ◌==◌, IfOk, codes, map, option_map};
ghost use Rattle.std.specs.List.{list_all};
ghost use Rattle.xs_pattern.specs.Lexing.{begins, behind_closing, is_end, is_own, is_range, ranged, read_char, read_class, read_groups, read_item, read_items, read_kind_item, read_members, read_opening, tail};
ghost use Rattle.xs_pattern.specs.Regex.{members_of};
ghost use Rattle.xs_pattern.specs.Spelling.{is_one_of};

use crate::escapes::{kind, single};
use crate::{CharGroup, Item};
use std::alloc::{AllocError, Global};

/// The characters that stand in a class behind a backslash alone.
const SPECIAL: [char; 3] = ['\\', '[', ']'];

fn is_special(c: char) -> bool
    ensures { result ≡ is_one_of (codes "\\[]") c }
{
    SPECIAL.iter().any(|d| *d == c)
}

/// Whether the text begins with the character.
pub(crate) fn begins(c: char, text: &[char]) -> bool
    ensures { result ≡ begins c text.now }
{
    match text {
        [first, ..] => *first == c,
        [] => false,
    }
}

/// What is behind the first character.
fn tail(text: &[char]) -> &[char]
    ensures { result.now ≡ tail text.now }
{
    match text {
        [_, rest @ ..] => rest,
        [] => text,
    }
}

/// Whether a hyphen stands there that makes a range.
fn is_range(text: &[char]) -> bool
    ensures { result ≡ is_range text.now }
{
    begins('-', text) && !(begins(']', tail(text)) || begins('[', tail(text)))
}

/// Whether the items of a class end there.
fn is_end(text: &[char]) -> bool
    ensures { result ≡ is_end text.now }
{
    begins(']', text) || begins('-', text) && begins('[', tail(text))
}

/// Whether the character stands for itself, with this text behind it.
fn is_own(is_first: bool, c: char, rest: &[char]) -> bool
    ensures { result ≡ is_own is_first c rest.now }
{
    !is_special(c) && (c != '-' || is_first || begins(']', rest))
}

/// A character, as an item or as an end of a range.
fn char_in_class(is_first: bool, text: &[char]) -> Option<(char, &[char])>
    ensures { option_map (λ p. (p.0, p.1.now)) result ≡ read_char is_first text.now }
{
    match text {
        ['\\', rest @ ..] => single(rest),
        [c, rest @ ..] if is_own(is_first, *c, rest) => Some((*c, rest)),
        _ => None,
    }
}

/// A kind of characters.
fn kind_in_class(text: &[char]) -> Option<(Item, &[char])>
    ensures { option_map (λ p. (p.0, p.1.now)) result ≡ read_kind_item text.now }
{
    match text {
        ['\\', rest @ ..] => kind(rest),
        _ => None,
    }
}

/// A character or a range.
fn range(is_first: bool, text: &[char]) -> Option<(Item, &[char])>
    ensures { option_map (λ p. (p.0, p.1.now)) result ≡ ranged (read_char is_first text.now) }
{
    let (first, behind) = char_in_class(is_first, text)?;
    if !is_range(behind) {
        return Some((Item::Char(first), behind));
    }
    let (last, rest) = char_in_class(false, tail(behind))?;
    if first > last {
        return None;
    }
    Some((Item::Range(first, last), rest))
}

/// An item of a class.
fn item(is_first: bool, text: &[char]) -> Option<(Item, &[char])>
    ensures { option_map (λ p. (p.0, p.1.now)) result ≡ read_item is_first text.now }
{
    if let Some(read) = kind_in_class(text) {
        return Some(read);
    }
    range(is_first, text)
}

/// The items of a class, one or more.
fn items(alloc: Global, text: &[char]) -> Result<Option<(Vec<Item>, &[char])>, AllocError>
    ensures { IfOk result (λ o. option_map (λ p. (p.0.items, p.1.now)) o ≡ read_items text.now) }
{
    let Some((first, behind)) = item(true, text) else {
        return Ok(None);
    };
    let mut items = Vec::new(alloc);
    items.push(first)?;
    let mut rest = behind;
    while !is_end(rest) {
        let Some((item, behind)) = item(false, rest) else {
            return Ok(None);
        };
        items.push(item)?;
        rest = behind;
    }
    Ok(Some((items, rest)))
}

/// The opening bracket, and whether a circumflex stands behind it.
fn opening(text: &[char]) -> Option<(bool, &[char])>
    ensures { option_map (λ p. (p.0, p.1.now)) result ≡ read_opening text.now }
{
    match text {
        ['[', '^', rest @ ..] => Some((true, rest)),
        ['[', rest @ ..] => Some((false, rest)),
        _ => None,
    }
}

/// A class up to its closing bracket, or to the hyphen before the class that is taken away.
fn group(alloc: Global, text: &[char]) -> Result<Option<(CharGroup, &[char])>, AllocError>
    ensures { IfOk result (λ o. option_map (λ p. (members_of p.0, p.1.now)) o ≡ read_members text.now) }
{
    let Some((negated, behind)) = opening(text) else {
        return Ok(None);
    };
    let Some((items, rest)) = items(alloc, behind)? else {
        return Ok(None);
    };
    Ok(Some((CharGroup { negated, items }, rest)))
}

/// The classes that stand in one another, up to their closing brackets.
fn groups(alloc: Global, text: &[char]) -> Result<Option<(Vec<CharGroup>, &[char])>, AllocError>
    ensures { IfOk result (λ o. option_map (λ p. (map members_of p.0.items, p.1.now)) o ≡ read_groups text.now) }
{
    let mut groups = Vec::new(alloc);
    let Some((first, mut rest)) = group(alloc, text)? else {
        return Ok(None);
    };
    groups.push(first)?;
    while begins('-', rest) {
        let Some((group, behind)) = group(alloc, tail(rest))? else {
            return Ok(None);
        };
        groups.push(group)?;
        rest = behind;
    }
    Ok(Some((groups, rest)))
}

/// Whether each character is a closing bracket.
fn are_closing(text: &[char]) -> bool
    ensures { result ≡ list_all (λ c. c == 93) text.now }
{
    text.iter().all(|c| *c == ']')
}

/// What is behind so many closing brackets.
fn behind_closing(number: usize, text: &[char]) -> Option<&[char]>
    ensures { option_map (λ p. p.now) result ≡ behind_closing number text.now }
{
    if number > text.len() {
        return None;
    }
    let (brackets, rest) = text.split_at(number);
    if are_closing(brackets) {
        Some(rest)
    } else {
        None
    }
}

/// A class with those that are taken away from it, the outermost first.
pub(crate) fn class(
    alloc: Global,
    text: &[char],
) -> Result<Option<(Vec<CharGroup>, &[char])>, AllocError>
    ensures { IfOk result (λ o. option_map (λ p. (map members_of p.0.items, p.1.now)) o ≡ read_class text.now) }
{
    let Some((groups, behind)) = groups(alloc, text)? else {
        return Ok(None);
    };
    let Some(rest) = behind_closing(groups.len(), behind) else {
        return Ok(None);
    };
    Ok(Some((groups, rest)))
}
