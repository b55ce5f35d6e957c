//! Reading escapes (XML Schema Part 2, version 1.1, section G.4.2).
ghost use Rattle.std.specs.Prelude.{◌≡◌, codes, option_map};
ghost use Rattle.xs_pattern.specs.Lexing.{in_braces, letter_item, read_category, read_escape, read_kind, read_single};
ghost use Rattle.xs_pattern.specs.Spelling.{escaped, is_one_of};

use crate::categories::{category, group};
use crate::{Item, Kind};

/// The characters that stand for themselves behind a backslash.
const ESCAPED: [char; 16] = [
    '\\', '|', '.', '?', '*', '+', '(', ')', '{', '}', '$', '-', '[', ']', '^', '/',
];

/// The character that stands behind a backslash for another one, or itself.
fn escaped(c: char) -> Option<char>
    ensures { result ≡ escaped c }
{
    match c {
        'n' => Some('\n'),
        'r' => Some('\r'),
        't' => Some('\t'),
        _ => is_escaped(c).then_some(c),
    }
}

fn is_escaped(c: char) -> bool
    ensures { result ≡ is_one_of (codes "\\|.?*+(){}$-[]^/") c }
{
    ESCAPED.iter().any(|d| *d == c)
}

/// The item of a letter behind a backslash, but for the letters of categories.
fn letter_item(c: char) -> Option<Item>
    ensures { result ≡ letter_item c }
{
    match c {
        'd' => Some(Item::Kind(Kind::Digit)),
        'D' => Some(Item::Not(Kind::Digit)),
        's' => Some(Item::Kind(Kind::Space)),
        'S' => Some(Item::Not(Kind::Space)),
        'w' => Some(Item::Kind(Kind::Word)),
        'W' => Some(Item::Not(Kind::Word)),
        _ => None,
    }
}

/// A category by its name, behind the opening brace.
fn in_braces(text: &[char]) -> Option<(Kind, &[char])>
    ensures { option_map (λ p. (p.0, p.1.now)) result ≡ in_braces text.now }
{
    match text {
        [letter, '}', rest @ ..] => Some((group(*letter)?, rest)),
        [first, second, '}', rest @ ..] => Some((category(*first, *second)?, rest)),
        _ => None,
    }
}

fn category_item(text: &[char]) -> Option<(Kind, &[char])>
    ensures { option_map (λ p. (p.0, p.1.now)) result ≡ read_category text.now }
{
    match text {
        ['{', rest @ ..] => in_braces(rest),
        _ => None,
    }
}

/// An escape of a kind of characters, behind the backslash.
pub(crate) fn kind(text: &[char]) -> Option<(Item, &[char])>
    ensures { option_map (λ p. (p.0, p.1.now)) result ≡ read_kind text.now }
{
    match text {
        ['p', rest @ ..] => {
            let (kind, behind) = category_item(rest)?;
            Some((Item::Kind(kind), behind))
        }
        ['P', rest @ ..] => {
            let (kind, behind) = category_item(rest)?;
            Some((Item::Not(kind), behind))
        }
        [letter, rest @ ..] => Some((letter_item(*letter)?, rest)),
        [] => None,
    }
}

/// An escape of one character, behind the backslash.
pub(crate) fn single(text: &[char]) -> Option<(char, &[char])>
    ensures { option_map (λ p. (p.0, p.1.now)) result ≡ read_single text.now }
{
    match text {
        [c, rest @ ..] => Some((escaped(*c)?, rest)),
        [] => None,
    }
}

/// An escape, behind the backslash.
pub(crate) fn escape(text: &[char]) -> Option<(Item, &[char])>
    ensures { option_map (λ p. (p.0, p.1.now)) result ≡ read_escape text.now }
{
    if let Some(read) = kind(text) {
        return Some(read);
    }
    let (c, rest) = single(text)?;
    Some((Item::Char(c), rest))
}
