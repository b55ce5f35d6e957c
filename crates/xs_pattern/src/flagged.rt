//! What flags mean for a pattern (XPath Functions and Operators 3.1, section 5.6.2).
ghost use Rattle.std.specs.Prelude.{◌≡◌, IfOk};
ghost use Rattle.std.specs.Str.{chars};
ghost use Rattle.xs_pattern.specs.Flagged.{are_flags, flags_named, has_flag, literal};
ghost use Rattle.xs_pattern.specs.Regex.{regex_of};

use crate::{Expression, Flags, Item, Set};
use std::alloc::{AllocError, Global};

/// Whether each flag is `s`, `i` or `q`.
pub(crate) fn are_flags(text: &str) -> bool
    ensures { result ≡ are_flags (chars text.now) }
{
    text.chars().all(|c| c == 's' || c == 'i' || c == 'q')
}

/// Whether the flag is among them.
pub(crate) fn has_flag(flag: char, text: &str) -> bool
    ensures { result ≡ has_flag flag (chars text.now) }
{
    text.chars().any(|c| c == flag)
}

/// What the flags ask for.
pub(crate) fn flags_named(text: &str) -> Flags
    ensures { result ≡ flags_named (chars text.now) }
{
    Flags {
        dot_all: has_flag('s', text),
        ignore_case: has_flag('i', text),
    }
}

/// The pattern of a text with flag `q`: each character stands for itself.
pub(crate) fn literal(alloc: Global, text: &[char]) -> Result<Expression, AllocError>
    ensures { IfOk result (λ e. regex_of e ≡ literal text.now) }
{
    let mut pieces = Vec::new(alloc);
    for c in text {
        pieces.push(Expression::One(Set::Item(Item::Char(*c))))?;
    }
    let mut branches = Vec::new(alloc);
    branches.push(Expression::Branch(pieces))?;
    Ok(Expression::Choice(branches))
}
