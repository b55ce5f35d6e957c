//! The characters of a text, and which of them a set has.
ghost use Rattle.std.specs.Prelude.{◌≡◌, ◌<◌, ◌++◌, IfOk, OnOk, map, slice_index_or, false};
ghost use Rattle.std.specs.Str.{chars};
ghost use Rattle.xs_pattern.specs.Characters.{has_kind};
ghost use Rattle.xs_pattern.specs.Regex.{chars_of, members_of, regex_of, regexes_of};
ghost use Rattle.xs_pattern.specs.Tests.{alike as standing_for, beyond_ascii, item_has, listed, other_case, some_has, member_has, class_has, set_has, some_within, others, partners};
ghost use Rattle.xs_pattern.specs.Unrolling.{all_sets, having, kept, sets};

use crate::{CharGroup, Expression, Flags, Item, Kind, Set};
use std::alloc::{AllocError, Global};
use unicode::case::fold_pairs;
use unicode::properties::{GeneralCategory, GeneralCategoryGroup};

/// The kelvin sign, whose simple folding is `k`.
const KELVIN_SIGN: u32 = 0x212a;

/// The long s, whose simple folding is `s`.
const LONG_S: u32 = 0x17f;

/// The characters of a text.
pub(crate) fn characters(alloc: Global, text: &str) -> Result<Vec<char>, AllocError>
    ensures { IfOk result (λ v. v.items ≡ chars text.now) }
{
    text.chars().collect(alloc)
}

impl Kind {
    /// Whether the character is of the kind.
    fn has(self, c: char) -> bool
        ensures { result ≡ has_kind self c }
    {
        let category = GeneralCategory::for_char(c);
        match self {
            Kind::Digit => category.number() == GeneralCategory::DecimalNumber.number(),
            Kind::Space => matches!(c, '\t' | '\n' | '\r' | ' '),
            Kind::Word => {
                !(GeneralCategoryGroup::Punctuation.contains(category)
                    || GeneralCategoryGroup::Separator.contains(category)
                    || GeneralCategoryGroup::Other.contains(category))
            }
            Kind::Category(wanted) => category.number() == wanted.number(),
            Kind::Group(group) => group.contains(category),
        }
    }
}

impl Item {
    /// Whether the item has the character, for which these characters stand.
    fn has(self, c: char, alike: &[u32]) -> bool
        ensures { result ≡ item_has self c alike.now }
    {
        match self {
            Item::Char(only) => some_within(u32::from(only), u32::from(only), alike),
            Item::Range(first, last) => some_within(u32::from(first), u32::from(last), alike),
            Item::Kind(kind) => kind.has(c),
            Item::Not(kind) => !kind.has(c),
        }
    }
}

/// Whether some of the characters is between the two.
fn some_within(first: u32, last: u32, alike: &[u32]) -> bool
    ensures { result ≡ some_within first last alike.now }
{
    alike.iter().any(|c| first <= *c && *c <= last)
}

/// Whether some item has the character.
fn some_has(items: &[Item], c: char, alike: &[u32]) -> bool
    ensures { result ≡ some_has items.now c alike.now }
{
    items.iter().any(|item| item.has(c, alike))
}

impl CharGroup {
    /// Whether the group has the character.
    fn has(&self, c: char, alike: &[u32]) -> bool
        ensures { result ≡ member_has (members_of self.now) c alike.now }
    {
        if self.negated {
            !some_has(&self.items, c, alike)
        } else {
            some_has(&self.items, c, alike)
        }
    }

    fn copy(&self, alloc: Global) -> Result<CharGroup, AllocError>
        ensures { IfOk result (λ g. members_of g ≡ members_of self.now) }
    {
        Ok(CharGroup {
            negated: self.negated,
            items: self.items.to_vec(alloc)?,
        })
    }
}

/// A copy of each group.
fn copies(alloc: Global, groups: &[CharGroup]) -> Result<Vec<CharGroup>, AllocError>
    ensures { IfOk result (λ v. map members_of v.items ≡ map members_of groups.now) }
{
    let mut all = Vec::with_capacity(alloc, groups.len())?;
    for group in groups {
        all.push(group.copy(alloc)?)?;
    }
    Ok(all)
}

/// Whether the class of these groups has the character.
fn class_has(groups: &[CharGroup], c: char, alike: &[u32]) -> bool
    ensures { result ≡ class_has (map members_of groups.now) c alike.now }
{
    match groups {
        [first, rest @ ..] => first.has(c, alike) && !class_has(rest, c, alike),
        [] => false,
    }
}

impl Set {
    /// Whether the set has the character.
    fn has(&self, flags: Flags, c: char, alike: &[u32]) -> bool
        ensures { result ≡ set_has flags (chars_of self.now) c alike.now }
    {
        match self {
            Set::Dot => flags.dot_all || !(c == '\n' || c == '\r'),
            Set::Item(item) => item.has(c, alike),
            Set::Class(groups) => class_has(groups, c, alike),
        }
    }

    fn copy(&self, alloc: Global) -> Result<Set, AllocError>
        ensures { IfOk result (λ s. chars_of s ≡ chars_of self.now) }
    {
        match self {
            Set::Dot => Ok(Set::Dot),
            Set::Item(item) => Ok(Set::Item(*item)),
            Set::Class(groups) => Ok(Set::Class(copies(alloc, groups)?)),
        }
    }
}

/// Whether the set with this number has the character, for which these characters stand.
pub(crate) fn has_char(sets: &[Set], number: usize, flags: Flags, c: char, alike: &[u32]) -> bool
    requires { alike.now ≡ standing_for flags c }
    ensures { result ≡ slice_index_or (having flags (map chars_of sets.now) c) number false }
{
    match sets.get(number) {
        Some(set) => set.has(flags, c, alike),
        None => false,
    }
}

/// Adds the second character of each pair whose first is this one.
fn add_partners(code: u32, pairs: &[(u32, u32)], alike: &mut Vec<u32>) -> Result<(), AllocError>
    ensures { OnOk result (alike.new.items ≡ alike.old.items ++ partners code pairs.now) }
{
    for pair in pairs {
        if pair.0 == code {
            alike.push(pair.1)?;
        }
    }
    Ok(())
}

/// The letter of ASCII that differs from this one in its case alone.
fn other_case(c: char) -> Option<u32>
    ensures { result ≡ other_case c }
{
    let code = u32::from(c);
    if 'A' <= c && c <= 'Z' {
        return Some(code + 32);
    }
    if 'a' <= c && c <= 'z' {
        return Some(code - 32);
    }
    None
}

/// The character behind ASCII that has the simple folding of this one of ASCII.
fn beyond_ascii(c: char) -> Option<u32>
    ensures { result ≡ beyond_ascii c }
{
    if c == 'K' || c == 'k' {
        return Some(KELVIN_SIGN);
    }
    if c == 'S' || c == 's' {
        return Some(LONG_S);
    }
    None
}

/// Adds what there is.
fn add_some(code: Option<u32>, alike: &mut Vec<u32>) -> Result<(), AllocError>
    ensures { OnOk result (alike.new.items ≡ alike.old.items ++ listed code) }
{
    if let Some(code) = code {
        alike.push(code)?;
    }
    Ok(())
}

/// Adds the other characters with the simple folding of one of ASCII.
fn add_ascii_others(c: char, alike: &mut Vec<u32>) -> Result<(), AllocError>
    requires { c < 128 }
    ensures { OnOk result (alike.new.items ≡ alike.old.items ++ others c) }
{
    add_some(other_case(c), alike)?;
    add_some(beyond_ascii(c), alike)
}

/// Sets `alike` to what stands for the character: itself, and where case is ignored those with its simple folding.
pub(crate) fn fill_alike(flags: Flags, c: char, alike: &mut Vec<u32>) -> Result<(), AllocError>
    ensures { OnOk result (alike.new.items ≡ standing_for flags c) }
{
    alike.clear();
    alike.push(u32::from(c))?;
    if !flags.ignore_case {
        return Ok(());
    }
    if c.is_ascii() {
        return add_ascii_others(c, alike);
    }
    add_partners(u32::from(c), fold_pairs(), alike)
}

/// Sets `answers` to whether each set has the character, and `alike` to what stands for it.
pub(crate) fn fill_having(
    sets: &[Set],
    flags: Flags,
    c: char,
    alike: &mut Vec<u32>,
    answers: &mut Vec<bool>,
) -> Result<(), AllocError>
    ensures { OnOk result (answers.new.items ≡ having flags (map chars_of sets.now) c) }
{
    fill_alike(flags, c, alike)?;
    answers.clear();
    for set in sets {
        answers.push(set.has(flags, c, alike))?;
    }
    Ok(())
}

/// Adds a copy of each set of the expression.
#[cycle(copied)]
pub(crate) fn add_sets(e: &Expression, alloc: Global, all: &mut Vec<Set>) -> Result<(), AllocError>
    ensures { OnOk result (map chars_of all.new.items ≡ map chars_of all.old.items ++ sets (regex_of e.now)) }
{
    match e {
        Expression::Start | Expression::End => Ok(()),
        Expression::One(set) => Ok(all.push(set.copy(alloc)?)?),
        Expression::Group(body) => add_sets(body, alloc, all),
        Expression::Branch(parts) | Expression::Choice(parts) => add_all_sets(parts, alloc, all),
        Expression::Repeat(_, most, body) => add_repeated_sets(*most, body, alloc, all),
    }
}

/// What is repeated 0 times has no sets.
#[cycle(copied)]
fn add_repeated_sets(
    most: Option<u32>,
    body: &Expression,
    alloc: Global,
    all: &mut Vec<Set>,
) -> Result<(), AllocError>
    ensures { OnOk result (map chars_of all.new.items ≡ map chars_of all.old.items ++ kept most (sets (regex_of body.now))) }
{
    if let Some(0) = most {
        return Ok(());
    }
    add_sets(body, alloc, all)
}

#[cycle(copied)]
fn add_all_sets(parts: &[Expression], alloc: Global, all: &mut Vec<Set>) -> Result<(), AllocError>
    ensures { OnOk result (map chars_of all.new.items ≡ map chars_of all.old.items ++ all_sets (regexes_of parts.now)) }
{
    for part in parts {
        add_sets(part, alloc, all)?;
    }
    Ok(())
}
