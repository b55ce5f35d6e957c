//! Patterns as trees.
use unicode::properties::{GeneralCategory, GeneralCategoryGroup};

/// What flags ask for (XPath Functions and Operators 3.1, section 5.6.2).
#[derive(Clone, Copy, Debug, PartialEq, Eq)]
pub struct Flags {
    /// Flag `s`: `.` is any character.
    pub dot_all: bool,
    /// Flag `i`: letters are compared without their case.
    pub ignore_case: bool,
}

/// A set of characters with an escape of its own (XML Schema Part 2, version 1.1, section G.4.2).
#[derive(Clone, Copy, Debug, PartialEq, Eq)]
pub enum Kind {
    /// The escape `\d`: decimal digits.
    Digit,
    /// The escape `\s`: space, tab, line feed, carriage return.
    Space,
    /// The escape `\w`: all but punctuation, separators and others.
    Word,
    /// A category with two letters, as in `\p{Lu}`.
    Category(GeneralCategory),
    /// A group of categories, as in `\p{L}`.
    Group(GeneralCategoryGroup),
}

/// A member of a character class (XML Schema Part 2, version 1.1, section G.4.1).
#[derive(Clone, Copy, Debug, PartialEq, Eq)]
pub enum Item {
    /// One character.
    Char(char),
    /// The characters from the first to the last.
    Range(char, char),
    /// The characters of a kind.
    Kind(Kind),
    /// The characters that are not of a kind.
    Not(Kind),
}

/// Items, or all characters but theirs (XML Schema Part 2, version 1.1, section G.4.1).
#[derive(Debug, Drop)]
pub struct CharGroup {
    /// Whether `^` stands before the items.
    pub negated: bool,
    /// The items.
    pub items: Vec<Item>,
}

/// What matches one character (XML Schema Part 2, version 1.1, section G.4).
#[derive(Debug, Drop)]
pub enum Set {
    /// The dot.
    Dot,
    /// A character or an escape that stands alone.
    Item(Item),
    /// A character class: from each group the characters of the next ones are taken away.
    Class(Vec<CharGroup>),
}

/// A regular expression (XML Schema Part 2, version 1.1, sections G.1 and G.2).
#[derive(Debug, Drop)]
pub enum Expression {
    /// The anchor `^`.
    Start,
    /// The anchor `$`.
    End,
    /// One character.
    One(Set),
    /// An expression in round brackets.
    Group(Box<Expression>),
    /// One after the other.
    Branch(Vec<Expression>),
    /// One of these.
    Choice(Vec<Expression>),
    /// A piece with a quantifier: the least and the greatest number of repetitions.
    Repeat(u32, Option<u32>, Box<Expression>),
}
