//! Patterns of at most 64 positions, whose sets of positions are words: bit i of a word stands for position i.
//!
//! What a way does is known by what it does at each single position, since a set of positions leads where its members lead.
ghost use Rattle.std.specs.Prelude.{◌≡◌, ◌<◌, ◌≤◌, ◌^◌, List, ◌++◌, ◌∷◌, [], ◌+◌, ◌==◌, ℕ, false, true, not, ◌||◌, bit_and, IfOk, OnOk, length, map, replicate};
ghost use Rattle.std.specs.Str.{chars};
ghost use Rattle.xs_pattern.specs.Marked.{AreBehind, AreWords, IsPlace, all_known, and_marks, inside, lasts, marks_of, or_marks, place_at, set_numbers, tested};
ghost use Rattle.xs_pattern.specs.Regex.{Chars, chars_of};
ghost use Rattle.xs_pattern.specs.Tests.{alike as standing_for};
ghost use Rattle.xs_pattern.specs.Unrolling.{exits, exits_at, having};
ghost use Rattle.xs_pattern.specs.Way.{Way, next, size, way_of};

use crate::characters::{fill_alike, has_char};
use crate::unrolled::Unrolled;
use crate::walk::{Edge, advance, exit_of};
use crate::{Flags, Set};
use std::alloc::{AllocError, Global};

/// The most positions of a pattern that is kept as words.
pub(crate) const MOST: usize = 64;

/// What a pattern does at a place.
#[derive(Clone, Copy, Debug)]
pub(crate) struct Place {
    /// The positions at which it is entered.
    pub(crate) enters: u64,
    /// The positions behind which it may end.
    pub(crate) ends: u64,
    /// Whether it holds between the place and itself.
    pub(crate) passes: bool,
}

/// A pattern by words.
#[derive(Debug, Drop)]
pub(crate) struct Words {
    /// At the start of a text that has characters.
    pub(crate) start: Place,
    /// Between two characters.
    pub(crate) inside: Place,
    /// At the end of a text that has characters.
    pub(crate) end: Place,
    /// In a text without characters.
    pub(crate) alone: Place,
    /// For each position, those that can stand behind it.
    pub(crate) behind: Vec<u64>,
    /// For each position the number of its set.
    pub(crate) numbers: Vec<usize>,
    /// The sets.
    pub(crate) sets: Vec<Set>,
}

/// The word with one more mark.
fn with_mark(word: u64, position: usize, mark: bool) -> u64
    requires within { position < 64 }
    requires small { word < 2 ^ position }
    ensures shown { marks_of (position + 1) result ≡ marks_of position word ++ mark ∷ [] }
    ensures small { result < 2 ^ (position + 1) }
{
    if mark {
        word | (1u64 << position)
    } else {
        word
    }
}

/// The word that stands for these marks.
fn word_of(marks: &[bool]) -> u64
    requires { length marks.now ≤ 64 }
    ensures shown { marks_of (length marks.now) result ≡ marks.now }
    ensures small { result < 2 ^ length marks.now }
{
    let mut word = 0;
    for position in 0..marks.len() {
        word = with_mark(word, position, marks[position]);
    }
    word
}

/// Sets the marks to those of a word.
fn fill_marks(count: usize, word: u64, marks: &mut Vec<bool>) -> Result<(), AllocError>
    requires { count ≤ 64 }
    ensures { OnOk result (marks.new.items ≡ marks_of count word) }
{
    marks.clear();
    for i in 0..count {
        marks.push((word >> i) & 1 == 1)?;
    }
    Ok(())
}

/// The positions behind those of a set, and these.
fn behind_all(enters: u64, set: u64, behind: &[u64]) -> u64
    ensures none { set ≡ 0 → result ≡ enters }
    ensures all { (n : ℕ) (w : Way) → AreBehind n w behind.now
        → marks_of (size w) result ≡ or_marks (marks_of (size w) enters) (next inside (all_known n) w false (marks_of (size w) set)) }
{
    let mut all = enters;
    let mut left = set;
    while left != 0 {
        let position = left.trailing_zeros();
        left &= !(1u64 << position);
        all |= behind.get(position as usize).copied().unwrap_or(0);
    }
    all
}

/// The positions behind the ones of a word, where the part is entered or not.
fn row(
    way: &Unrolled,
    edge: Edge,
    all: &[bool],
    enters: bool,
    count: usize,
    word: u64,
    marks: &mut Vec<bool>,
    behind: &mut Vec<bool>,
) -> Result<u64, AllocError>
    requires few { count ≤ 64 }
    requires count { size (way_of way.now) ≡ count }
    ensures row { IfOk result (λ r. marks_of count r ≡ next edge (tested all.now) (way_of way.now) enters (marks_of count word)) }
    ensures marks { OnOk result (marks.new.items ≡ marks_of count word) }
{
    fill_marks(count, word, marks)?;
    behind.clear();
    advance(way, edge, all, enters, marks, behind)?;
    Ok(word_of(behind))
}

/// Sets `ends` to whether a way may end behind each position.
fn fill_ends(
    way: &Unrolled,
    edge: Edge,
    count: usize,
    marks: &mut Vec<bool>,
    ends: &mut Vec<bool>,
) -> Result<(), AllocError>
    requires few { count ≤ 64 }
    requires count { size (way_of way.now) ≡ count }
    ensures { OnOk result (ends.new.items ≡ lasts edge (way_of way.now)) }
{
    ends.clear();
    for position in 0..count {
        fill_marks(count, 1u64 << position, marks)?;
        ends.push(exit_of(way, edge, marks, 0).ends)?;
    }
    Ok(())
}

/// What a way does at a place.
fn place_of(
    way: &Unrolled,
    start: bool,
    end: bool,
    all: &[bool],
    count: usize,
    marks: &mut Vec<bool>,
    behind: &mut Vec<bool>,
) -> Result<Place, AllocError>
    requires few { count ≤ 64 }
    requires count { size (way_of way.now) ≡ count }
    requires all { all.now ≡ replicate (length all.now) true }
    ensures { IfOk result (IsPlace (length all.now) (way_of way.now) (record { start = start; end = end })) }
{
    let edge = Edge { start, end };
    let enters = row(way, edge, all, true, count, 0, marks, behind)?;
    let passes = exit_of(way, edge, marks, 0).passes;
    if start {
        // No character stands before.
        return Ok(Place {
            enters,
            ends: 0,
            passes,
        });
    }
    fill_ends(way, edge, count, marks, behind)?;
    Ok(Place {
        enters,
        ends: word_of(behind),
        passes,
    })
}

/// Adds for each position those that can stand behind it inside of a text.
fn fill_rows(
    way: &Unrolled,
    all: &[bool],
    count: usize,
    marks: &mut Vec<bool>,
    behind: &mut Vec<bool>,
    rows: &mut Vec<u64>,
) -> Result<(), AllocError>
    requires few { count ≤ 64 }
    requires count { size (way_of way.now) ≡ count }
    requires all { all.now ≡ replicate (length all.now) true }
    ensures { OnOk result (AreBehind (length all.now) (way_of way.now) rows.new.items) }
{
    rows.clear();
    let edge = Edge {
        start: false,
        end: false,
    };
    for position in 0..count {
        rows.push(row(
            way,
            edge,
            all,
            false,
            count,
            1u64 << position,
            marks,
            behind,
        )?)?;
    }
    Ok(())
}

/// Adds a number so many times.
fn add_times(count: usize, set: usize, sets: &mut Vec<usize>) -> Result<(), AllocError>
    ensures { OnOk result (sets.new.items ≡ sets.old.items ++ replicate count set) }
{
    for _ in 0..count {
        sets.push(set)?;
    }
    Ok(())
}

/// Adds for each position the number of its set.
pub(crate) fn add_numbers(part: &Unrolled, numbers: &mut Vec<usize>) -> Result<(), AllocError>
    ensures { OnOk result (numbers.new.items ≡ numbers.old.items ++ set_numbers (way_of part.now)) }
{
    match part {
        Unrolled::Nothing | Unrolled::Never | Unrolled::Start | Unrolled::End => Ok(()),
        Unrolled::One(set) => Ok(numbers.push(*set)?),
        Unrolled::Times(set, count) => add_times(*count, *set, numbers),
        Unrolled::Then(first, second) => {
            add_numbers(first, numbers)?;
            add_numbers(second, numbers)?;
            Ok(())
        }
        Unrolled::Either(first, second) => {
            add_numbers(first, numbers)?;
            add_numbers(second, numbers)?;
            Ok(())
        }
        Unrolled::Plus(body) => add_numbers(body, numbers),
    }
}

/// Adds so many marks.
pub(crate) fn add_known(count: usize, marks: &mut Vec<bool>) -> Result<(), AllocError>
    ensures { OnOk result (marks.new.items ≡ marks.old.items ++ replicate count true) }
{
    for _ in 0..count {
        marks.push(true)?;
    }
    Ok(())
}

impl Words {
    /// The words of a way of at most 64 positions with these sets. `all` has a mark for each set.
    pub(crate) fn new(
        alloc: Global,
        way: &Unrolled,
        numbers: Vec<usize>,
        sets: Vec<Set>,
        all: &[bool],
    ) -> Result<Words, AllocError>
        requires few { length numbers.items ≤ 64 }
        requires numbers { numbers.items ≡ set_numbers (way_of way.now) }
        requires all { all.now ≡ replicate (length sets.items) true }
        ensures { IfOk result (AreWords (map chars_of sets.items) (way_of way.now)) }
    {
        let count = numbers.len();
        let mut marks = Vec::new(alloc);
        let mut ends = Vec::new(alloc);
        let start = place_of(way, true, false, all, count, &mut marks, &mut ends)?;
        let inside = place_of(way, false, false, all, count, &mut marks, &mut ends)?;
        let end = place_of(way, false, true, all, count, &mut marks, &mut ends)?;
        let alone = place_of(way, true, true, all, count, &mut marks, &mut ends)?;
        let mut behind = Vec::new(alloc);
        fill_rows(way, all, count, &mut marks, &mut ends, &mut behind)?;
        Ok(Words {
            start,
            inside,
            end,
            alone,
            behind,
            numbers,
            sets,
        })
    }

    /// What the pattern does at a place that is the start of a text or not, and its end or not.
    fn place(&self, start: bool, end: bool) -> Place
        ensures { result ≡ place_at self.now start end }
    {
        match (start, end) {
            (true, true) => self.alone,
            (true, false) => self.start,
            (false, true) => self.end,
            (false, false) => self.inside,
        }
    }

    /// Whether the set of a position has the character, for which these characters stand.
    fn has(&self, position: usize, flags: Flags, c: char, alike: &[u32]) -> bool
        requires { alike.now ≡ standing_for flags c }
        ensures { result ≡ tested (map (tested (having flags (map chars_of self.now.sets.items) c)) self.now.numbers.items) position }
    {
        match self.numbers.get(position) {
            Some(number) => has_char(&self.sets, *number, flags, c, alike),
            None => false,
        }
    }

    /// Those of the positions whose sets have the character, for which these characters stand.
    fn having(&self, positions: u64, flags: Flags, c: char, alike: &[u32]) -> u64
        requires { alike.now ≡ standing_for flags c }
        ensures { marks_of (length self.now.numbers.items) result ≡ and_marks (marks_of (length self.now.numbers.items) positions)
            (map (tested (having flags (map chars_of self.now.sets.items) c)) self.now.numbers.items) }
    {
        let mut having = 0;
        let mut left = positions;
        while left != 0 {
            let position = left.trailing_zeros();
            left &= !(1u64 << position);
            if self.has(position as usize, flags, c, alike) {
                having |= 1u64 << position;
            }
        }
        having
    }

    /// The positions at which the next character can stand, where the last one stands at those of `set`.
    fn step(
        &self,
        flags: Flags,
        start: bool,
        set: u64,
        c: char,
        alike: &mut Vec<u32>,
    ) -> Result<u64, AllocError>
        requires { start ≡ true → set ≡ 0 }
        ensures { IfOk result (λ r. (ss : List Chars) (w : Way) → AreWords ss w self.now → marks_of (size w) r
            ≡ next (record { start = start; end = false }) (tested (having flags ss c)) w true (marks_of (size w) set)) }
    {
        fill_alike(flags, c, alike)?;
        let all = behind_all(self.place(start, false).enters, set, &self.behind);
        Ok(self.having(all, flags, c, alike))
    }

    /// Whether a part of the text ends there, where the last character stands at the positions of `set`.
    fn leaves(&self, start: bool, end: bool, set: u64) -> bool
        requires { start ≡ true → set ≡ 0 }
        ensures { (ss : List Chars) (w : Way) → AreWords ss w self.now
            → result ≡ exits (record { start = start; end = end }) w (marks_of (size w) set) }
    {
        self.place(start, end).leaves(set)
    }

    /// Whether some part of the text is of the pattern.
    pub(crate) fn is_found(
        &self,
        alloc: Global,
        flags: Flags,
        text: &str,
    ) -> Result<bool, AllocError>
        ensures found { IfOk result (λ b. (ss : List Chars) (w : Way) → AreWords ss w self.now → b ≡ true
            → (j : ℕ) × (j ≤ length (chars text.now)) × (exits_at flags ss (chars text.now) w j ≡ true)) }
        ensures missed { IfOk result (λ b. (ss : List Chars) (w : Way) → AreWords ss w self.now → b ≡ false
            → (j : ℕ) → j ≤ length (chars text.now) → exits_at flags ss (chars text.now) w j ≡ false) }
    {
        let mut alike = Vec::new(alloc);
        let mut set = 0;
        let mut start = true;
        for c in text.chars() {
            if self.leaves(start, false, set) {
                return Ok(true);
            }
            set = self.step(flags, start, set, c, &mut alike)?;
            start = false;
        }
        Ok(self.leaves(start, true, set))
    }
}

impl Place {
    /// Whether a part of the text ends there, where the last character stands at these positions.
    pub(crate) fn leaves(self, set: u64) -> bool
        ensures { result ≡ (not (bit_and set self.ends == 0) || self.passes) }
    {
        set & self.ends != 0 || self.passes
    }
}
