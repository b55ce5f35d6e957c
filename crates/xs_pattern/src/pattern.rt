//! Patterns, and whether they are found in a text.
ghost use Rattle.std.specs.Prelude.{◌≡◌, ◌↔◌, ℕ, ◌≤◌, ◌<◌, true, false, IsTrue, ◌⊎◌, IfOk, IfSome, IsErrOf, IsNone, MatchResult, OnOk, length, map, slice_index_or};
ghost use Rattle.xs_pattern.specs.Flagged.{AreFlags, IsSpelledUnder, SpellsUnder, flags_named};
ghost use Rattle.std.specs.Str.{chars};
ghost use Rattle.xs_pattern.specs.Language.{IsFound};
ghost use Rattle.xs_pattern.specs.Limits.{IsLarge, positions};
ghost use Rattle.xs_pattern.specs.Marked.{AreKept};
ghost use Rattle.xs_pattern.specs.Regex.{Regex, chars_of, regex_of};
ghost use Rattle.xs_pattern.specs.Unrolling.{exits, exits_at, unroll};
ghost use Rattle.xs_pattern.specs.Way.{next, size, way_of};

use crate::characters::{add_sets, fill_having};
use crate::flagged::{are_flags, flags_named};
use crate::limits::fitting_positions;
use crate::reader::read_expression;
use crate::unrolled::{Unrolled, unroll};
use crate::walk::{Edge, add_blank, advance, exit_of};
use crate::words::{MOST, Words, add_known, add_numbers};
use crate::{Expression, Flags, PatternError, Set};
use std::alloc::{AllocError, Global};
use std::mem;

/// The most positions of a pattern that is kept by words, anchors among them.
const FEW: u32 = 64;

/// A pattern with its flags (XPath Functions and Operators 3.1, sections 5.6.1 and 5.6.2).
#[derive(Debug, Drop)]
pub struct Pattern {
    expression: Expression,
    flags: Flags,
    // A pattern of few positions by words, which are made once for all texts.
    words: Option<Words>,
    ghost small: { positions (regex_of expression) ≤ 4096 },
    ghost kept: { AreKept (regex_of expression) words },
}

impl Pattern {
    ghost use Rattle.xs_pattern.specs.Ends.{Ends};
    ghost use Rattle.xs_pattern.specs.Patterns.{flags_of, regex};

    /// The pattern of a regular expression. None exactly where it has over 4,096 positions.
    ///
    /// Each character, set of characters and anchor is a position, as often as it stands when repetitions are written out.
    pub fn new(expression: Expression, flags: Flags) -> Option<Pattern>
        ensures some { IfSome result (λ p. (regex p ≡ regex_of expression) × (flags_of p ≡ flags)) }
        ensures none { IsNone result ↔ (4096 < positions (regex_of expression)) }
    {
        if fitting_positions(&expression).is_some() {
            Some(Pattern {
                expression,
                flags,
                words: None,
            })
        } else {
            None
        }
    }

    /// The pattern that the text spells under these flags (XML Schema Part 2, version 1.1, section G; XPath Functions and
    /// Operators 3.1, sections 5.6.1 and 5.6.2), without back references, block escapes, `\i` and `\c`.
    ///
    /// Of the flags, `s` lets the dot have all characters, `i` ignores case, and `q` takes the text as it stands. Fails with
    /// `Flag` where there is another one; then with `Syntax` where no pattern is spelled so; then with `Large` where a
    /// quantifier has a number over 4,096, groups and classes nest over 64 deep, or the pattern has over 4,096 positions.
    pub fn read(alloc: Global, text: &str, flags: &str) -> Result<Pattern, PatternError>
        ensures spelled { IfOk result (λ p. SpellsUnder (chars flags.now) (regex p) (chars text.now)) }
        ensures flags { IfOk result (λ p. flags_of p ≡ flags_named (chars flags.now)) }
        ensures small { IfOk result (λ p. ¬ IsLarge (regex p)) }

        ensures flag { IsErrOf result PatternError.Flag ↔ (¬ AreFlags (chars flags.now)) }
        ensures syntax { IsErrOf result PatternError.Syntax
            → AreFlags (chars flags.now) × (¬ IsSpelledUnder (chars flags.now) (chars text.now)) }
        ensures large { IsErrOf result PatternError.Large
            → AreFlags (chars flags.now) × ((e : Regex) × SpellsUnder (chars flags.now) e (chars text.now) × IsLarge e) }

        ensures unspelled { AreFlags (chars flags.now) → (¬ IsSpelledUnder (chars flags.now) (chars text.now))
            → IsErrOf result PatternError.Syntax ⊎ IsErrOf result PatternError.Memory }
        ensures too_large { AreFlags (chars flags.now) → (e : Regex) → SpellsUnder (chars flags.now) e (chars text.now) → IsLarge e
            → IsErrOf result PatternError.Large ⊎ IsErrOf result PatternError.Memory }
        ensures read { AreFlags (chars flags.now) → (e : Regex) → SpellsUnder (chars flags.now) e (chars text.now) → (¬ IsLarge e)
            → MatchResult result (λ p. regex p ≡ e) (λ x. x ≡ PatternError.Memory) }
    {
        if !are_flags(flags) {
            return Err(PatternError::Flag);
        }
        Pattern::read_flagged(alloc, text, flags)
    }

    /// The pattern that the text spells under these flags.
    fn read_flagged(alloc: Global, text: &str, flags: &str) -> Result<Pattern, PatternError>
        requires { AreFlags (chars flags.now) }
        ensures { Ends (chars flags.now) (chars text.now) result }
    {
        let expression = read_expression(alloc, text, flags)?;
        match Pattern::new(expression, flags_named(flags)) {
            Some(pattern) => Ok(pattern.keeping(alloc)?),
            None => Err(PatternError::Large),
        }
    }

    /// The pattern itself, which is kept by words where it has few positions.
    fn keeping(self, alloc: Global) -> Result<Pattern, AllocError>
        ensures { IfOk result (λ p. (regex p ≡ regex self) × (flags_of p ≡ flags_of self)) }
    {
        let Pattern {
            expression,
            flags,
            words: _,
        } = self;
        let words = words_if_few(alloc, &expression)?;
        Ok(Pattern {
            expression,
            flags,
            words,
        })
    }

    /// Whether some part of the text is in the language of the pattern (section 5.6.3).
    ///
    /// The text is read once, whatever the pattern is. Where the pattern has at most 64 positions, a character takes time in
    /// proportion to the positions at which the one before it can stand, and to the sets of those behind them. Else a
    /// character takes time in proportion to the positions, times how deep repetitions without end nest, and to the sets of
    /// characters. Where case is ignored, a character beyond ASCII also takes a walk over the table of foldings.
    pub fn found(&self, alloc: Global, text: &str) -> Result<bool, AllocError>
        ensures { IfOk result (λ b. IsTrue b ↔ IsFound (flags_of self.now) (chars text.now) (regex self.now)) }
    {
        match &self.words {
            Some(words) => words.is_found(alloc, self.flags, text),
            None => self.found_anew(alloc, text),
        }
    }

    /// Whether the pattern, which is unrolled for this text, is found in it.
    fn found_anew(&self, alloc: Global, text: &str) -> Result<bool, AllocError>
        ensures { IfOk result (λ b. IsTrue b ↔ IsFound (flags_of self.now) (chars text.now) (regex self.now)) }
    {
        let mut next = 0;
        let way = unroll(alloc, &self.expression, &mut next)?;
        let mut sets = Vec::new(alloc);
        add_sets(&self.expression, alloc, &mut sets)?;
        is_found(alloc, &sets, self.flags, &way, text)
    }
}

/// An expression that has few positions by words.
fn words_if_few(alloc: Global, e: &Expression) -> Result<Option<Words>, AllocError>
    ensures { IfOk result (λ o. AreKept (regex_of e.now) o) }
{
    let Some(positions) = fitting_positions(e) else {
        return Ok(None);
    };
    if positions > FEW {
        return Ok(None);
    }
    let mut number = 0;
    let way = unroll(alloc, e, &mut number)?;
    let mut numbers = Vec::new(alloc);
    add_numbers(&way, &mut numbers)?;
    if numbers.len() > MOST {
        return Ok(None);
    }
    let mut sets = Vec::new(alloc);
    add_sets(e, alloc, &mut sets)?;
    let mut all = Vec::new(alloc);
    add_known(sets.len(), &mut all)?;
    Ok(Some(Words::new(alloc, &way, numbers, sets, &all)?))
}

/// Reads a character at a place, of which it is known which sets have it, and answers whether a part of the text ends
/// there that is of the pattern. What is in `behind` does not matter.
fn read_char(
    way: &Unrolled,
    edge: Edge,
    having: &[bool],
    marks: &mut Vec<bool>,
    behind: &mut Vec<bool>,
) -> Result<bool, AllocError>
    requires { size (way_of way.now) ≤ length marks.old.items }
    ensures exits { IfOk result (λ b. b ≡ exits edge (way_of way.now) marks.old.items) }
    ensures marks { OnOk result (marks.new.items
        ≡ next edge (λ k. slice_index_or having.now k false) (way_of way.now) true marks.old.items) }
{
    behind.clear();
    let exit = advance(way, edge, having, true, marks, behind)?;
    mem::swap(marks, behind);
    Ok(exit.leaves())
}

/// Whether some part of the text is of the pattern, which is given unrolled, with its sets.
pub(crate) fn is_found(
    alloc: Global,
    sets: &[Set],
    flags: Flags,
    way: &Unrolled,
    text: &str,
) -> Result<bool, AllocError>
    ensures found { IfOk result (λ b. b ≡ true → (j : ℕ) × (j ≤ length (chars text.now))
        × (exits_at flags (map chars_of sets.now) (chars text.now) (way_of way.now) j ≡ true)) }
    ensures missed { IfOk result (λ b. b ≡ false → (j : ℕ) → j ≤ length (chars text.now)
        → exits_at flags (map chars_of sets.now) (chars text.now) (way_of way.now) j ≡ false) }
{
    let mut marks = Vec::new(alloc);
    add_blank(way, &mut marks)?;
    let mut behind = Vec::with_capacity(alloc, marks.len())?;
    let mut having = Vec::with_capacity(alloc, marks.len())?;
    let mut alike = Vec::new(alloc);
    let mut start = true;
    for c in text.chars() {
        fill_having(sets, flags, c, &mut alike, &mut having)?;
        let edge = Edge { start, end: false };
        if read_char(way, edge, &having, &mut marks, &mut behind)? {
            return Ok(true);
        }
        start = false;
    }
    let edge = Edge { start, end: true };
    Ok(exit_of(way, edge, &marks, 0).leaves())
}
