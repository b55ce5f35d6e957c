//! A text is read once, with the set of positions that the last character can have.
//!
//! Each set of characters in an unrolled pattern is a position. A position is marked where the last character that was
//! read can stand there, so the time for a character is that of one walk over the pattern, however it is built.
ghost use Rattle.std.specs.Prelude.{◌≡◌, ◌+◌, ◌++◌, ◌≤◌, ◌||◌, ◌&&◌, false, IfOk, OnOk, length, drop, replicate, slice_index_or, vec_len};
ghost use Rattle.std.specs.Prelude.{ℕ};
ghost use Rattle.xs_pattern.specs.Way.{way_of, size, passes, ends, next, next_times, times_way};
ghost use Rattle.xs_pattern.specs.declared.walk.Edge.{Edge as At};

use crate::unrolled::Unrolled;
use std::alloc::AllocError;

/// Whether a place of a text is its start, and whether it is its end.
#[derive(Clone, Copy, Debug)]
pub(crate) struct Edge {
    pub(crate) start: bool,
    pub(crate) end: bool,
}

/// What a part of a pattern does at a place.
#[derive(Clone, Copy, Debug)]
pub(crate) struct Exit {
    /// It may end there, behind a character.
    pub(crate) ends: bool,
    /// It holds between the place and itself.
    pub(crate) passes: bool,
    /// The position behind its own.
    pub(crate) position: usize,
}

impl Exit {
    /// Whether the part behind this one is entered, where this one is entered or not.
    fn hands_on(self, enters: bool) -> bool
        ensures { result ≡ (self.ends || (enters && self.passes)) }
    {
        self.ends || enters && self.passes
    }

    /// Whether this part is entered once more, where its repetition is entered or not.
    fn reenters(self, enters: bool) -> bool
        ensures { result ≡ (enters || self.ends) }
    {
        enters || self.ends
    }

    /// Whether a part of the text ends there, whether this part is entered there or before.
    pub(crate) fn leaves(self) -> bool
        ensures { result ≡ (self.ends || self.passes) }
    {
        self.ends || self.passes
    }

    /// What this part and then another one do.
    fn then(self, second: Exit) -> Exit
        ensures { result ≡ record {
          ends = second.ends || (self.ends && second.passes);
          passes = self.passes && second.passes;
          position = second.position;
        } }
    {
        Exit {
            ends: second.ends || self.ends && second.passes,
            passes: self.passes && second.passes,
            position: second.position,
        }
    }

    /// What this part or another one does.
    fn or(self, second: Exit) -> Exit
        ensures { result ≡ record {
          ends = self.ends || second.ends;
          passes = self.passes || second.passes;
          position = second.position;
        } }
    {
        Exit {
            ends: self.ends || second.ends,
            passes: self.passes || second.passes,
            position: second.position,
        }
    }
}

/// What a part without positions does.
fn still(passes: bool, position: usize) -> Exit
    ensures { result ≡ record { ends = false; passes = passes; position = position } }
{
    Exit {
        ends: false,
        passes,
        position,
    }
}

/// What so many characters of one set do at a place, whose positions begin at `from`.
fn exit_of_times(count: usize, marks: &[bool], from: usize) -> Exit
    requires { from + count ≤ length marks.now }
    ensures { (edge : At) (set : ℕ) → result ≡ record {
      ends = ends edge (times_way set count) (drop from marks.now);
      passes = passes edge (times_way set count);
      position = from + count;
    } }
{
    if count == 0 {
        return still(true, from);
    }
    Exit {
        ends: marks[from + count - 1],
        passes: false,
        position: from + count,
    }
}

/// What the part whose positions begin at `from` does at a place.
pub(crate) fn exit_of(part: &Unrolled, edge: Edge, marks: &[bool], from: usize) -> Exit
    requires { from + size (way_of part.now) ≤ length marks.now }
    ensures ends { result.ends ≡ ends edge (way_of part.now) (drop from marks.now) }
    ensures passes { result.passes ≡ passes edge (way_of part.now) }
    ensures position { result.position ≡ from + size (way_of part.now) }
{
    match part {
        Unrolled::Nothing => still(true, from),
        Unrolled::Never => still(false, from),
        Unrolled::Start => still(edge.start, from),
        Unrolled::End => still(edge.end, from),
        Unrolled::One(_) => Exit {
            ends: marks[from],
            passes: false,
            position: from + 1,
        },
        Unrolled::Times(_, count) => exit_of_times(*count, marks, from),
        Unrolled::Then(first, second) => {
            let first = exit_of(first, edge, marks, from);
            let second = exit_of(second, edge, marks, first.position);
            first.then(second)
        }
        Unrolled::Either(first, second) => {
            let first = exit_of(first, edge, marks, from);
            let second = exit_of(second, edge, marks, first.position);
            first.or(second)
        }
        Unrolled::Plus(body) => exit_of(body, edge, marks, from),
    }
}

/// Adds the marks of so many characters of one set, of which it is known whether it has the next character.
fn advance_times(
    count: usize,
    has: bool,
    enters: bool,
    marks: &[bool],
    behind: &mut Vec<bool>,
) -> Result<(), AllocError>
    requires { vec_len behind.old + count ≤ length marks.now }
    ensures marks { OnOk result (behind.new.items ≡ behind.old.items ++ next_times has count enters (drop (vec_len behind.old) marks.now)) }
    ensures counted { OnOk result (vec_len behind.new ≡ vec_len behind.old + count) }
{
    let from = behind.len();
    let mut entered = enters;
    for i in 0..count {
        behind.push(entered && has)?;
        entered = marks[from + i];
    }
    Ok(())
}

/// Reads the next character, of which it is known which sets have it: the marks behind it are added to `behind`.
///
/// The part is entered at the place before the character, or not. The answer is what it does at that place.
pub(crate) fn advance(
    part: &Unrolled,
    edge: Edge,
    having: &[bool],
    enters: bool,
    marks: &[bool],
    behind: &mut Vec<bool>,
) -> Result<Exit, AllocError>
    requires { vec_len behind.old + size (way_of part.now) ≤ length marks.now }
    ensures marks { OnOk result (behind.new.items ≡ behind.old.items
        ++ next edge (λ k. slice_index_or having.now k false) (way_of part.now) enters (drop (vec_len behind.old) marks.now)) }
    ensures counted { OnOk result (vec_len behind.new ≡ vec_len behind.old + size (way_of part.now)) }
    ensures ends { IfOk result (λ x. x.ends ≡ ends edge (way_of part.now) (drop (vec_len behind.old) marks.now)) }
    ensures passes { IfOk result (λ x. x.passes ≡ passes edge (way_of part.now)) }
{
    let from = behind.len();
    match part {
        Unrolled::Nothing => Ok(still(true, from)),
        Unrolled::Never => Ok(still(false, from)),
        Unrolled::Start => Ok(still(edge.start, from)),
        Unrolled::End => Ok(still(edge.end, from)),
        Unrolled::One(set) => {
            let has = having.get(*set).copied().unwrap_or(false);
            behind.push(enters && has)?;
            Ok(exit_of(part, edge, marks, from))
        }
        Unrolled::Times(set, count) => {
            let has = having.get(*set).copied().unwrap_or(false);
            advance_times(*count, has, enters, marks, behind)?;
            Ok(exit_of_times(*count, marks, from))
        }
        Unrolled::Then(first, second) => {
            let first = advance(first, edge, having, enters, marks, behind)?;
            let second = advance(second, edge, having, first.hands_on(enters), marks, behind)?;
            Ok(first.then(second))
        }
        Unrolled::Either(first, second) => {
            let first = advance(first, edge, having, enters, marks, behind)?;
            let second = advance(second, edge, having, enters, marks, behind)?;
            Ok(first.or(second))
        }
        Unrolled::Plus(body) => {
            let again = exit_of(body, edge, marks, from).reenters(enters);
            advance(body, edge, having, again, marks, behind)
        }
    }
}

/// Adds so many marks that are not set.
fn add_blanks(count: usize, marks: &mut Vec<bool>) -> Result<(), AllocError>
    ensures { OnOk result (marks.new.items ≡ marks.old.items ++ replicate count false) }
{
    for _ in 0..count {
        marks.push(false)?;
    }
    Ok(())
}

/// Adds a mark that is not set for each position.
pub(crate) fn add_blank(part: &Unrolled, marks: &mut Vec<bool>) -> Result<(), AllocError>
    ensures { OnOk result (marks.new.items ≡ marks.old.items ++ replicate (size (way_of part.now)) false) }
{
    match part {
        Unrolled::Nothing | Unrolled::Never | Unrolled::Start | Unrolled::End => Ok(()),
        Unrolled::One(_) => Ok(marks.push(false)?),
        Unrolled::Times(_, count) => add_blanks(*count, marks),
        Unrolled::Then(first, second) => {
            add_blank(first, marks)?;
            add_blank(second, marks)?;
            Ok(())
        }
        Unrolled::Either(first, second) => {
            add_blank(first, marks)?;
            add_blank(second, marks)?;
            Ok(())
        }
        Unrolled::Plus(body) => add_blank(body, marks),
    }
}
