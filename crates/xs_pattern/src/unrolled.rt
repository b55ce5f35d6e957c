//! Patterns with each repetition written out.
ghost use Rattle.std.specs.Prelude.{◌≡◌, ◌<◌, ◌+◌, ◌^◌, IfOk, OnOk, length};
ghost use Rattle.xs_pattern.specs.Regex.{regex_of, regexes_of};
ghost use Rattle.xs_pattern.specs.Unrolling.{
  is_nothing,
  is_never,
  then_way,
  either_way,
  plus_way,
  copies,
  at_most,
  without_end,
  repeated,
  kept,
  sets,
  all_sets,
  unroll,
  unroll_all,
  unroll_some,
};
ghost use Rattle.xs_pattern.specs.Way as Ways;
ghost use Rattle.xs_pattern.specs.Way.{way_of};

use crate::Expression;
use std::alloc::{AllocError, Global};

/// A regular expression whose only repetition is `one or more`, with a number for each set of characters.
#[derive(Debug, Drop)]
pub(crate) enum Unrolled {
    /// No character.
    Nothing,
    /// What holds nowhere.
    Never,
    /// The start of the text.
    Start,
    /// The end of the text.
    End,
    /// A character of the set with this number.
    One(usize),
    /// A character of the set with this number, so many times.
    Times(usize, usize),
    /// One after the other.
    Then(Box<Unrolled>, Box<Unrolled>),
    /// One of the two.
    Either(Box<Unrolled>, Box<Unrolled>),
    /// One or more times.
    Plus(Box<Unrolled>),
}

impl Unrolled {
    fn is_nothing(&self) -> bool
        ensures { result ≡ is_nothing (way_of self.now) }
    {
        match self {
            Unrolled::Nothing => true,
            Unrolled::Times(_, count) => *count == 0,
            Unrolled::Never | Unrolled::Start | Unrolled::End | Unrolled::One(_) => false,
            Unrolled::Then(_, _) | Unrolled::Either(_, _) | Unrolled::Plus(_) => false,
        }
    }

    fn is_never(&self) -> bool
        ensures { result ≡ is_never (way_of self.now) }
    {
        match self {
            Unrolled::Never => true,
            Unrolled::Times(_, _) => false,
            Unrolled::Nothing | Unrolled::Start | Unrolled::End | Unrolled::One(_) => false,
            Unrolled::Then(_, _) | Unrolled::Either(_, _) | Unrolled::Plus(_) => false,
        }
    }

    /// One after the other, without what stands for no character.
    fn then(alloc: Global, first: Unrolled, second: Unrolled) -> Result<Unrolled, AllocError>
        ensures { IfOk result (λ w. way_of w ≡ then_way (way_of first) (way_of second)) }
    {
        if first.is_nothing() {
            return Ok(second);
        }
        if second.is_nothing() {
            return Ok(first);
        }
        Ok(Unrolled::Then(Box::new(alloc, first)?, Box::new(alloc, second)?))
    }

    /// One of the two, without what holds nowhere.
    fn either(alloc: Global, first: Unrolled, second: Unrolled) -> Result<Unrolled, AllocError>
        ensures { IfOk result (λ w. way_of w ≡ either_way (way_of first) (way_of second)) }
    {
        if first.is_never() {
            return Ok(second);
        }
        if first.is_nothing() && second.is_nothing() {
            return Ok(first);
        }
        Ok(Unrolled::Either(Box::new(alloc, first)?, Box::new(alloc, second)?))
    }

    /// One or more times.
    fn plus(alloc: Global, body: Unrolled) -> Result<Unrolled, AllocError>
        ensures { IfOk result (λ w. way_of w ≡ plus_way (way_of body)) }
    {
        if body.is_nothing() {
            return Ok(body);
        }
        Ok(Unrolled::Plus(Box::new(alloc, body)?))
    }

    /// A copy.
    fn copy(&self, alloc: Global) -> Result<Unrolled, AllocError>
        ensures { IfOk result (λ w. way_of w ≡ way_of self.now) }
    {
        Ok(match self {
            Unrolled::Nothing => Unrolled::Nothing,
            Unrolled::Never => Unrolled::Never,
            Unrolled::Start => Unrolled::Start,
            Unrolled::End => Unrolled::End,
            Unrolled::One(set) => Unrolled::One(*set),
            Unrolled::Times(set, count) => Unrolled::Times(*set, *count),
            Unrolled::Then(first, second) => {
                let first = first.copy(alloc)?;
                let second = second.copy(alloc)?;
                Unrolled::Then(Box::new(alloc, first)?, Box::new(alloc, second)?)
            }
            Unrolled::Either(first, second) => {
                let first = first.copy(alloc)?;
                let second = second.copy(alloc)?;
                Unrolled::Either(Box::new(alloc, first)?, Box::new(alloc, second)?)
            }
            Unrolled::Plus(body) => {
                let body = body.copy(alloc)?;
                Unrolled::Plus(Box::new(alloc, body)?)
            }
        })
    }

    /// So many copies.
    fn copies(&self, alloc: Global, number: u32) -> Result<Unrolled, AllocError>
        ensures { IfOk result (λ w. way_of w ≡ copies number (way_of self.now)) }
    {
        match self {
            Unrolled::One(set) => Ok(Unrolled::Times(*set, number as usize)),
            _ => self.copied(alloc, number),
        }
    }

    /// So many copies, one after the other.
    fn copied(&self, alloc: Global, number: u32) -> Result<Unrolled, AllocError>
        ensures { IfOk result (λ w. way_of w ≡ copies number (way_of self.now)) }
    {
        let mut all = Unrolled::Nothing;
        for _made in 0..number {
            all = Unrolled::then(alloc, self.copy(alloc)?, all)?;
        }
        Ok(all)
    }

    /// At most so many copies.
    fn at_most(&self, alloc: Global, number: u32) -> Result<Unrolled, AllocError>
        ensures { IfOk result (λ w. way_of w ≡ at_most number (way_of self.now)) }
    {
        let mut all = Unrolled::Nothing;
        for _made in 0..number {
            let longer = Unrolled::then(alloc, self.copy(alloc)?, all)?;
            all = Unrolled::either(alloc, Unrolled::Nothing, longer)?;
        }
        Ok(all)
    }

    /// So many copies or more.
    fn without_end(self, alloc: Global, least: u32) -> Result<Unrolled, AllocError>
        ensures { IfOk result (λ w. way_of w ≡ without_end least (way_of self)) }
    {
        if least == 0 {
            let some = Unrolled::plus(alloc, self)?;
            return Unrolled::either(alloc, Unrolled::Nothing, some);
        }
        let first = self.copies(alloc, least - 1)?;
        let last = Unrolled::plus(alloc, self)?;
        Unrolled::then(alloc, first, last)
    }

    /// From the least to the greatest number of copies.
    fn repeated(self, alloc: Global, least: u32, most: Option<u32>) -> Result<Unrolled, AllocError>
        ensures { IfOk result (λ w. way_of w ≡ repeated least most (way_of self)) }
    {
        let Some(most) = most else {
            return self.without_end(alloc, least);
        };
        if least > most {
            return Ok(Unrolled::Never);
        }
        let first = self.copies(alloc, least)?;
        let more = self.at_most(alloc, most - least)?;
        Unrolled::then(alloc, first, more)
    }
}

/// The expression with each repetition written out. Its sets are numbered from `next` on, which is set behind them.
#[cycle(unroll)]
pub(crate) fn unroll(
    alloc: Global,
    e: &Expression,
    next: &mut usize,
) -> Result<Unrolled, AllocError>
    requires { next.old + length (sets (regex_of e.now)) < 2 ^ 64 }
    ensures way { IfOk result (λ w. way_of w ≡ unroll next.old (regex_of e.now)) }
    ensures counted { OnOk result (next.new ≡ next.old + length (sets (regex_of e.now))) }
{
    match e {
        Expression::Start => Ok(Unrolled::Start),
        Expression::End => Ok(Unrolled::End),
        Expression::One(_) => {
            let set = *next;
            *next += 1;
            Ok(Unrolled::One(set))
        }
        Expression::Group(body) => unroll(alloc, body, next),
        Expression::Branch(pieces) => unroll_branch(alloc, pieces, next),
        Expression::Choice(branches) => unroll_choice(alloc, branches, next),
        Expression::Repeat(least, most, body) => unroll_repeat(alloc, *least, *most, body, next),
    }
}

/// Of what is repeated 0 times the sets have no number.
#[cycle(unroll)]
fn unroll_repeat(
    alloc: Global,
    least: u32,
    most: Option<u32>,
    body: &Expression,
    next: &mut usize,
) -> Result<Unrolled, AllocError>
    requires { next.old + length (kept most (sets (regex_of body.now))) < 2 ^ 64 }
    ensures way { IfOk result (λ w. way_of w ≡ repeated least most (unroll next.old (regex_of body.now))) }
    ensures counted { OnOk result (next.new ≡ next.old + length (kept most (sets (regex_of body.now)))) }
{
    if let Some(0) = most {
        return Unrolled::Nothing.repeated(alloc, least, most);
    }
    let once = unroll(alloc, body, next)?;
    once.repeated(alloc, least, most)
}

#[cycle(unroll)]
fn unroll_branch(
    alloc: Global,
    pieces: &[Expression],
    next: &mut usize,
) -> Result<Unrolled, AllocError>
    requires { next.old + length (all_sets (regexes_of pieces.now)) < 2 ^ 64 }
    ensures way { IfOk result (λ w. way_of w ≡ unroll_all next.old Ways.nothing (regexes_of pieces.now)) }
    ensures counted { OnOk result (next.new ≡ next.old + length (all_sets (regexes_of pieces.now))) }
{
    let mut all = Unrolled::Nothing;
    for piece in pieces {
        let one = unroll(alloc, piece, next)?;
        all = Unrolled::then(alloc, all, one)?;
    }
    Ok(all)
}

#[cycle(unroll)]
fn unroll_choice(
    alloc: Global,
    branches: &[Expression],
    next: &mut usize,
) -> Result<Unrolled, AllocError>
    requires { next.old + length (all_sets (regexes_of branches.now)) < 2 ^ 64 }
    ensures way { IfOk result (λ w. way_of w ≡ unroll_some next.old Ways.never (regexes_of branches.now)) }
    ensures counted { OnOk result (next.new ≡ next.old + length (all_sets (regexes_of branches.now))) }
{
    let mut all = Unrolled::Never;
    for branch in branches {
        let one = unroll(alloc, branch, next)?;
        all = Unrolled::either(alloc, all, one)?;
    }
    Ok(all)
}
