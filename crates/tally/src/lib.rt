//! Expressions over counts, the intervals of the numbers of copies that counts spell, and a counter of steps.
#![tactic(auto)]

mod counter;
pub mod counting;
pub mod laws;

ghost use Rattle.std.specs.Prelude.{◌≡◌, ◌↔◌, ◌<◌, ◌+◌, ◌^◌, IsTrue, IfSome};
ghost use Rattle.tally.specs.Plan.{is_once};
ghost use Rattle.tally.specs.Span.{HasSpan, add_ends, meet, plus, proper, repeated};

pub use counter::Steps;

/// The maximum of a cardinality (ShEx 2.1 section 5.5, where -1 stands for any number).
#[derive(Clone, Copy, Debug, PartialEq, Eq)]
pub enum Bound {
    /// At most so many repetitions.
    Upto(u32),
    /// Any number of repetitions.
    Free,
}

/// Whether a cardinality is that of one copy.
pub fn is_once(min: u32, max: Bound) -> bool
    ensures { result ≡ is_once min max }
{
    match max {
        Bound::Upto(most) => min == 1 && most == 1,
        Bound::Free => false,
    }
}

/// A triple expression as far as counting sees it: each triple constraint is a symbol (ShEx 2.1 section 5.5).
#[derive(Debug, Drop)]
pub enum Count {
    /// A triple constraint.
    Sym(u16),
    /// An EachOf of these members.
    Each(Vec<Count>),
    /// A OneOf of these members.
    One(Vec<Count>),
    /// An expression with a cardinality: the minimum, the maximum, and what is repeated.
    Many(u32, Bound, Box<Count>),
}

/// The numbers from `lo` up to `hi`, or from `lo` without end.
#[derive(Clone, Copy, Debug, PartialEq, Eq)]
pub struct Interval {
    /// The least number.
    pub lo: u64,
    /// The greatest number, if there is one.
    pub hi: Option<u64>,
}

impl Interval {
    /// All numbers from 0.
    pub(crate) const ALL: Interval = Interval { lo: 0, hi: None };

    /// Whether the number is in the interval.
    pub fn contains(&self, k: u64) -> bool
        ensures { IsTrue result ↔ HasSpan (Some self.now) k }
    {
        match self.hi {
            Some(hi) => self.lo <= k && k <= hi,
            None => self.lo <= k,
        }
    }

    /// The numbers from `lo` up to `hi`, or none where `lo` is above `hi`.
    pub(crate) fn proper(lo: u64, hi: Option<u64>) -> Option<Interval>
        ensures { result ≡ proper lo hi }
    {
        match hi {
            Some(end) if end < lo => None,
            _ => Some(Interval { lo, hi }),
        }
    }

    /// The numbers that are in both intervals.
    pub(crate) fn meet(self, other: Interval) -> Option<Interval>
        ensures { result ≡ meet (Some self) (Some other) }
    {
        let hi = match (self.hi, other.hi) {
            (Some(a), Some(b)) => Some(a.min(b)),
            (Some(end), None) => Some(end),
            (None, end) => end,
        };
        Interval::proper(self.lo.max(other.lo), hi)
    }

    /// The sums of one number from each interval.
    pub(crate) fn plus(self, other: Interval) -> Interval
        requires lower { self.lo + other.lo < 2 ^ 64 }
        requires upper { IfSome (add_ends self.hi other.hi) (λ end. end < 2 ^ 64) }
        ensures { Some result ≡ plus (Some self) (Some other) }
    {
        let hi = match (self.hi, other.hi) {
            (Some(a), Some(b)) => Some(a + b),
            _ => None,
        };
        Interval {
            lo: self.lo + other.lo,
            hi,
        }
    }

    /// The numbers of repetitions, from `min` to `max` copies each, that some number of the interval makes.
    pub(crate) fn repeated(self, min: u32, max: Bound) -> Option<Interval>
        ensures { result ≡ repeated min max (Some self) }
    {
        let lo = match max {
            Bound::Upto(0) if self.lo == 0 => return Some(Interval::ALL),
            Bound::Upto(0) => return None,
            Bound::Upto(most) => self.lo.div_ceil(u64::from(most)),
            Bound::Free => self.lo.min(1),
        };
        let hi = self.hi.and_then(|end| end.checked_div(u64::from(min)));
        Interval::proper(lo, hi)
    }
}
