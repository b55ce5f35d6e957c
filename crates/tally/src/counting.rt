//! The interval of the numbers of copies that counts spell.
ghost use Rattle.std.specs.Prelude.{◌≡◌, ◌↔◌, ◌<◌, ◌-◌, ◌^◌, ℕ, List, IfSome, length, slice_index};
ghost use Rattle.tally.specs.Copies.{Copies};
ghost use Rattle.tally.specs.Deals.{DealsInto, HaveCounts, Matches};
ghost use Rattle.tally.specs.Plan.{each, one, plan_of, plans_of};
ghost use Rattle.tally.specs.Span.{HasSpan, IsProper, IsSound, span};
ghost use Rattle.tally.specs.Symbols.{Covers, IsDistinct, IsUnder, has_symbol};
ghost use Rattle.tally.specs.Totals.{EndsBy, IsWithin};

use crate::{Count, Interval};

/// The numbers of copies of the expression that counts from `low` to `high` spell, with one count for each symbol.
///
/// Where both are the same counts, the interval is exact: it has the numbers k such that triples with these counts
/// divide into k sets that each match the expression (ShEx 2.1 section 5.5). Of a triple only its symbol matters: the
/// triple constraint that takes it. Otherwise the interval has the numbers of all counts from the lower to the upper
/// ones, and may have more. None is the empty interval.
///
/// The call recurses as deep as the expression.
pub fn interval(e: &Count, low: &[u32], high: &[u32]) -> Option<Interval>
    requires distinct { IsDistinct (plan_of e.now) }
    requires sound { IsSound (plan_of e.now) }
    requires in_low { Covers (length low.now) (plan_of e.now) }
    requires in_high { Covers (length high.now) (plan_of e.now) }

    ensures table { result ≡ span (plan_of e.now) (slice_index low.now) (slice_index high.now) }
    ensures exact { low.now ≡ high.now →
        (k : ℕ) → HasSpan result k ↔ Copies (plan_of e.now) (slice_index low.now) k }
    ensures divided { low.now ≡ high.now →
        (symbols : List ℕ) (k : ℕ) → HaveCounts (plan_of e.now) symbols (slice_index low.now) →
        HasSpan result k ↔ DealsInto (Matches (plan_of e.now)) k symbols }
    ensures boxed { (counts : ℕ → ℕ) (k : ℕ) → IsUnder (plan_of e.now) (slice_index low.now) counts →
        IsUnder (plan_of e.now) counts (slice_index high.now) → Copies (plan_of e.now) counts k →
        HasSpan result k }
    ensures proper { IsProper result }

    // No sum overflows: at most 65,536 symbols have counts below 2 ^ 32.
    ensures small { IfSome result (λ s. (s.lo < 2 ^ 48) × EndsBy s.hi (2 ^ 48 - 1)) }
{
    interval_of(e, low, high)
}

/// The interval of an expression, by the table of its form.
#[cycle(walk)]
fn interval_of(e: &Count, low: &[u32], high: &[u32]) -> Option<Interval>
    requires distinct { IsDistinct (plan_of e.now) }
    requires in_low { Covers (length low.now) (plan_of e.now) }
    requires in_high { Covers (length high.now) (plan_of e.now) }

    ensures value { result ≡ span (plan_of e.now) (slice_index low.now) (slice_index high.now) }
    ensures within { IfSome result
        (IsWithin (λ i. has_symbol i (plan_of e.now)) (slice_index low.now) (slice_index high.now)) }
{
    match e {
        Count::Sym(symbol) => {
            let i = usize::from(*symbol);
            Interval::proper(u64::from(low[i]), Some(u64::from(high[i])))
        }
        Count::Each(members) => common_interval(members, low, high),
        Count::One(members) => sum_of_intervals(members, low, high),
        Count::Many(min, max, child) => interval_of(child, low, high)?.repeated(*min, *max),
    }
}

/// What the intervals of all members of an EachOf have in common.
#[cycle(walk)]
fn common_interval(members: &[Count], low: &[u32], high: &[u32]) -> Option<Interval>
    requires distinct { IsDistinct (each (plans_of members.now)) }
    requires in_low { Covers (length low.now) (each (plans_of members.now)) }
    requires in_high { Covers (length high.now) (each (plans_of members.now)) }

    ensures value { result ≡ span (each (plans_of members.now)) (slice_index low.now) (slice_index high.now) }
    ensures within { IfSome result
        (IsWithin (λ i. has_symbol i (each (plans_of members.now))) (slice_index low.now) (slice_index high.now)) }
{
    let mut common = Interval::ALL;
    for member in members {
        common = common.meet(interval_of(member, low, high)?)?;
    }
    Some(common)
}

/// The sum of the intervals of all members of a OneOf.
#[cycle(walk)]
fn sum_of_intervals(members: &[Count], low: &[u32], high: &[u32]) -> Option<Interval>
    requires distinct { IsDistinct (one (plans_of members.now)) }
    requires in_low { Covers (length low.now) (one (plans_of members.now)) }
    requires in_high { Covers (length high.now) (one (plans_of members.now)) }

    ensures value { result ≡ span (one (plans_of members.now)) (slice_index low.now) (slice_index high.now) }
    ensures within { IfSome result
        (IsWithin (λ i. has_symbol i (one (plans_of members.now))) (slice_index low.now) (slice_index high.now)) }
{
    let mut sum = Interval { lo: 0, hi: Some(0) };
    for member in members {
        sum = sum.plus(interval_of(member, low, high)?);
    }
    Some(sum)
}
