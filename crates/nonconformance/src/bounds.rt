//! How many triples some triple constraints take in a match.

ghost use Rattle.std.specs.Prelude.{◌≡◌, ◌-◌, ◌^◌, Some, if◌then◌else◌, min};
ghost use Rattle.tally.specs.Plan.{plan_of, plans_of};
ghost use Rattle.tally.specs.declared.Bound.TheVariants.{Upto};
ghost use Rattle.nonconformance.specs.Bounds.{capped, is_among, is_at, least_each, least_of, least_one, lesser, most_each, most_of, most_one, times_end};

use schema_tree::verdicts::Place;
use tally::{Bound, Count};

/// Whether the number is one of these.
pub fn is_among(constraints: &[u16], number: u16) -> bool
    ensures { result ≡ is_among constraints.now number }
{
    constraints.contains(&number)
}

/// Whether the place is one of these triple constraints.
pub fn is_at(constraints: &[u16], place: Place) -> bool
    ensures { result ≡ is_at constraints.now place }
{
    match place {
        Place::At(number) => is_among(constraints, number),
        Place::Rest => false,
    }
}

/// 1 or 0.
fn one_if(condition: bool) -> u64
    ensures { result ≡ (if condition then 1 else 0) }
{
    if condition { 1 } else { 0 }
}

/// The least number of triples that these triple constraints take together in a match of the expression (ShEx 2.1, section
/// 5.5.2), or 18,446,744,073,709,551,615 where it is more.
#[cycle(least)]
pub fn least_of(e: &Count, constraints: &[u16]) -> u64
    ensures { result ≡ min (least_of constraints.now (plan_of e.now)) (2 ^ 64 - 1) }
{
    match e {
        Count::Sym(symbol) => one_if(is_among(constraints, *symbol)),
        Count::Each(members) => least_of_each(members, constraints),
        Count::One(members) => least_of_one(members, constraints),
        Count::Many(min, _, child) => least_of(child, constraints).saturating_mul(u64::from(*min)),
    }
}

/// The sum of the least numbers of the members.
#[cycle(least)]
fn least_of_each(members: &[Count], constraints: &[u16]) -> u64
    ensures { result ≡ min (least_each constraints.now (plans_of members.now)) (2 ^ 64 - 1) }
{
    let mut sum: u64 = 0;
    for member in members {
        sum = sum.saturating_add(least_of(member, constraints));
    }
    sum
}

/// The least of the least numbers of the members, and 0 where there is no member.
#[cycle(least)]
fn least_of_one(members: &[Count], constraints: &[u16]) -> u64
    ensures { result ≡ min (least_one constraints.now (plans_of members.now)) (2 ^ 64 - 1) }
{
    let mut least: Option<u64> = None;
    for member in members {
        least = Some(lesser(least, least_of(member, constraints)));
    }
    least.unwrap_or(0)
}

/// The lesser of both, or the second where there is no first.
fn lesser(first: Option<u64>, second: u64) -> u64
    ensures { result ≡ lesser first second }
{
    match first {
        Some(number) => number.min(second),
        None => second,
    }
}

/// The greatest number of triples that these triple constraints take together in a match of the expression (ShEx 2.1,
/// section 5.5.2), if there is one, or 18,446,744,073,709,551,615 where it is more.
#[cycle(most)]
pub fn most_of(e: &Count, constraints: &[u16]) -> Option<u64>
    ensures { result ≡ capped (most_of constraints.now (plan_of e.now)) }
{
    match e {
        Count::Sym(symbol) => Some(one_if(is_among(constraints, *symbol))),
        Count::Each(members) => most_of_each(members, constraints),
        Count::One(members) => most_of_one(members, constraints),
        Count::Many(_, max, child) => repeated(*max, most_of(child, constraints)),
    }
}

/// The sum of the greatest numbers of the members, if each has one.
#[cycle(most)]
fn most_of_each(members: &[Count], constraints: &[u16]) -> Option<u64>
    ensures { result ≡ capped (most_each constraints.now (plans_of members.now)) }
{
    let mut sum: u64 = 0;
    for member in members {
        sum = sum.saturating_add(most_of(member, constraints)?);
    }
    Some(sum)
}

/// The greatest of the greatest numbers of the members, if each has one, and 0 where there is no member.
#[cycle(most)]
fn most_of_one(members: &[Count], constraints: &[u16]) -> Option<u64>
    ensures { result ≡ capped (most_one constraints.now (plans_of members.now)) }
{
    let mut most: u64 = 0;
    for member in members {
        most = most.max(most_of(member, constraints)?);
    }
    Some(most)
}

/// A greatest number, if there is one, times the maximum of a cardinality: 0 where the maximum is 0, and none where there is
/// no maximum and the number is not 0.
fn repeated(bound: Bound, most: Option<u64>) -> Option<u64>
    ensures { result ≡ capped (times_end bound most) }
{
    match bound {
        Bound::Upto(max) => repeated_up_to(max, most),
        Bound::Free => { if most? == 0 { Some(0) } else { None } }
    }
}

/// A greatest number, if there is one, times a maximum: 0 where the maximum is 0.
fn repeated_up_to(max: u32, most: Option<u64>) -> Option<u64>
    ensures { result ≡ capped (times_end (Upto max) most) }
{
    if max == 0 {
        return Some(0);
    }
    Some(most?.saturating_mul(u64::from(max)))
}
