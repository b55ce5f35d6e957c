//! Intervals of the numbers of copies, and how cardinalities, EachOf and OneOf divide triples (ShEx 2.1, section 5.5).

ghost use Rattle.std.specs.Prelude.{◌≡◌, ◌↔◌, ◌+◌, ◌<◌, IfOk, IsTrue};
ghost use Rattle.tally.specs.Plan.{more_plans, many, no_plans, plan_of, plans_of};
ghost use Rattle.tally.specs.Span.{IsOrdered};

use std::alloc::{AllocError, Global};
use std::marker::Brand;
use std::process::Abort;
use std::sync::ledger::{Blank, Ledger};
use std::test::Fail;
use tally::counting::interval;
use tally::{Bound, Count, Interval, Steps};

/// From the one to the other.
fn between(lo: u64, hi: u64) -> Option<Interval> {
    Some(Interval { lo, hi: Some(hi) })
}

/// From this on.
fn from(lo: u64) -> Option<Interval> {
    Some(Interval { lo, hi: None })
}

/// Whether the minimum is within the bound.
fn is_ordered(min: u32, max: Bound) -> bool
    ensures { IsTrue result ↔ IsOrdered min max }
{
    match max {
        Bound::Upto(most) => min <= most,
        Bound::Free => true,
    }
}

/// The expression with a cardinality.
fn repeat(alloc: Global, min: u32, max: Bound, e: Count) -> Result<Count, AllocError>
    ensures { IfOk result (λ c. plan_of c ≡ many min max (plan_of e)) }
{
    Ok(Count::Many(min, max, Box::new(alloc, e)?))
}

/// Two members.
fn pair(alloc: Global, first: Count, second: Count) -> Result<Vec<Count>, AllocError>
    ensures { IfOk result (λ v. plans_of v.items ≡ more_plans (plan_of first) (more_plans (plan_of second) no_plans)) }
{
    Ok(vec![in alloc; first, second]?)
}

/// The interval of a symbol that is repeated twice, by an inner and an outer cardinality.
fn nested(
    alloc: Global,
    inner: (u32, Bound),
    outer: (u32, Bound),
    low: u32,
    high: u32,
) -> Result<Option<Interval>, AllocError>
    requires inner { IsOrdered inner.0 inner.1 }
    requires outer { IsOrdered outer.0 outer.1 }
{
    let e = repeat(alloc, inner.0, inner.1, Count::Sym(0))?;
    let e = repeat(alloc, outer.0, outer.1, e)?;
    Ok(interval(&e, &[low], &[high]))
}

/// The intervals of two members as an EachOf and as a OneOf.
fn two_members(
    alloc: Global,
    low: &[u32; 2],
    high: &[u32; 2],
) -> Result<(Option<Interval>, Option<Interval>), AllocError> {
    let each = Count::Each(pair(alloc, Count::Sym(0), Count::Sym(1))?);
    let one = Count::One(pair(alloc, Count::Sym(0), Count::Sym(1))?);
    Ok((interval(&each, low, high), interval(&one, low, high)))
}

/// The interval of `(<a> . ; <b> .?){2}`.
fn group(alloc: Global, counts: &[u32; 2]) -> Result<Option<Interval>, AllocError> {
    let maybe = repeat(alloc, 0, Bound::Upto(1), Count::Sym(1))?;
    let each = Count::Each(pair(alloc, Count::Sym(0), maybe)?);
    let e = repeat(alloc, 2, Bound::Upto(2), each)?;
    Ok(interval(&e, counts, counts))
}

/// The interval of `<a> . {2} | <b> .`.
fn choice(alloc: Global, counts: &[u32; 2]) -> Result<Option<Interval>, AllocError> {
    let twice = repeat(alloc, 2, Bound::Upto(2), Count::Sym(0))?;
    let e = Count::One(pair(alloc, twice, Count::Sym(1))?);
    Ok(interval(&e, counts, counts))
}

#[test]
fn repetitions_divide_both_ends(rt: HostRuntime) -> Result<(), Fail> {
    let once = (1, Bound::Upto(1));
    let cases = [
        (once, once, 5, 9, between(5, 9)),
        (once, (2, Bound::Upto(3)), 5, 9, between(2, 4)),
        (once, (3, Bound::Upto(3)), 6, 6, between(2, 2)),
        (once, (3, Bound::Upto(3)), 4, 5, None),
        (once, (0, Bound::Upto(3)), 5, 9, from(2)),
        (once, (2, Bound::Free), 5, 9, between(1, 4)),
        (once, (2, Bound::Free), 0, 9, between(0, 4)),
        (once, (0, Bound::Free), 0, 0, from(0)),
        (once, (0, Bound::Free), 4, 5, from(1)),
        (once, (0, Bound::Upto(0)), 0, 9, from(0)),
        (once, (0, Bound::Upto(0)), 1, 9, None),
        // `(<a> .*){3}` without triples: three empty sets match.
        ((0, Bound::Free), (3, Bound::Upto(3)), 0, 0, from(0)),
        // `(<a> .+){2}`: one triple does not conform, two do.
        ((1, Bound::Free), (2, Bound::Upto(2)), 1, 1, None),
        ((1, Bound::Free), (2, Bound::Upto(2)), 2, 2, between(1, 1)),
    ];
    for (inner, outer, low, high, want) in cases {
        assert!(rt; is_ordered(inner.0, inner.1));
        assert!(rt; is_ordered(outer.0, outer.1));
        let found = nested(rt.alloc(), inner, outer, low, high)?;
        assert_eq!(rt; found, want, "{inner:?} {outer:?} over {low} to {high}");
    }
    Ok(())
}

/// Members of an EachOf intersect, those of a OneOf add; a group repeats as a whole; an empty member empties the whole, so that
/// one `<a>`, which is no number of copies of `<a> . {2}`, has none whatever `<b>` has.
#[test]
fn members_intersect_or_add(rt: HostRuntime) -> Result<(), Fail> {
    let cases = [
        ([5, 7], [9, 12], between(7, 9), between(12, 21)),
        ([5, 7], [6, 12], None, between(12, 18)),
        // `<a> . | <b> .` with one of each has two copies, so it does not conform.
        ([1, 1], [1, 1], between(1, 1), between(2, 2)),
    ];
    for (low, high, each, one) in cases {
        let found = two_members(rt.alloc(), &low, &high)?;
        assert_eq!(rt; found.0, each, "EachOf at {low:?} to {high:?}");
        assert_eq!(rt; found.1, one, "OneOf at {low:?} to {high:?}");
    }
    Ok(())
}

/// Groups that repeat, and a choice with a member that may be empty.
fn check_groups(rt: &(impl Abort + AllocGlobal)) -> Result<(), Fail> {
    for (counts, grouped, chosen) in [
        ([2, 0], between(1, 1), between(1, 1)),
        ([2, 1], between(1, 1), between(2, 2)),
        ([2, 2], between(1, 1), between(3, 3)),
        ([2, 3], None, between(4, 4)),
        ([1, 1], None, None),
    ] {
        assert_eq!(rt;
            group(rt.alloc(), &counts)?,
            grouped,
            "a group at {counts:?}"
        );
        assert_eq!(rt;
            choice(rt.alloc(), &counts)?,
            chosen,
            "a choice at {counts:?}"
        );
    }
    Ok(())
}

#[test]
fn groups_repeat_as_a_whole(rt: HostRuntime) -> Result<(), Fail> {
    check_groups(&rt)
}

/// An EachOf without members has any number of copies, and a OneOf none.
#[test]
fn no_members_have_all_copies_or_none(rt: HostRuntime) {
    assert_eq!(rt;
        interval(&Count::Each(Vec::new(rt.alloc())), &[], &[]),
        from(0)
    );
    assert_eq!(rt;
        interval(&Count::One(Vec::new(rt.alloc())), &[], &[]),
        between(0, 0)
    );
}

#[test]
fn an_interval_contains_its_ends(rt: HostRuntime) {
    let some = Interval { lo: 2, hi: Some(4) };
    for (k, want) in [(1, false), (2, true), (4, true), (5, false)] {
        assert_eq!(rt; some.contains(k), want, "{k}");
    }
    assert!(rt; Interval { lo: 2, hi: None }.contains(u64::MAX));
}

/// Counts two steps.
fn tick_twice<L: Ledger>(steps: &mut Steps<L>)
    ensures { steps.new ≡ steps.old + 2 }
{
    steps.tick();
    steps.tick();
}

/// Makes a counter and counts two steps.
fn count_two<L: Ledger>(blank: Blank)
    requires name { blank.name ≡ L.name }
    requires parts { blank.parts ≡ L.parts }
    requires some { 0 < blank.parts }
{
    let mut steps = Steps::<L>::new(blank);
    tick_twice(&mut steps);
}

/// Whoever counts nothing makes a counter of a fresh blank.
#[test]
fn a_counter_is_made_of_a_fresh_blank(_rt: HostRuntime) {
    count_two::<Brand>(Blank::new(1));
}
