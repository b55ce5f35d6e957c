//! How many triples each triple constraint may take, and whether an expression matches with such numbers.

ghost use Rattle.std.specs.Prelude.{◌≡◌, ◌↔◌, ◌<◌, ◌≤◌, ◌^◌, ◌∷◌, [], IfOk, IsTrue, count_by, length, slice_index};
ghost use Rattle.tally.specs.Plan.{plan_of};
ghost use Rattle.tally.specs.Span.{HasSpan, IsSound, span};
ghost use Rattle.tally.specs.Symbols.{Covers, IsDistinct};
ghost use Rattle.nonconformance.specs.Offers.{AreCounts, all_bound, all_serving, is_bound, is_serving};

use crate::offers::{Offer, may_serve, must_serve};
use std::alloc::{AllocError, Global};
use tally::Count;
use tally::counting::interval;

/// How many triples the triple constraint alone may take.
fn bound_count(offers: &[Offer], number: u16) -> u32
    requires { length offers.now < 2 ^ 31 }
    ensures { result ≡ count_by (is_bound (number ∷ [])) offers.now }
{
    let one = [number];
    let mut count = 0;
    for offer in offers {
        if must_serve(offer.places.as_slice(), &one) {
            count += 1;
        }
    }
    count
}

/// How many triples the triple constraint may take.
fn serving_count(offers: &[Offer], number: u16) -> u32
    requires { length offers.now < 2 ^ 31 }
    ensures { result ≡ count_by (is_serving (number ∷ [])) offers.now }
{
    let one = [number];
    let mut count = 0;
    for offer in offers {
        if may_serve(offer.places.as_slice(), &one) {
            count += 1;
        }
    }
    count
}

/// How many triples each of so many triple constraints alone may take.
pub fn bound_counts(alloc: Global, offers: &[Offer], count: usize) -> Result<Vec<u32>, AllocError>
    requires few { length offers.now < 2 ^ 31 }
    requires count { count ≤ 256 }
    ensures { IfOk result (λ v. AreCounts (λ i. length (all_bound (i ∷ []) offers.now)) count v.items) }
{
    let mut numbers = Vec::new(alloc);
    for i in 0..count {
        numbers.push(bound_count(offers, i as u16))?;
    }
    Ok(numbers)
}

/// How many triples each of so many triple constraints may take.
pub fn serving_counts(alloc: Global, offers: &[Offer], count: usize) -> Result<Vec<u32>, AllocError>
    requires few { length offers.now < 2 ^ 31 }
    requires count { count ≤ 256 }
    ensures { IfOk result (λ v. AreCounts (λ i. length (all_serving (i ∷ []) offers.now)) count v.items) }
{
    let mut numbers = Vec::new(alloc);
    for i in 0..count {
        numbers.push(serving_count(offers, i as u16))?;
    }
    Ok(numbers)
}

/// Whether the interval of an expression has one copy, where each triple constraint takes from `low` to `high` triples.
pub fn may_match(body: &Count, low: &[u32], high: &[u32]) -> bool
    requires distinct { IsDistinct (plan_of body.now) }
    requires sound { IsSound (plan_of body.now) }
    requires in_low { Covers (length low.now) (plan_of body.now) }
    requires in_high { Covers (length high.now) (plan_of body.now) }
    ensures { IsTrue result ↔ HasSpan (span (plan_of body.now) (slice_index low.now) (slice_index high.now)) 1 }
{
    match interval(body, low, high) {
        Some(copies) => copies.contains(1),
        None => false,
    }
}
