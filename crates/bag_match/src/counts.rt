//! How many triples occurrences have, and whether their counts match.

ghost use Rattle.std.specs.Prelude.{◌≡◌, ◌↔◌, ◌<◌, ◌≤◌, ◌^◌, ◌-◌, ℕ, IfOk, IsTrue, length, slice_index};
ghost use Rattle.tally.specs.Copies.{Copies};
ghost use Rattle.tally.specs.Span.{HasSpan, IsSound, span};
ghost use Rattle.tally.specs.Symbols.{Covers, IsDistinct};
ghost use Rattle.schema_tree.specs.Loaded.{BodyOk};
ghost use Rattle.schema_tree.specs.Places.{HaveCounts, add_place, times};
ghost use Rattle.bag_match.specs.Counted.{Counts};

use schema_tree::body::Body;
use schema_tree::schema::Shape;
use schema_tree::verdicts::Place;
use std::alloc::{AllocError, Global};
use tally::counting::interval;
use tally::laws::own_symbols_decide;

/// One more for the occurrence of the place, if it is one of the occurrences that are counted.
fn count_place(counts: &mut [u32], place: Place)
    requires { (i : ℕ) → slice_index counts.old i < 2 ^ 32 - 1 }
    ensures len { length counts.new ≡ length counts.old }
    ensures added { (i : ℕ) → i < length counts.old → slice_index counts.new i ≡ add_place i place (slice_index counts.old i) }
{
    if let Place::At(i) = place {
        let i = i as usize;
        if i < counts.len() {
            counts[i] += 1;
        }
    }
}

/// Counts the places, from no counts.
fn count_places(counts: &mut [u32], places: &[Place])
    requires few { length places.now < 2 ^ 32 }
    requires none { (i : ℕ) → slice_index counts.old i ≡ 0 }
    ensures { Counts (length counts.old) places.now counts.new }
{
    for place in places {
        count_place(counts, *place);
    }
}

/// How many of the places are each occurrence, for so many occurrences.
fn counts_of(alloc: Global, occurrences: usize, places: &[Place]) -> Result<Vec<u32>, AllocError>
    requires { length places.now < 2 ^ 32 }
    ensures { IfOk result (λ v. Counts occurrences places.now v.items) }
{
    let mut counts = vec![in alloc; 0u32; occurrences]?;
    count_places(counts.as_mut_slice(), places);
    Ok(counts)
}

/// Whether each of the places is the remainder.
fn are_rest(places: &[Place]) -> bool
    ensures { IsTrue result ↔ ((i : ℕ) → times places.now i ≡ 0) }
{
    for place in places {
        if let Place::At(_) = place {
            return false;
        }
    }
    true
}

/// Whether the counts from low to high spell the expression once in some way.
pub(crate) fn can_spell_once(body: &Body, low: &[u32], high: &[u32]) -> bool
    requires distinct { IsDistinct body.now }
    requires sound { IsSound body.now }
    requires in_low { Covers (length low.now) body.now }
    requires in_high { Covers (length high.now) body.now }
    ensures span { IsTrue result ↔ HasSpan (span body.now (slice_index low.now) (slice_index high.now)) 1 }
    ensures exact { low.now ≡ high.now → IsTrue result ↔ Copies body.now (slice_index low.now) 1 }
{
    match interval(body.count(), low, high) {
        Some(copies) => copies.contains(1),
        None => false,
    }
}

/// Whether the counts of the places spell the expression once.
fn match_once(
    alloc: Global,
    body: &Body,
    occurrences: usize,
    places: &[Place],
) -> Result<bool, AllocError>
    requires distinct { IsDistinct body.now }
    requires sound { IsSound body.now }
    requires covered { Covers occurrences body.now }
    requires few { length places.now < 2 ^ 32 }
    ensures { IfOk result (λ b. IsTrue b ↔ Copies body.now (times places.now) 1) }
{
    own_symbols_decide();
    let counts = counts_of(alloc, occurrences, places)?;
    let counts = counts.as_slice();
    Ok(can_spell_once(body, counts, counts))
}

/// Whether the counts of the places match the Shape's expression once; without one, whether each place is the remainder.
pub fn have_counts(alloc: Global, shape: &Shape, places: &[Place]) -> Result<bool, AllocError>
    requires body { BodyOk shape.now.occs shape.now.body }
    requires few { length places.now < 2 ^ 32 }
    ensures { IfOk result (λ b. IsTrue b ↔ HaveCounts shape.now.body (times places.now)) }
{
    match &shape.body {
        Some(body) => match_once(alloc, body, shape.occs.as_slice().len(), places),
        None => Ok(are_rest(places)),
    }
}
