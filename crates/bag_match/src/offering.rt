//! How often occurrences stand among the places that are allowed for triples.

ghost use Rattle.std.specs.Prelude.{◌≡◌, ◌<◌, ◌≤◌, ◌+◌, ◌^◌, ℕ, IfOk, length, slice_index};
ghost use Rattle.schema_tree.specs.Places.{times};
ghost use Rattle.bag_match.specs.Counts.{ArePlacesOf};
ghost use Rattle.bag_match.specs.Hopes.{ArePlacesOfEach, AreOffers, offers};

use crate::place_lists::PlaceLists;
use crate::raising::{lower, raise, zeros};
use schema_tree::verdicts::Place;
use std::alloc::{AllocError, Global};

/// Counts each of the places.
pub fn add_all(counts: &mut Vec<u32>, places: &[Place])
    requires there { ArePlacesOf (length counts.old.items) places.now }
    requires small { (i : ℕ) → slice_index counts.old.items i + times places.now i < 2 ^ 31 }
    ensures len { length counts.new.items ≡ length counts.old.items }
    ensures added { (i : ℕ) → slice_index counts.new.items i ≡ slice_index counts.old.items i + times places.now i }
{
    for place in places {
        raise(counts, *place);
    }
}

/// Counts each of the places no longer.
pub fn take_all(counts: &mut Vec<u32>, places: &[Place])
    requires there { ArePlacesOf (length counts.old.items) places.now }
    requires some { (i : ℕ) → times places.now i ≤ slice_index counts.old.items i }
    ensures len { length counts.new.items ≡ length counts.old.items }
    ensures taken { (i : ℕ) → slice_index counts.old.items i ≡ slice_index counts.new.items i + times places.now i }
{
    for place in places {
        lower(counts, *place);
    }
}

/// How many places of the lists each occurrence is, for so many occurrences.
pub fn offers_of(
    alloc: Global,
    occurrences: usize,
    lists: &PlaceLists,
) -> Result<Vec<u32>, AllocError>
    requires there { ArePlacesOfEach occurrences lists.now }
    requires small { (i : ℕ) → offers lists.now i < 2 ^ 31 }
    ensures { IfOk result (λ v. AreOffers occurrences lists.now v.items) }
{
    let mut counts = zeros(alloc, occurrences)?;
    for i in 0..lists.len() {
        add_all(&mut counts, lists.at(i));
    }
    Ok(counts)
}
