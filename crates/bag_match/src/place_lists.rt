//! Lists of places that stand one behind the other.

ghost use Rattle.std.specs.Prelude.{◌≡◌, ◌≤◌, ◌<◌, ◌+◌, length};
ghost use Rattle.bag_match.specs.PlaceLists.{first_of};
ghost use Rattle.std.specs.Prelude.{◌-◌, drop, take};

use schema_tree::verdicts::Place;
use std::alloc::{AllocError, Global};
use std::marker::Model;

/// Lists of places in two vectors, which contracts see as a list of lists.
#[derive(Drop)]
pub struct PlaceLists {
    places: Vec<Place>,
    starts: Vec<usize>,
}

impl Model for PlaceLists {
    ghost use Rattle.std.specs.Prelude.{List, length};
    ghost use Rattle.schema_tree.specs.declared.verdicts.Place.{Place};
    ghost use Rattle.bag_match.specs.PlaceLists.{AreStarts, lists_from};

    ghost Value = { List (List Place) };

    ghost view = { λ p. lists_from p.places.items p.starts.items };

    ghost invariant = { λ p. AreStarts (length p.places.items) p.starts.items };
}

/// The start of this number.
fn start_at(starts: &[usize], i: usize, end: usize) -> usize
    requires { i < length starts.now }
    ensures { result ≡ first_of end (drop i starts.now) }
{
    starts[i]
}

/// The start after that of this number, or the end where it is the last.
fn next_start(starts: &[usize], i: usize, end: usize) -> usize
    requires { i < length starts.now }
    ensures { result ≡ first_of end (drop (i + 1) starts.now) }
{
    if i + 1 < starts.len() {
        starts[i + 1]
    } else {
        end
    }
}

/// The places from one on and before another.
fn part(places: &[Place], start: usize, end: usize) -> &[Place]
    requires start { start ≤ end }
    requires end { end ≤ length places.now }
    ensures { result.now ≡ take (end - start) (drop start places.now) }
{
    &places[start..end]
}

impl PlaceLists {
    ghost use Rattle.std.specs.Prelude.{◌≡◌, ◌<◌, ◌++◌, ◌∷◌, [], IfOk, OnOk, Some, length, slice_get};

    /// No lists, with room for so many.
    pub fn with_capacity(alloc: Global, count: usize) -> Result<PlaceLists, AllocError>
        ensures { IfOk result (λ p. p ≡ []) }
    {
        let places = Vec::with_capacity(alloc, count)?;
        let starts = Vec::with_capacity(alloc, count)?;
        Ok(PlaceLists { places, starts })
    }

    /// How many lists there are.
    pub fn len(&self) -> usize
        ensures { result ≡ length self.now }
    {
        self.starts.as_slice().len()
    }

    /// The list of this number, which is below `len`.
    pub fn at(&self, i: usize) -> &[Place]
        requires { i < length self.now }
        ensures { slice_get self.now i ≡ Some result.now }
    {
        let starts = self.starts.as_slice();
        let places = self.places.as_slice();
        let start = start_at(starts, i, places.len());
        let end = next_start(starts, i, places.len());
        part(places, start, end)
    }

    /// Puts one more list behind the others.
    pub fn push(&mut self, places: &[Place]) -> Result<(), AllocError>
        ensures { OnOk result (self.new ≡ self.old ++ places.now ∷ []) }
    {
        let start = self.places.as_slice().len();
        self.starts.push(start)?;
        self.places.extend_from_slice(places)?;
        Ok(())
    }
}
