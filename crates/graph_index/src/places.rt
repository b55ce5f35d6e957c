//! The places of numbers in the order of the texts of their terms.

ghost use Rattle.std.specs.Prelude.{◌≡◌, ◌<◌, All, Contains, IfOk};
ghost use Rattle.rdf_terms.specs.declared.terms.TermId.{TermId};
ghost use Rattle.graph_index.specs.Numbers.{ArePlacesIn};
ghost use Rattle.graph_index.specs.Places.{AreApart, FollowTexts, IsPlaced, place_of};

use crate::numbers::{numbers_in, table_len};
use rdf_terms::joined::JoinedTexts;
use rdf_terms::table::TermTable;
use rdf_terms::terms::{TermId, Triple};
use std::alloc::{AllocError, Global};

/// The place of a number, from 1 on, or 0 where it has none.
pub(crate) fn place_of(places: &[usize], n: TermId) -> usize
    ensures { result ≡ place_of places.now n }
{
    places.get(n.0 as usize).copied().unwrap_or(0)
}

/// The places of the numbers of triples, in the order of the texts of the table; no other number has one.
pub(crate) fn places_in(
    alloc: Global,
    triples: &[Triple],
    terms: &TermTable,
) -> Result<Vec<usize>, AllocError>
    ensures placed { IfOk result (λ places. All (IsPlaced places.items) triples.now) }
    ensures apart { IfOk result (λ places. AreApart places.items) }
    ensures texts { IfOk result (λ places. FollowTexts terms.now places.items) }
{
    let len = table_len(triples);
    let mut ids = numbers_in(alloc, len, triples)?;
    let texts = JoinedTexts::of(alloc, terms)?;
    ids.sort_by(|a, b| texts.compare(*a, *b))?;
    let places = numbered(alloc, len, ids.as_slice())?;
    Ok(places)
}

/// The place of each number in a list of numbers that are below a bound.
fn numbered(alloc: Global, len: usize, ids: &[TermId]) -> Result<Vec<usize>, AllocError>
    requires { (n : TermId) → Contains ids.now n → n.0 < len }
    ensures places { IfOk result (λ places. ArePlacesIn ids.now places.items) }
    ensures all { IfOk result (λ places. (n : TermId) → Contains ids.now n → 0 < place_of places.items n) }
{
    let mut places = vec![in alloc; 0usize; len]?;
    for (i, id) in ids.iter().enumerate() {
        places[id.0 as usize] = i + 1;
    }
    Ok(places)
}
