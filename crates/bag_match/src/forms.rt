//! How many places triples have by their form.

ghost use Rattle.std.specs.Prelude.{◌≡◌, ◌≤◌, ◌||◌, Contains, count_by, length, true};
ghost use Rattle.rdf_terms.specs.declared.terms.Triple.{Triple as Arc};
ghost use Rattle.rdf_terms.specs.Graphs.{same_id};
ghost use Rattle.schema_tree.specs.Matches.{fits};
ghost use Rattle.schema_tree.specs.Width.{is_open, places_for};

use crate::arcs::RelevantTriples;
use crate::places::{fits_any_forward, is_among};
use rdf_terms::terms::{TermId, Triple};
use schema_tree::schema::{Occurrence, Shape};

/// How many of the occurrences fit the triple.
fn fitting_count(occs: &[Occurrence], node: TermId, triple: Triple) -> u32
    requires { length occs.now ≤ 256 }
    ensures { result ≡ count_by (λ o. fits o node triple) occs.now }
{
    let mut count = 0;
    for o in occs {
        if o.fits(node, triple) {
            count += 1;
        }
    }
    count
}

/// Whether the triple, which is one of the node, may stay in the remainder by its form.
fn is_open(shape: &Shape, node: TermId, triple: Triple) -> bool
    requires near { (same_id triple.s node || same_id triple.o node) ≡ true }
    ensures { result ≡ is_open shape.now node triple }
{
    if triple.s != node {
        return true;
    }
    if !fits_any_forward(shape.occs.as_slice(), node, triple) {
        return true;
    }
    is_among(shape.extra.as_slice(), triple.p)
}

/// How many places the triple, which is one of the node, has by its form.
fn places_of(shape: &Shape, node: TermId, triple: Triple) -> u32
    requires near { (same_id triple.s node || same_id triple.o node) ≡ true }
    requires few_occurrences { length shape.now.occs ≤ 256 }
    ensures { result ≡ places_for shape.now node triple }
{
    let count = fitting_count(shape.occs.as_slice(), node, triple);
    if is_open(shape, node, triple) {
        count + 1
    } else {
        count
    }
}

/// Whether each of the triples, which are of the node, has one place alone by its form.
pub fn have_one_place(shape: &Shape, node: TermId, triples: &RelevantTriples<'_>) -> bool
    requires near { (t : Arc) → Contains triples.now t → (same_id t.s node || same_id t.o node) ≡ true }
    requires few_occurrences { length shape.now.occs ≤ 256 }
    ensures { result ≡ true → (t : Arc) → Contains triples.now t → places_for shape.now node t ≡ 1 }
{
    for i in 0..triples.len() {
        if places_of(shape, node, triples.at(i)) != 1 {
            return false;
        }
    }
    true
}
