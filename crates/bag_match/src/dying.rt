//! States that can lead to no match.

ghost use Rattle.std.specs.Prelude.{◌≡◌, ◌↔◌, ◌<◌, ◌≤◌, ◌+◌, ◌++◌, ◌&&◌, ◌^◌, ℕ, List, IfOk, IsTrue, drop, filter, length, not, replicate, slice_get, slice_index, take};
ghost use Rattle.rdf_terms.specs.Graphs.{is_loop};
ghost use Rattle.rdf_terms.specs.declared.terms.Triple.{Triple};
ghost use Rattle.schema_tree.specs.Loaded.{BodyOk};
ghost use Rattle.schema_tree.specs.Matches.{fits};
ghost use Rattle.schema_tree.specs.States.{IsDead, IsDeadBody, count_fits, fitting};
ghost use Rattle.tally.specs.Span.{HasSpan, IsSound, span};
ghost use Rattle.tally.specs.Symbols.{Covers, IsDistinct};
ghost use Rattle.bag_match.specs.Counts.{AreLeft, state_of};

use crate::arcs::RelevantTriples;
use crate::counts::can_spell_once;
use rdf_terms::terms::{TermId, Triple};
use schema_tree::body::Body;
use schema_tree::schema::{Occurrence, Shape};
use std::alloc::{AllocError, Global};

/// How many of the triples the occurrence fits.
fn fitting(o: Occurrence, node: TermId, triples: &[Triple]) -> u32
    requires { length triples.now < 2 ^ 31 }
    ensures count { result ≡ count_fits o node triples.now }
    ensures most { result ≤ length triples.now }
{
    let mut count = 0;
    for triple in triples {
        if o.fits(node, *triple) {
            count += 1;
        }
    }
    count
}

/// How many of the relevant triples the occurrence fits.
fn fitting_relevant(o: Occurrence, node: TermId, triples: &RelevantTriples<'_>) -> u32
    requires { length triples.now < 2 ^ 31 }
    ensures { result ≡ count_fits o node triples.now }
{
    let mut count = 0;
    for i in 0..triples.len() {
        if o.fits(node, triples.at(i)) {
            count += 1;
        }
    }
    count
}

/// How many of the triples each occurrence fits.
pub fn fits_of(
    alloc: Global,
    occs: &[Occurrence],
    node: TermId,
    triples: &RelevantTriples<'_>,
) -> Result<Vec<u32>, AllocError>
    requires { length triples.now < 2 ^ 31 }
    ensures { IfOk result (λ v. AreLeft occs.now node triples.now v.items) }
{
    let mut left = Vec::with_capacity(alloc, occs.len())?;
    for o in occs {
        left.push(fitting_relevant(*o, node, triples))?;
    }
    Ok(left)
}

/// Leaves the next of the triples out of the numbers of the later ones that each occurrence fits.
pub fn pass_next(
    left: &mut Vec<u32>,
    occs: &[Occurrence],
    node: TermId,
    triples: &RelevantTriples<'_>,
    done: usize,
)
    requires within { done < length triples.now }
    requires left { AreLeft occs.now node (drop done triples.now) left.old.items }
    ensures { AreLeft occs.now node (drop (done + 1) triples.now) left.new.items }
{
    let triple = triples.at(done);
    for i in 0..occs.len() {
        if occs[i].fits(node, triple) {
            left[i] -= 1;
        }
    }
}

/// The sums of the counts and the numbers beside them.
fn sum_up(sums: &mut [u32], counts: &[u32], left: &[u32])
    requires room { length counts.now ≤ length sums.old }
    requires beside { length counts.now ≡ length left.now }
    requires small { (i : ℕ) → slice_index counts.now i + slice_index left.now i < 2 ^ 32 }
    ensures len { length sums.new ≡ length sums.old }
    ensures rest { (i : ℕ) → length counts.now ≤ i → slice_index sums.new i ≡ slice_index sums.old i }
    ensures sums { (i : ℕ) → i < length counts.now → slice_index sums.new i ≡ slice_index counts.now i + slice_index left.now i }
{
    for i in 0..counts.len() {
        sums[i] = counts[i] + left[i];
    }
}

/// Whether the counts, with any of the numbers beside them added, spell the expression once in no way.
pub(crate) fn spell_never_more(body: &Body, counts: &[u32], left: &[u32]) -> bool
    requires distinct { IsDistinct body.now }
    requires sound { IsSound body.now }
    requires covered { Covers (length counts.now) body.now }
    requires few { length counts.now ≤ 256 }
    requires beside { length counts.now ≡ length left.now }
    requires small { (i : ℕ) → slice_index counts.now i + slice_index left.now i < 2 ^ 32 }
    ensures { IsTrue result ↔ (¬ HasSpan (span body.now (slice_index counts.now) (λ i. slice_index counts.now i + slice_index left.now i)) 1) }
{
    let mut high = [0u32; 256];
    sum_up(high.as_mut_slice(), counts, left);
    !can_spell_once(body, counts, high.as_slice())
}

/// Whether the state with these counts is dead, where the numbers say how many of the later triples each occurrence fits.
/// It takes no memory.
pub fn is_dead(shape: &Shape, counts: &[u32], left: &[u32]) -> bool
    requires body { BodyOk shape.now.occs shape.now.body }
    requires few { length shape.now.occs ≤ 256 }
    requires one_each { length counts.now ≡ length shape.now.occs }
    requires beside { length left.now ≡ length shape.now.occs }
    requires small { (i : ℕ) → slice_index counts.now i + slice_index left.now i < 2 ^ 32 }
    ensures { (n : TermId) (ts : List Triple) (done : ℕ) → AreLeft shape.now.occs n (drop done ts) left.now →
        IsTrue result ↔ IsDead shape.now n ts (state_of done counts.now) }
{
    match &shape.body {
        Some(body) => spell_never_more(body, counts, left),
        None => false,
    }
}

/// Whether the triple is no self-loop and the occurrence fits it.
fn fits_inward(o: Occurrence, node: TermId, triple: Triple) -> bool
    ensures { result ≡ (not (is_loop triple) && fits o node triple) }
{
    if triple.s == triple.o {
        return false;
    }
    o.fits(node, triple)
}

/// How many of the triples that are no self-loops the occurrence fits.
fn fitting_inward(o: Occurrence, node: TermId, triples: &[Triple]) -> u32
    requires { length triples.now < 2 ^ 31 }
    ensures count { result ≡ count_fits o node (filter (λ t. not (is_loop t)) triples.now) }
    ensures most { result ≤ length triples.now }
{
    let mut count = 0;
    for triple in triples {
        if fits_inward(o, node, *triple) {
            count += 1;
        }
    }
    count
}

/// Puts at the place of each occurrence how many triples it fits, of one list and of those of another that are no
/// self-loops.
fn fill_left(left: &mut [u32], occs: &[Occurrence], node: TermId, outs: &[Triple], ins: &[Triple])
    requires room { length occs.now ≤ length left.old }
    requires few { length outs.now + length ins.now < 2 ^ 31 }
    ensures len { length left.new ≡ length left.old }
    ensures left { (i : ℕ) → i < length occs.now →
        slice_index left.new i ≡ fitting node (outs.now ++ filter (λ t. not (is_loop t)) ins.now) (slice_get occs.now i) }
{
    for i in 0..occs.len() {
        left[i] = fitting(occs[i], node, outs) + fitting_inward(occs[i], node, ins);
    }
}

/// The first so many of the numbers.
fn front(numbers: &[u32], count: usize) -> &[u32]
    requires { count ≤ length numbers.now }
    ensures { result.now ≡ take count numbers.now }
{
    &numbers[..count]
}

/// Whether a state with these counts is dead, where the later triples are those of one list, and those of another that
/// are no self-loops. It takes no memory.
pub fn is_dead_by_arcs(
    shape: &Shape,
    node: TermId,
    counts: &[u32],
    outs: &[Triple],
    ins: &[Triple],
) -> bool
    requires body { BodyOk shape.now.occs shape.now.body }
    requires few { length shape.now.occs ≤ 256 }
    requires few_triples { length outs.now + length ins.now < 2 ^ 31 }
    requires one_each { length counts.now ≡ length shape.now.occs }
    requires small { (i : ℕ) → slice_index counts.now i ≤ 2 ^ 31 }
    ensures { IsTrue result ↔ IsDeadBody shape.now node (outs.now ++ filter (λ t. not (is_loop t)) ins.now) (slice_index counts.now) shape.now.body }
{
    let occs = shape.occs.as_slice();
    let mut left = [0u32; 256];
    fill_left(left.as_mut_slice(), occs, node, outs, ins);
    is_dead(shape, counts, front(left.as_slice(), occs.len()))
}
