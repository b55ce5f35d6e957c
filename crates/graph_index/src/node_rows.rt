//! The rows of one node, in the order of the texts of a table.

ghost use Rattle.std.specs.Prelude.{List, ◌≡◌, ◌∷◌, ◌≤◌, length, filter, false, true, ◌<◌, vec_capacity, vec_len};
ghost use Rattle.std.specs.List.Sorted.{IsPartitionPoint};
ghost use Rattle.std.specs.Ordering.{is_lt};
ghost use Rattle.lists.specs.Sorting.{insert_by, sorted_by};
ghost use Rattle.rdf_terms.specs.Graphs.{same_id};
ghost use Rattle.rdf_terms.specs.declared.terms.Triple.{Triple as Row};
ghost use Rattle.graph_index.specs.Edits.{IsFirstBlock, IsGrouped};
ghost use Rattle.graph_index.specs.Rows.{by_texts};

use crate::ends::End;
use rdf_terms::order::compare_ids;
use rdf_terms::table::TermTable;
use rdf_terms::terms::{TermId, Triple};
use std::cmp::Ordering;

/// Puts a row before the first that is not below it, in room that the rows have for it.
pub(crate) fn put_among(end: End, terms: &TermTable, rows: &mut Vec<Triple>, t: Triple)
    requires sorted { (ts : List Row) × (rows.old.items ≡ sorted_by (by_texts end terms.now) ts) }
    requires room { vec_len rows.old < vec_capacity rows.old }
    ensures { rows.new.items ≡ insert_by (by_texts end terms.now) t rows.old.items }
{
    let place = place_among(end, terms, rows.as_slice(), &t);
    match rows.insert(place, t) {
        Ok(()) => (),
        Err(_) => unreachable!(),
    }
}

/// Takes a row out that is one of the rows.
pub(crate) fn take_from(end: End, terms: &TermTable, rows: &mut Vec<Triple>, t: Triple)
    requires { (ts : List Row) × (rows.old.items ≡ sorted_by (by_texts end terms.now) (t ∷ ts)) }
    ensures { (ts : List Row) → rows.old.items ≡ sorted_by (by_texts end terms.now) (t ∷ ts) → rows.new.items ≡ sorted_by (by_texts end terms.now) ts }
{
    let place = place_among(end, terms, rows.as_slice(), &t);
    rows.remove(place);
}

/// How many of the rows are below a triple, found by halving.
fn place_among(end: End, terms: &TermTable, rows: &[Triple], t: &Triple) -> usize
    requires { (ts : List Row) × (rows.now ≡ sorted_by (by_texts end terms.now) ts) }
    ensures within { result ≤ length rows.now }
    ensures point { IsPartitionPoint (λ y. is_lt (by_texts end terms.now y t.now) ≡ true) (λ y. is_lt (by_texts end terms.now y t.now) ≡ false) rows.now result }
{
    rows.partition_point(|row| compare_rows(end, terms, row, t).is_lt())
}

/// Compares two triples by the texts of their predicates, and then of the nodes at the other end.
fn compare_rows(end: End, terms: &TermTable, a: &Triple, b: &Triple) -> Ordering
    ensures { result ≡ by_texts end terms.now a.now b.now }
{
    match compare_ids(terms, a.p, b.p) {
        Ordering::Equal => compare_ids(terms, end.node_across(a), end.node_across(b)),
        other => other,
    }
}

/// The rows of a predicate, where those of each stand together. It goes from one predicate to the next, and finds the end
/// of each by halving.
pub(crate) fn block_of<'a>(rows: &'a [Triple], p: TermId) -> &'a [Triple]
    requires { IsGrouped rows.now }
    ensures { result.now ≡ filter (λ t. same_id t.p p) rows.entry.now }
{
    let mut first = 0;
    while first < rows.len() {
        let rest = &rows[first..];
        let count = first_block(rest);
        if rest[0].p.0 == p.0 {
            return &rest[..count];
        }
        first += count;
    }
    &rows[..0]
}

/// How many rows at the front are those of the first one's predicate.
fn first_block(rows: &[Triple]) -> usize
    requires some { 0 < length rows.now }
    requires grouped { IsGrouped rows.now }
    ensures { IsFirstBlock rows.now result }
{
    let p = rows[0].p.0;
    rows.partition_point(|t| t.p.0 == p)
}
