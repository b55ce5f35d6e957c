//! The triples of a sealed graph in two orders, which are kept up when one is inserted or removed.

ghost use Rattle.std.specs.Prelude.{List, ◌≡◌, ◌∷◌, All, IfOk, IsSomeAnd, OnErr, OnOk, filter, nat_eq};
ghost use Rattle.std.specs.List.Sorted.{IsPermutation};
ghost use Rattle.rdf_terms.specs.Graphs.{is_loop, same_id};
ghost use Rattle.rdf_terms.specs.declared.terms.Triple.{Triple as Row};
ghost use Rattle.graph_index.specs.Contents.{IsArranged};
ghost use Rattle.graph_index.specs.Places.{AreApart, IsPlaced, place_of};
ghost use Rattle.graph_index.specs.Rows.{IsByPredicate, arcs_at, by_texts};
ghost use Rattle.graph_index.specs.Edits.{AreInTextsOf, IsReady, PutsRows};
ghost use Rattle.graph_index.specs.declared.ends.End.TheVariants.{Object};
ghost use Rattle.lists.specs.Sorting.{insert_by, sorted_by};
ghost use Rattle.std.specs.Prelude.{if◌then◌else◌};

use crate::arcs::Arcs;
use crate::edited::EditedArcs;
use crate::ends::End;
use crate::neighbours::Neigh;
use crate::node_rows::block_of;
use crate::places::{place_of, places_in};
use rdf_terms::table::TermTable;
use rdf_terms::terms::{TermId, Triple};
use std::alloc::{AllocError, Global};
use std::marker::Model;

/// The triples of a sealed graph: those of each subject, those of each object, and of these again those that are no
/// self-loops; and the places of the numbers that were sealed in the order of texts.
#[derive(Drop)]
pub struct Rows {
    places: Vec<usize>,
    outward: EditedArcs,
    inward: EditedArcs,
    into_others: EditedArcs,
}

impl Model for Rows {
    ghost use Rattle.graph_index.specs.Contents.{Arrangement};
    ghost use Rattle.graph_index.specs.Edits.{AreKept};

    ghost Value = { Arrangement };

    ghost view = { λ r. record { outward = r.outward.rows; inward = r.inward.rows } };

    ghost invariant = { λ r. AreKept r.places.items r.outward r.inward r.into_others };
}

impl Rows {
    ghost use Rattle.std.specs.Prelude.{List, ◌≡◌, ◌∷◌, ◌++◌, IfOk, OnErr, OnOk, filter, not};
    ghost use Rattle.std.specs.List.Sorted.{IsPermutation};
    ghost use Rattle.rdf_terms.specs.Graphs.{ins, is_loop, outs, same_id};
    ghost use Rattle.rdf_terms.specs.declared.terms.Triple.{Triple as Row};
    ghost use Rattle.graph_index.specs.Contents.{IsArranged};

    /// The triples in both orders, by the texts of the table.
    pub fn arranged(
        alloc: Global,
        triples: &[Triple],
        terms: &TermTable,
    ) -> Result<Rows, AllocError>
        ensures { IfOk result (λ rows. IsArranged terms.now triples.now rows) }
    {
        let places = places_in(alloc, triples, terms)?;
        let outward = Arcs::arranged(alloc, End::Subject, triples, places.as_slice())?;
        let inward = Arcs::arranged(alloc, End::Object, triples, places.as_slice())?;
        let into_others = inward.without_loops(alloc)?;
        Ok(Rows {
            places,
            outward: EditedArcs::over(alloc, outward),
            inward: EditedArcs::over(alloc, inward),
            into_others: EditedArcs::over(alloc, into_others),
        })
    }

    /// The triples of a subject.
    pub fn outs(&self, n: TermId) -> &[Triple]
        ensures { result.now ≡ outs self.now.outward n }
    {
        self.outward.of_node(n)
    }

    /// The triples of an object.
    pub fn ins(&self, n: TermId) -> &[Triple]
        ensures { result.now ≡ ins self.now.inward n }
    {
        self.inward.of_node(n)
    }

    /// The triples of a subject and a predicate.
    pub(crate) fn outs_by(&self, n: TermId, p: TermId) -> &[Triple]
        ensures { result.now ≡ filter (λ t. same_id t.p p) (outs self.now.outward n) }
    {
        rows_by(&self.outward, self.places.as_slice(), n, p)
    }

    /// The triples of an object and a predicate.
    pub(crate) fn ins_by(&self, n: TermId, p: TermId) -> &[Triple]
        ensures { result.now ≡ filter (λ t. same_id t.p p) (ins self.now.inward n) }
    {
        rows_by(&self.inward, self.places.as_slice(), n, p)
    }

    /// The triples of a subject, and then those of the object that are no self-loops.
    pub(crate) fn neigh(&self, n: TermId) -> Neigh<'_>
        ensures { result ≡ outs self.now.outward n ++ filter (λ t. not (is_loop t)) (ins self.now.inward n) }
    {
        Neigh::of(self.outward.of_node(n), self.into_others.of_node(n))
    }

    /// Takes a triple up at its place by the texts of the table, by which the rows stand. It takes as long as it takes to
    /// move the triples of its subject and those of its object. A refusal changes nothing.
    pub(crate) fn insert(
        &mut self,
        alloc: Global,
        t: Triple,
        terms: &TermTable,
    ) -> Result<(), AllocError>
        requires { (triples : List Row) × IsArranged terms.now triples self.old }
        ensures arranged { OnOk result ((triples more : List Row) → IsPermutation more (t ∷ triples) → IsArranged terms.now triples self.old → IsArranged terms.now more self.new) }
        ensures err { OnErr result (self.new ≡ self.old) }
    {
        let outward = self.outward.readied(alloc, t.s)?;
        let inward = self.inward.readied(alloc, t.o)?;
        let into_others = self.into_others.readied(alloc, t.o)?;
        self.outward.insert(terms, outward, t);
        self.inward.insert(terms, inward, t);
        insert_other(&mut self.into_others, terms, into_others, t);
        Ok(())
    }

    /// Takes a triple out, which is one of the rows. It takes as long as it takes to move the triples of its subject and
    /// those of its object. A refusal changes nothing.
    pub(crate) fn remove(
        &mut self,
        alloc: Global,
        t: Triple,
        terms: &TermTable,
    ) -> Result<(), AllocError>
        requires { (triples left : List Row) × IsPermutation triples (t ∷ left) × IsArranged terms.now triples self.old }
        ensures arranged { OnOk result ((triples left : List Row) → IsPermutation triples (t ∷ left) → IsArranged terms.now triples self.old → IsArranged terms.now left self.new) }
        ensures err { OnErr result (self.new ≡ self.old) }
    {
        let outward = self.outward.readied(alloc, t.s)?;
        let inward = self.inward.readied(alloc, t.o)?;
        let into_others = self.into_others.readied(alloc, t.o)?;
        self.outward.remove(terms, outward, t);
        self.inward.remove(terms, inward, t);
        remove_other(&mut self.into_others, terms, into_others, t);
        Ok(())
    }
}

/// Takes a triple up into the rows that are no self-loops, where it is none.
fn insert_other(arcs: &mut EditedArcs, terms: &TermTable, fresh: Option<Vec<Triple>>, t: Triple)
    requires object { arcs.old.end ≡ Object }
    requires ready { IsReady t.o fresh arcs.old }
    requires sorted { AreInTextsOf terms.now Object t.o (arcs_at Object arcs.old.rows t.o) }
    ensures { PutsRows t.o (if is_loop t then arcs_at Object arcs.old.rows t.o else insert_by (by_texts Object terms.now) t (arcs_at Object arcs.old.rows t.o)) arcs.old arcs.new }
{
    if t.s != t.o {
        arcs.insert(terms, fresh, t);
    }
}

/// Takes a triple out of the rows that are no self-loops, where it is none.
fn remove_other(arcs: &mut EditedArcs, terms: &TermTable, fresh: Option<Vec<Triple>>, t: Triple)
    requires object { arcs.old.end ≡ Object }
    requires ready { IsReady t.o fresh arcs.old }
    requires sorted { (ts : List Row) × (arcs_at Object arcs.old.rows t.o ≡ sorted_by (by_texts Object terms.now) (if is_loop t then arcs_at Object ts t.o else t ∷ arcs_at Object ts t.o)) }
    ensures { (ts : List Row) → arcs_at Object arcs.old.rows t.o ≡ sorted_by (by_texts Object terms.now) (if is_loop t then arcs_at Object ts t.o else t ∷ arcs_at Object ts t.o) → PutsRows t.o (sorted_by (by_texts Object terms.now) (arcs_at Object ts t.o)) arcs.old arcs.new }
{
    if t.s != t.o {
        arcs.remove(terms, fresh, t);
    }
}

/// Takes a triple up into the rows of a sealed graph.
pub(crate) fn insert_row(
    rows: &mut Option<Rows>,
    alloc: Global,
    t: Triple,
    terms: &TermTable,
) -> Result<(), AllocError>
    requires { (triples : List Row) × IsSomeAnd rows.old (IsArranged terms.now triples) }
    ensures arranged { OnOk result ((triples more : List Row) → IsPermutation more (t ∷ triples) → IsSomeAnd rows.old (IsArranged terms.now triples) → IsSomeAnd rows.new (IsArranged terms.now more)) }
    ensures err { OnErr result (rows.new ≡ rows.old) }
{
    match rows {
        Some(rows) => rows.insert(alloc, t, terms),
        None => unreachable!(),
    }
}

/// Takes a triple out of the rows of a sealed graph.
pub(crate) fn remove_row(
    rows: &mut Option<Rows>,
    alloc: Global,
    t: Triple,
    terms: &TermTable,
) -> Result<(), AllocError>
    requires { (triples left : List Row) × IsPermutation triples (t ∷ left) × IsSomeAnd rows.old (IsArranged terms.now triples) }
    ensures arranged { OnOk result ((triples left : List Row) → IsPermutation triples (t ∷ left) → IsSomeAnd rows.old (IsArranged terms.now triples) → IsSomeAnd rows.new (IsArranged terms.now left)) }
    ensures err { OnErr result (rows.new ≡ rows.old) }
{
    match rows {
        Some(rows) => rows.remove(alloc, t, terms),
        None => unreachable!(),
    }
}

/// The triples of a node and a predicate.
fn rows_by<'a>(arcs: &'a EditedArcs, places: &[usize], n: TermId, p: TermId) -> &'a [Triple]
    requires apart { AreApart places.now }
    requires placed { All (IsPlaced places.now) arcs.now.sealed }
    requires by_predicate { IsByPredicate places.now (arcs_at arcs.now.end arcs.now.sealed n) }
    ensures { result.now ≡ filter (λ t. same_id t.p p) (arcs_at arcs.entry.now.end arcs.entry.now.rows n) }
{
    match arcs.edited_rows(n) {
        Some(rows) => block_of(rows, p),
        None => of_predicate(arcs.sealed_rows(n), places, p),
    }
}

/// The rows of a predicate, found by halving over the places of their predicates.
fn of_predicate<'a>(rows: &'a [Triple], places: &[usize], p: TermId) -> &'a [Triple]
    requires apart { AreApart places.now }
    requires placed { All (IsPlaced places.now) rows.now }
    requires by_predicate { IsByPredicate places.now rows.now }
    ensures { result.now ≡ filter (λ t. same_id t.p p) rows.entry.now }
{
    let place = place_of(places, p);
    if place == 0 {
        return &rows[..0];
    }
    of_place(rows, places, place)
}

/// The rows whose predicates have a place, found by halving.
fn of_place<'a>(rows: &'a [Triple], places: &[usize], place: usize) -> &'a [Triple]
    requires { IsByPredicate places.now rows.now }
    ensures { result.now ≡ filter (λ t. nat_eq (place_of places.entry.now t.p) place) rows.entry.now }
{
    let first = rows.partition_point(|t| place_of(places, t.p) < place);
    let rest = &rows[first..];
    let count = rest.partition_point(|t| place_of(places, t.p) <= place);
    &rest[..count]
}
