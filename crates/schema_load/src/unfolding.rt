//! Triple expressions with their inclusions unfolded.

ghost use Rattle.std.specs.Prelude.{List, ℕ, ◌≡◌, ◌++◌, ◌+◌, ◌*◌, ◌<◌, ◌≤◌, Contains, IfErr, IfOk, OnOk, Some, get_or, length, option_map, slice_get};
ghost use Rattle.rdf_terms.specs.declared.terms.Term.TheVariants as Terms;
ghost use Rattle.tally.specs.Plan.{plan_of, plans_of};
ghost use Rattle.schema_tree.specs.declared.schema.Occurrence.{Occurrence};
ghost use Rattle.schema_load.specs.declared.part.Part.{Part};
ghost use Rattle.schema_load.specs.Building.{number_in};
ghost use Rattle.schema_load.specs.Stands.{IsOccurrence, UnfoldAll, Unfolds, times};
ghost use Rattle.schema_load.specs.Steps.{IsTripleAt};
ghost use Rattle.schema_load.specs.Unfolding.{AreBelow, HasRoom, HaveRoom, IsFormAt, IsReady, IsValueInside, UnfoldsForm};

use crate::part::{ArcPart, Part, TripleForm};
use rdf_terms::table::TermTable;
use rdf_terms::terms::{Term, TermId};
use rdf_terms::text::Text;
use schema_tree::schema::{ExprId, Occurrence};
use std::alloc::{AllocError, Global};
use tally::{Bound, Count, is_once};

/// The number of an IRI of the table.
pub fn find_iri(alloc: Global, iri: &Text, terms: &TermTable) -> Result<TermId, AllocError>
    requires { Contains terms.now (Terms.Iri iri.now) }
    ensures { IfOk result (λ id. slice_get terms.now id.0 ≡ Some (Terms.Iri iri.now)) }
{
    let term = Term::Iri(iri.try_clone(alloc)?);
    match terms.find(&term) {
        Some(id) => Ok(id),
        None => unreachable!(),
    }
}

/// The number of the expression at a place, if there is one.
fn number_of_value(value: Option<usize>, numbers: &[u32]) -> Option<ExprId>
    requires { IsValueInside value (length numbers.now) }
    ensures { result ≡ option_map (number_in numbers.now) value }
{
    match value {
        Some(place) => Some(ExprId(numbers[place])),
        None => None,
    }
}

/// The occurrence of a TripleConstraint.
fn occurrence_of(
    alloc: Global,
    arc: &ArcPart,
    numbers: &[u32],
    terms: &TermTable,
) -> Result<Occurrence, AllocError>
    requires predicate { Contains terms.now (Terms.Iri arc.now.predicate) }
    requires value { IsValueInside arc.now.value (length numbers.now) }
    ensures { (parts : List Part) → IfOk result (IsOccurrence terms.now parts (number_in numbers.now) arc.now) }
{
    let predicate = find_iri(alloc, &arc.predicate, terms)?;
    Ok(Occurrence {
        inverse: arc.inverse,
        predicate,
        value: number_of_value(arc.value, numbers),
    })
}

/// The expression with a cardinality.
fn repeated(alloc: Global, min: u32, max: Bound, count: Count) -> Result<Count, AllocError>
    ensures { IfOk result (λ all. plan_of all ≡ times min max (plan_of count)) }
{
    if is_once(min, max) {
        return Ok(count);
    }
    Ok(Count::Many(min, max, Box::new(alloc, count)?))
}

/// The triple expressions that are unfolded into one Shape are at most so many, each inclusion of one counted. Where each
/// group has a member, 256 occurrences no deeper than 256 have no more.
const MOST_UNFOLDED: u32 = 65_536;

/// How many more triple expressions may be unfolded into a Shape.
#[derive(Drop)]
pub struct Room {
    left: u32,
}

impl Room {
    /// All that a Shape has.
    pub fn new() -> Room
        ensures { result.left ≡ 65536 }
    {
        Room {
            left: MOST_UNFOLDED,
        }
    }

    /// Takes the place of one more. Where there is none, the Shape counts as too big for the memory.
    fn take(&mut self) -> Result<(), AllocError>
        ensures taken { OnOk result (self.new.left + 1 ≡ self.old.left) }
        ensures full { IfErr result (λ e. self.old.left ≡ 0) }
    {
        if self.left == 0 {
            return Err(AllocError);
        }
        self.left -= 1;
        Ok(())
    }
}

/// What triple expressions are unfolded by.
#[derive(Clone, Copy)]
pub struct Unfolder<'a> {
    /// The parts.
    pub parts: &'a [Part],
    /// The target of each part.
    pub targets: &'a [usize],
    /// The depth of each part.
    pub depths: &'a [usize],
    /// The number of the expression at each place.
    pub numbers: &'a [u32],
    /// The terms, among which are the predicates of the parts.
    pub terms: &'a TermTable,
}

impl Unfolder<'_> {
    /// The triple expression at the place over the numbers of its occurrences, which are added.
    #[cycle(unfolding)]
    pub fn unfold(
        &self,
        alloc: Global,
        place: usize,
        occs: &mut Vec<Occurrence>,
        room: &mut Room,
    ) -> Result<Count, AllocError>
        requires ready { IsReady self.now }
        requires here { IsTripleAt self.now.parts.now place }
        requires room { HasRoom self.now.parts.now place (length occs.old.items) }
        ensures { IfOk result (λ count. (added : List Occurrence) × (occs.new.items ≡ occs.old.items ++ added) ×
            Unfolds self.now.terms.now self.now.parts.now (number_in self.now.numbers.now) place (length occs.old.items) (plan_of count) added) }
    {
        room.take()?;
        match &self.parts[place] {
            Part::Triple(triple) => {
                let count = self.unfold_form(alloc, place, &triple.form, occs, room)?;
                repeated(alloc, triple.min, triple.max, count)
            }
            _ => unreachable!(),
        }
    }

    /// The form of the triple expression at the place, without its cardinality, over the numbers of its occurrences, which are added.
    #[cycle(unfolding)]
    fn unfold_form(
        &self,
        alloc: Global,
        place: usize,
        form: &TripleForm,
        occs: &mut Vec<Occurrence>,
        room: &mut Room,
    ) -> Result<Count, AllocError>
        requires ready { IsReady self.now }
        requires here { IsFormAt self.now.parts.now place form.now }
        requires room { HasRoom self.now.parts.now place (length occs.old.items) }
        ensures { IfOk result (λ count. (added : List Occurrence) × (occs.new.items ≡ occs.old.items ++ added) ×
            UnfoldsForm self.now.terms.now self.now.parts.now (number_in self.now.numbers.now) form.now (length occs.old.items) (plan_of count) added) }
    {
        match form {
            TripleForm::Each(members) => {
                let counts = self.unfold_members(alloc, place, members.as_slice(), occs, room)?;
                Ok(Count::Each(counts))
            }
            TripleForm::One(members) => {
                let counts = self.unfold_members(alloc, place, members.as_slice(), occs, room)?;
                Ok(Count::One(counts))
            }
            TripleForm::Arc(arc) => {
                let symbol = occs.len() as u16;
                let occurrence = occurrence_of(alloc, arc, self.numbers, self.terms)?;
                occs.push(occurrence)?;
                Ok(Count::Sym(symbol))
            }
            TripleForm::Include(_) => self.unfold(alloc, self.targets[place], occs, room),
        }
    }

    /// The members of the triple expression at the place.
    #[cycle(unfolding)]
    fn unfold_members(
        &self,
        alloc: Global,
        place: usize,
        members: &[usize],
        occs: &mut Vec<Occurrence>,
        room: &mut Room,
    ) -> Result<Vec<Count>, AllocError>
        requires ready { IsReady self.now }
        requires below { AreBelow self.now.parts.now self.now.depths.now members.now place }
        requires room { HaveRoom self.now.parts.now members.now (length occs.old.items) }
        ensures { IfOk result (λ counts. (added : List Occurrence) × (occs.new.items ≡ occs.old.items ++ added) ×
            UnfoldAll self.now.terms.now self.now.parts.now (number_in self.now.numbers.now) members.now (length occs.old.items) (plans_of counts.items) added) }
    {
        let mut counts: Vec<Count> = Vec::new(alloc);
        for member in members {
            let count = self.unfold(alloc, *member, occs, room)?;
            counts.push(count)?;
        }
        Ok(counts)
    }
}
