//! Groups of places that lead to one another.

ghost use Rattle.std.specs.Prelude.{List, ℕ, [], ◌∷◌, ◌++◌, ◌≡◌, ◌+◌, ◌<◌, ◌≤◌, ◌↔◌, Contains, IfOk, IfSome, IsNone, IsTrue, OnOk, get_or, length};
ghost use Rattle.schema_load.specs.Groups.{AreGroups, AreJoined, AreNumbered, AreNumbers, IsAtFirst, IsClosed, IsLeft, IsWalking, unseen};
ghost use Rattle.schema_load.specs.Steps.{AreInside, AreTargets};
ghost use Rattle.schema_load.specs.declared.groups.Standing.TheVariants.{Grouped, Open, Unseen};
ghost use Rattle.schema_load.specs.declared.sorting.Visit.TheVariants.{Enter};

use crate::nexts::steps;
use crate::part::Part;
use crate::sorting::{Visit, all_visits, enter_all};
use std::alloc::{AllocError, Global};

/// Where a walk stands with a place.
#[derive(Clone, Copy)]
pub enum Standing {
    /// It was not entered.
    Unseen,
    /// It was entered, at this position of the trail.
    Open(usize),
    /// Its group is known, by its number.
    Grouped(usize),
}

/// A walk over the places, depth first, by which groups are found. A place that is entered begins a group at the end of
/// the trail. Where a place leads to one that is open, the groups that begin behind that one on the trail are joined to
/// the group that it is in. When the place with which a group begins is left, the group is known and goes off the trail.
#[derive(Drop)]
pub struct Walk {
    /// Where the walk stands with each place.
    pub standings: Vec<Standing>,
    /// The places whose groups are not known, in the order in which they were entered.
    pub trail: Vec<usize>,
    /// The positions of the trail at which groups begin, as far as the walk has come.
    pub starts: Vec<usize>,
    /// The first place of each group that is known. The number of a group is its index here.
    pub firsts: Vec<usize>,
}

/// The last number, and none exactly where there is no number.
fn last(numbers: &[usize]) -> Option<usize>
    ensures some { IfSome result (λ n. (init : List ℕ) × (numbers.now ≡ init ++ n ∷ [])) }
    ensures none { IsNone result → numbers.now ≡ [] }
{
    numbers.last().copied()
}

/// Joins the groups that begin behind a position to the one before them.
fn join(starts: &mut Vec<usize>, position: usize)
    ensures { AreJoined starts.old.items position starts.new.items }
{
    while let Some(start) = last(starts.as_slice()) {
        if start <= position {
            return;
        }
        starts.pop();
    }
}

/// Whether the number is the last one.
fn is_last(numbers: &[usize], number: usize) -> bool
    ensures { IsTrue result ↔ ((init : List ℕ) × (numbers.now ≡ init ++ number ∷ [])) }
{
    match last(numbers) {
        Some(last) => last == number,
        None => false,
    }
}

/// Gives a group to the places of the trail from a position on.
fn number_from(standings: &mut Vec<Standing>, trail: &[usize], start: usize, group: usize)
    requires begins { start ≤ length trail.now }
    requires inside { (p : ℕ) → Contains trail.now p → p < length standings.old.items }
    ensures numbered { AreNumbered standings.old.items trail.now start (length trail.now) group standings.new.items }
    ensures less { (parts : List Part) (targets : List ℕ) → unseen parts targets standings.new.items ≤ unseen parts targets standings.old.items }
{
    for position in start..trail.len() {
        standings[trail[position]] = Standing::Grouped(group);
    }
}

/// The number of the group of each place.
fn numbers_of(alloc: Global, standings: &[Standing]) -> Result<Vec<usize>, AllocError>
    requires grouped { (p : ℕ) → p < length standings.now → (g : ℕ) × (get_or standings.now p Unseen ≡ Grouped g) }
    ensures { IfOk result (λ groups. AreNumbers standings.now groups.items) }
{
    let mut groups: Vec<usize> = Vec::new(alloc);
    for standing in standings {
        groups.push(number_of(*standing))?;
    }
    Ok(groups)
}

/// The number of a group that is known.
fn number_of(standing: Standing) -> usize
    requires { (g : ℕ) × (standing ≡ Grouped g) }
    ensures { standing ≡ Grouped result }
{
    match standing {
        Standing::Grouped(group) => group,
        _ => unreachable!(),
    }
}

impl Walk {
    /// A walk over so many places that has entered none.
    fn new(alloc: Global, count: usize) -> Result<Walk, AllocError>
        ensures { IfOk result (IsAtFirst count) }
    {
        Ok(Walk {
            standings: vec![in alloc; Standing::Unseen; count]?,
            trail: Vec::new(alloc),
            starts: Vec::new(alloc),
            firsts: Vec::new(alloc),
        })
    }

    /// Opens a place that was not entered.
    fn open(
        &mut self,
        parts: &[Part],
        targets: &[usize],
        visits: &mut Vec<Visit>,
        place: usize,
    ) -> Result<(), AllocError>
        requires targets { AreTargets parts.now targets.now }
        requires inside { AreInside parts.now targets.now }
        requires walking { IsWalking parts.now targets.now self.old (visits.old.items ++ Enter place ∷ []) }
        requires fresh { get_or self.old.standings.items place Unseen ≡ Unseen }
        ensures walking { OnOk result (IsWalking parts.now targets.now self.new visits.new.items) }
        ensures less { OnOk result (length visits.new.items + unseen parts.now targets.now self.new.standings.items ≡ length visits.old.items + unseen parts.now targets.now self.old.standings.items) }
    {
        let position = self.trail.len();
        self.standings[place] = Standing::Open(position);
        self.trail.push(place)?;
        self.starts.push(position)?;
        visits.push(Visit::Leave(place))?;
        enter_all(visits, steps(&parts[place], targets, place))
    }

    /// Closes the last group, which begins with the place, at the position of the trail.
    fn close(&mut self, place: usize, position: usize) -> Result<(), AllocError>
        requires ends { (init : List ℕ) × (self.old.starts.items ≡ init ++ position ∷ []) }
        requires begins { position ≤ length self.old.trail.items }
        requires inside { (p : ℕ) → Contains self.old.trail.items p → p < length self.old.standings.items }
        ensures { OnOk result (IsClosed self.old position self.new) }
    {
        self.starts.pop();
        number_from(
            &mut self.standings,
            self.trail.as_slice(),
            position,
            self.firsts.len(),
        );
        self.firsts.push(place)?;
        self.trail.truncate(position);
        Ok(())
    }

    /// Leaves an open place. Its group is closed where it begins one.
    fn leave(&mut self, place: usize) -> Result<(), AllocError>
        requires within { place < length self.old.standings.items }
        requires opened { (n : ℕ) × (get_or self.old.standings.items place Unseen ≡ Open n) × (n ≤ length self.old.trail.items) }
        requires inside { (p : ℕ) → Contains self.old.trail.items p → p < length self.old.standings.items }
        ensures { OnOk result (IsLeft self.old place self.new) }
    {
        match self.standings[place] {
            Standing::Open(position) => {
                if is_last(self.starts.as_slice(), position) {
                    return self.close(place, position);
                }
                Ok(())
            }
            _ => unreachable!(),
        }
    }

    /// Makes a visit.
    fn visit(
        &mut self,
        parts: &[Part],
        targets: &[usize],
        visits: &mut Vec<Visit>,
        visit: Visit,
    ) -> Result<(), AllocError>
        requires targets { AreTargets parts.now targets.now }
        requires inside { AreInside parts.now targets.now }
        requires walking { IsWalking parts.now targets.now self.old (visits.old.items ++ visit ∷ []) }
        ensures walking { OnOk result (IsWalking parts.now targets.now self.new visits.new.items) }
        ensures less { OnOk result (length visits.new.items + unseen parts.now targets.now self.new.standings.items < (length visits.old.items + 1) + unseen parts.now targets.now self.old.standings.items) }
    {
        match visit {
            Visit::Leave(place) => self.leave(place),
            Visit::Enter(place) => match self.standings[place] {
                Standing::Unseen => self.open(parts, targets, visits, place),
                Standing::Open(position) => {
                    join(&mut self.starts, position);
                    Ok(())
                }
                Standing::Grouped(_) => Ok(()),
            },
        }
    }
}

/// The number of the group of each place. Any two places of a group lead to each other, and no place leads to one of a greater
/// number.
pub fn groups_of(alloc: Global, parts: &[Part], targets: &[usize]) -> Result<Vec<usize>, AllocError>
    requires targets { AreTargets parts.now targets.now }
    requires inside { AreInside parts.now targets.now }
    ensures { IfOk result (λ groups. AreGroups parts.now targets.now groups.items) }
{
    let mut walk = Walk::new(alloc, parts.len())?;
    let mut visits = all_visits(alloc, parts.len())?;
    while let Some(visit) = visits.pop() {
        walk.visit(parts, targets, &mut visits, visit)?;
    }
    numbers_of(alloc, walk.standings.as_slice())
}
