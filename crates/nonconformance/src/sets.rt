//! The sets of triple constraints whose triples are counted.

ghost use Rattle.std.specs.Prelude.{◌<◌, ◌≤◌, IfOk, OnOk, length};
ghost use Rattle.nonconformance.specs.Offers.{HaveSingles, IsLonger};

use rdf_terms::items::Items;
use schema_tree::schema::Occurrence;
use std::alloc::{AllocError, Global};
use tally::Count;

/// Whether the two take arcs of one predicate and direction.
fn are_alike(a: Occurrence, b: Occurrence) -> bool {
    a.inverse == b.inverse && a.predicate == b.predicate
}

/// The numbers of the occurrences that take arcs of the predicate and direction of this one.
fn alike(alloc: Global, occs: &[Occurrence], one: Occurrence) -> Result<Vec<u16>, AllocError>
    requires { length occs.now ≤ 256 }
{
    let mut numbers = Vec::new(alloc);
    for i in 0..occs.len() {
        if are_alike(one, occs[i]) {
            numbers.push(i as u16)?;
        }
    }
    Ok(numbers)
}

/// Each triple constraint alone.
fn singles(alloc: Global, count: usize) -> Result<Vec<Items<u16>>, AllocError>
    requires { count ≤ 256 }
    ensures { IfOk result (λ v. HaveSingles count v.items) }
{
    let mut sets = Vec::new(alloc);
    for i in 0..count {
        sets.push(Items::of(vec![in alloc; i as u16]?))?;
    }
    Ok(sets)
}

/// Puts the triple constraints of one predicate and direction behind the sets, where these are more than one and the first of
/// them is this one.
fn push_alike(
    alloc: Global,
    occs: &[Occurrence],
    i: usize,
    sets: &mut Vec<Items<u16>>,
) -> Result<(), AllocError>
    requires few { length occs.now ≤ 256 }
    requires there { i < length occs.now }
    ensures { OnOk result (IsLonger sets.old.items sets.new.items) }
{
    let numbers = alike(alloc, occs, occs[i])?;
    if numbers.len() > 1 && numbers[0] as usize == i {
        sets.push(Items::of(numbers))?;
    }
    Ok(())
}

/// The sets of triple constraints that are looked at: each alone, and those of one predicate and direction where these are
/// more than one.
fn sets(alloc: Global, occs: &[Occurrence]) -> Result<Vec<Items<u16>>, AllocError>
    requires { length occs.now ≤ 256 }
    ensures { IfOk result (λ v. HaveSingles (length occs.now) v.items) }
{
    let mut sets = singles(alloc, occs.len())?;
    for i in 0..occs.len() {
        push_alike(alloc, occs, i, &mut sets)?;
    }
    Ok(sets)
}

/// Puts a copy of the triple constraints behind the sets.
fn push_copy(alloc: Global, numbers: &[u16], sets: &mut Vec<Items<u16>>) -> Result<(), AllocError>
    ensures { OnOk result (IsLonger sets.old.items sets.new.items) }
{
    sets.push(Items::of(numbers.to_vec(alloc)?))?;
    Ok(())
}

/// A list of one number.
fn sole(alloc: Global, number: u16) -> Result<Vec<u16>, AllocError> {
    Ok(vec![in alloc; number]?)
}

/// The triple constraints of an expression. Those of each OneOf in it are put behind the sets.
#[cycle(groups)]
fn constraints_of(
    alloc: Global,
    e: &Count,
    sets: &mut Vec<Items<u16>>,
) -> Result<Vec<u16>, AllocError>
    ensures { OnOk result (IsLonger sets.old.items sets.new.items) }
{
    match e {
        Count::Sym(symbol) => sole(alloc, *symbol),
        Count::Each(members) => constraints_of_all(alloc, members, sets),
        Count::One(members) => {
            let numbers = constraints_of_all(alloc, members, sets)?;
            push_copy(alloc, numbers.as_slice(), sets)?;
            Ok(numbers)
        }
        Count::Many(_, _, child) => constraints_of(alloc, child, sets),
    }
}

/// The triple constraints of the members.
#[cycle(groups)]
fn constraints_of_all(
    alloc: Global,
    members: &[Count],
    sets: &mut Vec<Items<u16>>,
) -> Result<Vec<u16>, AllocError>
    ensures { OnOk result (IsLonger sets.old.items sets.new.items) }
{
    let mut numbers = Vec::new(alloc);
    for member in members {
        let more = constraints_of(alloc, member, sets)?;
        numbers.extend_from_slice(more.as_slice())?;
    }
    Ok(numbers)
}

/// The sets of triple constraints that are looked at, with those of each OneOf of the expression.
pub fn sets_of(
    alloc: Global,
    body: &Count,
    occs: &[Occurrence],
) -> Result<Vec<Items<u16>>, AllocError>
    requires { length occs.now ≤ 256 }
    ensures { IfOk result (λ v. HaveSingles (length occs.now) v.items) }
{
    let mut sets = sets(alloc, occs)?;
    constraints_of(alloc, body, &mut sets)?;
    Ok(sets)
}
