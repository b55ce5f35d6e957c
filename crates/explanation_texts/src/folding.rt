//! The reasons that the text of an explanation leaves out, since others say the same.

ghost use Rattle.std.specs.Prelude.{◌≡◌, ◌++◌, ◌-◌, IfOk, OnOk, length, map};
ghost use Rattle.explanation_texts.specs.Folding.{fits_one, fitting, if_among, is_among, is_lack_told, is_told_already, lack_among, lack_beyond, shown_reasons, single, unless_told};

use explanations::explanation::ToldReason;
use nonconformance::reason::Reason;
use std::alloc::{AllocError, Global};

/// The constraint, where it is the only one.
fn single(constraints: &[u16]) -> Option<u16>
    ensures { result ≡ single constraints.now }
{
    if constraints.len() == 1 {
        Some(constraints[0])
    } else {
        None
    }
}

/// Whether the constraint is one of these.
fn is_among(constraints: &[u16], constraint: u16) -> bool
    ensures { result ≡ is_among constraints.now constraint }
{
    constraints.iter().any(|other| constraint == *other)
}

/// Whether the reason is an unmatched triple that one of these constraints fits.
fn fits_one(constraints: &[u16], told: &ToldReason) -> bool
    ensures { result ≡ fits_one constraints.now told.now }
{
    told.misfits
        .as_slice()
        .iter()
        .any(|misfit| is_among(constraints, misfit.constraint))
}

/// How many unmatched triples one of these constraints fits.
fn count_fitting(constraints: &[u16], told: &[ToldReason]) -> usize
    ensures { result ≡ fitting constraints.now told.now }
{
    told.iter().filter(|one| fits_one(constraints, one)).count()
}

/// How many of so many triples that these constraints lack no unmatched triple stands for that one of them fits.
fn unfitted(told: &[ToldReason], constraints: &[u16], lack: u64) -> u64
    ensures { result ≡ lack - fitting constraints.now told.now }
{
    lack.saturating_sub(count_fitting(constraints, told) as u64)
}

/// How many triples a constraint lacks by itself beyond the unmatched triples that it fits, if it stands alone and is one of these.
fn lack_of_one(told: &[ToldReason], constraints: &[u16], own: &[u16], lack: u64) -> u64
    ensures { result ≡ if_among constraints.now (single own.now) (lack - fitting own.now told.now) }
{
    match single(own) {
        Some(constraint) if is_among(constraints, constraint) => unfitted(told, own, lack),
        _ => 0,
    }
}

/// How many triples one of these constraints lacks by itself beyond the unmatched triples that it fits.
fn lack_among(told: &[ToldReason], constraints: &[u16], reason: &Reason) -> u64
    ensures { result ≡ lack_among told.now constraints.now reason.now }
{
    match reason {
        Reason::TooFew(own, least, found) => lack_of_one(
            told,
            constraints,
            own.as_slice(),
            least.saturating_sub(found.as_slice().len() as u64),
        ),
        _ => 0,
    }
}

/// How many of so many triples none of these constraints lacks by itself.
fn lack_beyond(told: &[ToldReason], constraints: &[u16], lack: u64) -> u64
    ensures { result ≡ lack_beyond told.now constraints.now lack told.now }
{
    let mut left = lack;
    for other in told {
        left = left.saturating_sub(lack_among(told, constraints, &other.reason));
    }
    left
}

/// Whether unmatched triples and, where there are several constraints, what each lacks by itself say all that these constraints lack.
fn is_lack_told(told: &[ToldReason], constraints: &[u16], lack: u64) -> bool
    ensures { result ≡ is_lack_told told.now constraints.now lack }
{
    let left = unfitted(told, constraints, lack);
    if constraints.len() == 1 {
        left == 0
    } else {
        lack_beyond(told, constraints, left) == 0
    }
}

/// Whether among these reasons others say the same.
fn is_told_already(told: &[ToldReason], reason: &Reason) -> bool
    ensures { result ≡ is_told_already told.now reason.now }
{
    match reason {
        Reason::TooFew(own, least, found) => is_lack_told(
            told,
            own.as_slice(),
            least.saturating_sub(found.as_slice().len() as u64),
        ),
        _ => false,
    }
}

/// Puts a reason behind the others, unless others among these say the same.
fn push_unless_told<'a>(
    told: &[ToldReason],
    reason: &'a ToldReason,
    shown: &mut Vec<&'a ToldReason>,
) -> Result<(), AllocError>
    ensures { OnOk result (map (λ r. r.now) shown.new.items ≡ map (λ r. r.now) shown.old.items ++ unless_told told.now reason.now) }
{
    if !is_told_already(told, &reason.reason) {
        shown.push(reason)?;
    }
    Ok(())
}

/// The reasons that the text shows.
pub(crate) fn shown_reasons(
    alloc: Global,
    told: &[ToldReason],
) -> Result<Vec<&ToldReason>, AllocError>
    ensures { IfOk result (λ v. map (λ r. r.now) v.items ≡ shown_reasons told.now) }
{
    let mut shown = Vec::new(alloc);
    for one in told {
        push_unless_told(told, one, &mut shown)?;
    }
    Ok(shown)
}
