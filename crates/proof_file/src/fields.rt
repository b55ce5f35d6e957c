//! The fields of a line.

ghost use Rattle.std.specs.Prelude.{◌≡◌, ◌∷◌, [], ◌<◌, ◌↔◌, ℕ, map, IsTrue, MatchOption};
ghost use Rattle.std.specs.Fmt.{decimal};
ghost use Rattle.std.specs.List.{AllByRecursion};
ghost use Rattle.schema_tree.specs.Rising.{Rises, RisesFrom};
ghost use Rattle.schema_tree.specs.States.{IsStateBefore};
ghost use Rattle.proof_file.specs.Text.{digest_text, hex_digit, hex_text, place_text, state_text, IsDigest, IsNumber, IsPlace, IsState};
ghost use Rattle.proof_file.specs.Reading.{Reads, fields, fields_left, IsShorter, IsGiven};

use crate::head::Digest256;
use rdf_terms::items::Items;
use schema_tree::verdicts::{Place, State};
use std::alloc::{AllocError, Global};
use std::cmp::Ordering;
use xs_text::unsigned_long;

/// Why nothing is read.
#[derive(Clone, Copy, Debug, PartialEq, Eq)]
pub(crate) enum Stop {
    /// The text is that of nothing that may stand there.
    Bad,
    /// Memory is wanting.
    Memory,
}

impl From<AllocError> for Stop {
    ghost use Rattle.proof_file.specs.declared.fields.Stop.TheVariants.{Memory};

    ghost from_gives = { λ e s. s ≡ Memory };

    fn from(_: AllocError) -> Stop {
        Stop::Memory
    }
}

/// The text up to the first separator, and what follows it, if there is one.
pub(crate) fn cut(text: &str, separator: char) -> (&str, Option<&str>)
    requires { separator < 128 }
    ensures fields { fields separator text.now ≡ result.0.now ∷ fields_left separator result.1 }
    ensures shorter { IsShorter result.1 text.now }
{
    match text.split_once(separator) {
        Some((first, rest)) => (first, Some(rest)),
        None => (text, None),
    }
}

/// A number in decimal without leading zeros.
pub(crate) fn number(field: &str) -> Result<u32, Stop>
    ensures { Reads decimal IsNumber field.now result }
{
    match unsigned_long(field) {
        Some(n) if n <= u64::from(u32::MAX) => Ok(n as u32),
        _ => Err(Stop::Bad),
    }
}

/// The number of a lower-case hexadecimal digit.
fn hex_number(digit: u8) -> Option<u8>
    ensures { MatchOption result ((n : ℕ) → n < 16 → ¬ (digit ≡ hex_digit n)) (λ n. (n < 16) × (digit ≡ hex_digit n)) }
{
    match digit {
        b'0'..=b'9' => Some(digit - b'0'),
        b'a'..=b'f' => Some(digit - b'a' + 10),
        _ => None,
    }
}

/// The byte of two digits.
fn hex_byte(high: u8, low: u8) -> Option<u8>
    ensures { MatchOption result ((n : ℕ) → n < 256 → ¬ (high ∷ low ∷ [] ≡ hex_text n)) (λ n. (n < 256) × (high ∷ low ∷ [] ≡ hex_text n)) }
{
    let high = hex_number(high)?;
    let low = hex_number(low)?;
    Some(high * 16 + low)
}

/// A digest.
pub(crate) fn digest(field: &str) -> Result<Digest256, Stop>
    ensures { Reads digest_text IsDigest field.now result }
{
    let digits = field.as_bytes();
    if digits.len() != 64 {
        return Err(Stop::Bad);
    }
    let mut bytes = [0; 32];
    for i in 0..32 {
        let Some(byte) = hex_byte(digits[2 * i], digits[2 * i + 1]) else {
            return Err(Stop::Bad);
        };
        bytes[i] = byte;
    }
    Ok(Digest256(bytes))
}

/// The place of one triple.
fn place(field: &str) -> Result<Place, Stop>
    ensures { Reads place_text IsPlace field.now result }
{
    if field == "r" {
        return Ok(Place::Rest);
    }
    let occurrence = number(field)?;
    if occurrence > 65534 {
        return Err(Stop::Bad);
    }
    Ok(Place::At(occurrence as u16))
}

/// The places of a record.
pub(crate) fn places(alloc: Global, text: Option<&str>) -> Result<Items<Place>, Stop>
    ensures { Reads (λ ps. map place_text ps) (AllByRecursion IsPlace) (fields_left 32 text.entry) result }
{
    let mut places = Vec::new(alloc);
    let mut left = text;
    while let Some(rest) = left {
        let (field, more) = cut(rest, ' ');
        let place = place(field)?;
        places.push(place).map_err(AllocError::from)?;
        left = more;
    }
    Ok(Items::of(places))
}

/// Numbers between separators.
pub(crate) fn numbers(
    alloc: Global,
    separator: char,
    text: Option<&str>,
) -> Result<Items<u32>, Stop>
    requires { separator < 128 }
    ensures { Reads (λ ns. map decimal ns) (AllByRecursion IsNumber) (fields_left separator text.entry) result }
{
    let mut numbers = Vec::new(alloc);
    let mut left = text;
    while let Some(rest) = left {
        let (field, more) = cut(rest, separator);
        let n = number(field)?;
        numbers.push(n).map_err(AllocError::from)?;
        left = more;
    }
    Ok(Items::of(numbers))
}

/// A listed state.
fn state(alloc: Global, field: &str) -> Result<State, Stop>
    ensures { Reads state_text IsState field.now result }
{
    let Some((done, counts)) = field.split_once(':') else {
        return Err(Stop::Bad);
    };
    let done = number(done)?;
    let counts = numbers(alloc, ',', none_if_empty(counts))?;
    Ok(State { done, counts })
}

/// The text, unless it is empty.
fn none_if_empty(text: &str) -> Option<&str>
    ensures { IsGiven result text.now }
{
    if text.is_empty() { None } else { Some(text) }
}

/// The states of a record, in any order.
pub(crate) fn states(alloc: Global, text: Option<&str>) -> Result<Items<State>, Stop>
    ensures { Reads (λ xs. map state_text xs) (AllByRecursion IsState) (fields_left 32 text.entry) result }
{
    let mut states = Vec::new(alloc);
    let mut left = text;
    while let Some(rest) = left {
        let (field, more) = cut(rest, ' ');
        let state = state(alloc, field)?;
        states.push(state).map_err(AllocError::from)?;
        left = more;
    }
    Ok(Items::of(states))
}

/// Whether each state comes before the next.
pub(crate) fn are_rising(states: &[State]) -> bool
    ensures { IsTrue result ↔ Rises IsStateBefore states.now }
{
    match states {
        [] => true,
        [first, rest @ ..] => rise_from(first, rest),
    }
}

/// Whether each state comes before the next, and `first` before all.
fn rise_from(first: &State, rest: &[State]) -> bool
    ensures { IsTrue result ↔ RisesFrom IsStateBefore first.now rest.now }
{
    let mut last = first;
    for state in rest {
        if !is_before(last, state) {
            return false;
        }
        last = state;
    }
    true
}

/// Whether the state `a` comes before `b`: by the number of triples that have their places, and then the counts.
fn is_before(a: &State, b: &State) -> bool
    ensures { IsTrue result ↔ IsStateBefore a.now b.now }
{
    if a.done == b.done {
        a.counts.as_slice().cmp(&b.counts.as_slice()) == Ordering::Less
    } else {
        a.done < b.done
    }
}
