//! The path of keys and indices to what a schema in ShExJ is refused for.

ghost use Rattle.std.specs.Prelude.{◌≡◌, ◌≤◌, ◌⊎◌, [], IfOk, IfSome, Some};
ghost use Rattle.serde_json.specs.Data.{depth};
ghost use Rattle.serde_json.specs.Read.{max_depth};
ghost use Rattle.serde_json.specs.View.{view};
ghost use Rattle.json_paths.specs.Paths.{value_at};
ghost use Rattle.key_paths.specs.Causes.{EndsAtCause, IsResponsible, LeadsToCause};

use crate::document::value_of;
use crate::trial::{Place, is_mended_without, is_refused, is_responsible};
use json_paths::{KeyPath, Step, inside};
use schema_documents::SchemaError;
use serde_json::{Map, Value};
use std::alloc::{AllocError, Global};

/// How deep arrays and objects may stand in one another where JSON is read.
const MAX_DEPTH: u32 = 127;

/// When a member of an object is tried: what has members or items first, since most faults stand inside, and the type last.
/// Without its type an object is refused whatever else it has, so the type is tried for an external definition alone.
#[derive(Clone, Copy, Debug, Drop, PartialEq)]
enum Turn {
    Inner,
    Plain,
    Type,
}

/// When a member is tried.
fn turn_of(name: &str, value: &Value) -> Turn {
    if name == "type" {
        Turn::Type
    } else if value.is_array() || value.is_object() {
        Turn::Inner
    } else {
        Turn::Plain
    }
}

/// The step to the first member of this turn that is responsible for the error.
fn key_in_turn(
    alloc: Global,
    place: &Place<'_>,
    members: &Map<String, Value>,
    turn: Turn,
) -> Result<Option<Step>, AllocError>
    requires limit { depth (view place.now.document.now) ≤ max_depth }
    requires place { value_at place.now.path.now (view place.now.document.now) ≡ Some (view place.now.here.now) }
    ensures { IfOk result (λ o. IfSome o (λ s. IsResponsible place.now.error.now (view place.now.document.now) place.now.path.now s)) }
{
    for (name, value) in members.iter() {
        if turn_of(name.as_str(), value) == turn {
            let step = Step::Key(name.clone()?);
            if is_responsible(alloc, place, &step)? {
                return Ok(Some(step));
            }
        }
    }
    Ok(None)
}

/// The step to a member that is responsible for the error.
fn key_step(
    alloc: Global,
    place: &Place<'_>,
    members: &Map<String, Value>,
) -> Result<Option<Step>, AllocError>
    requires limit { depth (view place.now.document.now) ≤ max_depth }
    requires place { value_at place.now.path.now (view place.now.document.now) ≡ Some (view place.now.here.now) }
    ensures { IfOk result (λ o. IfSome o (λ s. IsResponsible place.now.error.now (view place.now.document.now) place.now.path.now s)) }
{
    if let Some(step) = key_in_turn(alloc, place, members, Turn::Inner)? {
        return Ok(Some(step));
    }
    if let Some(step) = key_in_turn(alloc, place, members, Turn::Plain)? {
        return Ok(Some(step));
    }
    match place.error {
        SchemaError::External => key_in_turn(alloc, place, members, Turn::Type),
        _ => Ok(None),
    }
}

/// The index of the first item with which the document is refused for the error, found by halving.
fn first_index(alloc: Global, place: &Place<'_>, count: usize) -> Result<usize, AllocError>
    requires limit { depth (view place.now.document.now) ≤ max_depth }
    requires place { value_at place.now.path.now (view place.now.document.now) ≡ Some (view place.now.here.now) }
{
    let mut low = 0;
    let mut high = count;
    while low < high {
        let middle = low + (high - low) / 2;
        let end = Step::Index(middle + 1);
        if is_mended_without(alloc, place, &end)? {
            low = middle + 1;
        } else {
            high = middle;
        }
    }
    Ok(low)
}

/// The step to the first item that is responsible for the error.
fn index_step(alloc: Global, place: &Place<'_>, count: usize) -> Result<Option<Step>, AllocError>
    requires limit { depth (view place.now.document.now) ≤ max_depth }
    requires place { value_at place.now.path.now (view place.now.document.now) ≡ Some (view place.now.here.now) }
    ensures { IfOk result (λ o. IfSome o (λ s. IsResponsible place.now.error.now (view place.now.document.now) place.now.path.now s)) }
{
    let step = Step::Index(first_index(alloc, place, count)?);
    if is_responsible(alloc, place, &step)? {
        Ok(Some(step))
    } else {
        Ok(None)
    }
}

/// The step from a place to what is responsible for the error behind it, where one value alone is.
fn next_step(alloc: Global, place: &Place<'_>) -> Result<Option<Step>, AllocError>
    requires limit { depth (view place.now.document.now) ≤ max_depth }
    requires place { value_at place.now.path.now (view place.now.document.now) ≡ Some (view place.now.here.now) }
    ensures { IfOk result (λ o. IfSome o (λ s. IsResponsible place.now.error.now (view place.now.document.now) place.now.path.now s)) }
{
    match place.here {
        Value::Array(items) => index_step(alloc, place, items.len()),
        Value::Object(members) => key_step(alloc, place, members),
        _ => Ok(None),
    }
}

/// The steps from the document to what is responsible for the error, none where that is the document alone.
fn steps_to_cause(
    alloc: Global,
    document: &Value,
    error: &SchemaError,
) -> Result<Vec<Step>, AllocError>
    requires { depth (view document.now) ≤ max_depth }
    ensures { IfOk result (λ v. (v.items ≡ []) ⊎ EndsAtCause error.now (view document.now) v.items) }
{
    let mut path = Vec::new(alloc);
    let mut here = document;
    for _depth in 0..MAX_DEPTH {
        let place = Place {
            document,
            error,
            path: path.as_slice(),
            here,
        };
        let Some(step) = next_step(alloc, &place)? else {
            break;
        };
        let Some(inner) = inside(here, &step) else {
            break;
        };
        path.push(step)?;
        here = inner;
    }
    Ok(path)
}

/// The path to what the bytes are refused for as a schema in ShExJ, where one value alone is responsible: with it the
/// document is refused for this error, and without it, or with a text or a list of one text in its place, it is not (ShEx 2.1,
/// appendix A; RFC 8259). It is as long as it can be, and of several values in an array it leads to the first. There is none
/// where the bytes are not refused for the error or are no JSON, and where the document as a whole is responsible. It fails for
/// want of memory alone.
pub fn path_of(
    alloc: Global,
    source: &[u8],
    error: &SchemaError,
) -> Result<Option<KeyPath>, AllocError>
    ensures { IfOk result (λ o. IfSome o (λ p. LeadsToCause error.now source.now p)) }
{
    let Some(document) = value_of(alloc, source)? else {
        return Ok(None);
    };
    if !is_refused(alloc, &document, error)? {
        return Ok(None);
    }
    let steps = steps_to_cause(alloc, &document, error)?;
    if steps.is_empty() {
        return Ok(None);
    }
    Ok(KeyPath::of(steps))
}
