//! Trials of changed documents: whether the reader refuses one for the error that the document is refused for.

ghost use Rattle.std.specs.Prelude.{◌≡◌, ◌≢◌, ◌≤◌, ◌<◌, IfOk, MatchBool, MatchOption, Some};
ghost use Rattle.std.specs.Bool.{OnFalse, OnTrue};
ghost use Rattle.serde_json.specs.Data.{depth};
ghost use Rattle.serde_json.specs.Read.{max_depth};
ghost use Rattle.serde_json.specs.View.{view};
ghost use Rattle.json_paths.specs.Paths.{value_at, with_at, with_step};
ghost use Rattle.key_paths.specs.Refusals.{IsDocumentData, IsOther, IsRefused, IsRefusedFor};
ghost use Rattle.key_paths.specs.Causes.{IsMendedBy, IsResponsible};

use json_paths::{Step, inside, with_at, with_step, without};
use schema_documents::SchemaError;
use serde_json::Value;
use shexj_reader::read;
use std::alloc::{AllocError, Global};

/// A text that stands for an IRI, a reference or an inclusion.
const EXAMPLE: &str = "http://localhost/";

/// A place in a document that is refused for an error: the steps that lead there, and what stands there.
#[derive(Drop)]
pub(crate) struct Place<'a> {
    pub(crate) document: &'a Value,
    pub(crate) error: &'a SchemaError,
    pub(crate) path: &'a [Step],
    pub(crate) here: &'a Value,
}

/// Whether the reader was out of memory.
fn is_memory(error: &SchemaError) -> bool
    ensures { OnFalse result (error.now ≢ SchemaError.Memory) }
{
    match error {
        SchemaError::Memory => true,
        _ => false,
    }
}

/// Why the reader refuses a value in the place of a document, if it does.
fn refusal_of(alloc: Global, value: &Value) -> Result<Option<SchemaError>, AllocError>
    requires { depth (view value.now) ≤ max_depth }
    ensures { IfOk result (λ r. MatchOption r (IsDocumentData (view value.now)) (λ e. IsRefusedFor e (view value.now))) }
{
    let text = value.to_vec(alloc)?;
    match read(alloc, text.as_slice()) {
        Ok(_) => Ok(None),
        Err(error) => {
            if is_memory(&error) {
                return Err(AllocError);
            }
            Ok(Some(error))
        }
    }
}

/// Whether a value in the place of a document is refused for this error.
pub(crate) fn is_refused(
    alloc: Global,
    value: &Value,
    error: &SchemaError,
) -> Result<bool, AllocError>
    requires { depth (view value.now) ≤ max_depth }
    ensures { IfOk result (λ b. MatchBool b (IsRefused error.now (view value.now)) (IsOther error.now (view value.now))) }
{
    match refusal_of(alloc, value)? {
        Some(found) => Ok(found == *error),
        None => Ok(false),
    }
}

/// Whether the document is refused for the error with this at the place.
fn is_refused_with(alloc: Global, place: &Place<'_>, new: Value) -> Result<bool, AllocError>
    requires limit { depth (view place.now.document.now) ≤ max_depth }
    requires place { value_at place.now.path.now (view place.now.document.now) ≡ Some (view place.now.here.now) }
    requires depth { depth (view new) ≤ depth (view place.now.here.now) }
    ensures { IfOk result (λ b. MatchBool b (IsRefused place.now.error.now (with_at place.now.path.now (view new) (view place.now.document.now)))
        (IsOther place.now.error.now (with_at place.now.path.now (view new) (view place.now.document.now)))) }
{
    let changed = with_at(alloc, place.document, place.path, new)?;
    is_refused(alloc, &changed, place.error)
}

/// Whether the document is no longer refused for the error where nothing stands behind a step.
pub(crate) fn is_mended_without(
    alloc: Global,
    place: &Place<'_>,
    step: &Step,
) -> Result<bool, AllocError>
    requires limit { depth (view place.now.document.now) ≤ max_depth }
    requires place { value_at place.now.path.now (view place.now.document.now) ≡ Some (view place.now.here.now) }
    ensures { IfOk result (λ b. OnTrue b (IsMendedBy place.now.error.now (view place.now.document.now) place.now.path.now step.now (view place.now.here.now))) }
{
    let changed = without(alloc, place.here, step)?;
    let refused = is_refused_with(alloc, place, changed)?;
    Ok(!refused)
}

/// Whether the document is no longer refused for the error where a text stands behind a step.
fn is_mended_by_text(alloc: Global, place: &Place<'_>, step: &Step) -> Result<bool, AllocError>
    requires limit { depth (view place.now.document.now) ≤ max_depth }
    requires place { value_at place.now.path.now (view place.now.document.now) ≡ Some (view place.now.here.now) }
    requires inner { 0 < depth (view place.now.here.now) }
    ensures { IfOk result (λ b. OnTrue b (IsMendedBy place.now.error.now (view place.now.document.now) place.now.path.now step.now (view place.now.here.now))) }
{
    let text = Value::try_from_str(alloc, EXAMPLE)?;
    let changed = with_step(alloc, place.here, step, text)?;
    let refused = is_refused_with(alloc, place, changed)?;
    Ok(!refused)
}

/// The value with the text as its only item, where it is an array.
fn with_example_alone(alloc: Global, value: &Value) -> Result<Value, AllocError>
    ensures { IfOk result (λ v. depth (view v) ≤ depth (view value.now)) }
{
    let text = Value::try_from_str(alloc, EXAMPLE)?;
    let first = Step::Index(0);
    let changed = with_step(alloc, value, &first, text)?;
    Ok(changed)
}

/// Whether the document is no longer refused for the error where the array behind a step has a text as its only item.
fn is_mended_by_item(
    alloc: Global,
    place: &Place<'_>,
    step: &Step,
    inner: &Value,
) -> Result<bool, AllocError>
    requires limit { depth (view place.now.document.now) ≤ max_depth }
    requires place { value_at place.now.path.now (view place.now.document.now) ≡ Some (view place.now.here.now) }
    requires inner { depth (view inner.now) < depth (view place.now.here.now) }
    ensures { IfOk result (λ b. OnTrue b (IsMendedBy place.now.error.now (view place.now.document.now) place.now.path.now step.now (view place.now.here.now))) }
{
    let list = with_example_alone(alloc, inner)?;
    let changed = with_step(alloc, place.here, step, list)?;
    let refused = is_refused_with(alloc, place, changed)?;
    Ok(!refused)
}

/// Whether the document is refused for the error with what stands behind a step.
fn is_refused_at(
    alloc: Global,
    place: &Place<'_>,
    step: &Step,
    inner: &Value,
) -> Result<bool, AllocError>
    requires limit { depth (view place.now.document.now) ≤ max_depth }
    requires place { value_at place.now.path.now (view place.now.document.now) ≡ Some (view place.now.here.now) }
    requires inner { depth (view inner.now) < depth (view place.now.here.now) }
    ensures { IfOk result (λ b. OnTrue b (IsRefused place.now.error.now (with_at place.now.path.now (with_step step.now (view inner.now) (view place.now.here.now)) (view place.now.document.now)))) }
{
    let copy = inner.clone()?;
    let kept = with_step(alloc, place.here, step, copy)?;
    let refused = is_refused_with(alloc, place, kept)?;
    Ok(refused)
}

/// Whether the document is no longer refused for the error where nothing, a text or a list of one text stands behind a step.
fn is_mended(
    alloc: Global,
    place: &Place<'_>,
    step: &Step,
    inner: &Value,
) -> Result<bool, AllocError>
    requires limit { depth (view place.now.document.now) ≤ max_depth }
    requires place { value_at place.now.path.now (view place.now.document.now) ≡ Some (view place.now.here.now) }
    requires inner { depth (view inner.now) < depth (view place.now.here.now) }
    ensures { IfOk result (λ b. OnTrue b (IsMendedBy place.now.error.now (view place.now.document.now) place.now.path.now step.now (view place.now.here.now))) }
{
    if is_mended_without(alloc, place, step)? {
        return Ok(true);
    }
    if is_mended_by_text(alloc, place, step)? {
        return Ok(true);
    }
    is_mended_by_item(alloc, place, step, inner)
}

/// Whether what stands behind a step is responsible for the error.
pub(crate) fn is_responsible(
    alloc: Global,
    place: &Place<'_>,
    step: &Step,
) -> Result<bool, AllocError>
    requires limit { depth (view place.now.document.now) ≤ max_depth }
    requires place { value_at place.now.path.now (view place.now.document.now) ≡ Some (view place.now.here.now) }
    ensures { IfOk result (λ b. OnTrue b (IsResponsible place.now.error.now (view place.now.document.now) place.now.path.now step.now)) }
{
    let Some(inner) = inside(place.here, step) else {
        return Ok(false);
    };
    let refused = is_refused_at(alloc, place, step, inner)?;
    if !refused {
        return Ok(false);
    }
    let mended = is_mended(alloc, place, step, inner)?;
    Ok(mended)
}
