//! A value that is changed at the end of a path.

ghost use Rattle.std.specs.Prelude.{◌≡◌, IfOk};
ghost use Rattle.serde_json.specs.View.{view};
ghost use Rattle.json_paths.specs.Paths.{with_at};

use crate::steps::{Step, inside, with_step};
use serde_json::Value;
use std::alloc::{AllocError, Global};

/// A copy of the value with another at the end of a path. Each array on the path ends there, and where the path does not
/// lead on, the value stays from there on.
pub fn with_at(alloc: Global, value: &Value, path: &[Step], new: Value) -> Result<Value, AllocError>
    ensures { IfOk result (λ v. view v ≡ with_at path.now (view new) (view value.now)) }
{
    let Some((step, rest)) = path.split_first() else {
        return Ok(new);
    };
    match inside(value, step) {
        Some(child) => {
            let changed = with_at(alloc, child, rest, new)?;
            with_step(alloc, value, step, changed)
        }
        None => value.clone(),
    }
}
