//! The JSON value of a document.

ghost use Rattle.std.specs.Prelude.{◌≡◌, ◌≤◌, IfOk, IfSome, Some};
ghost use Rattle.serde_json.specs.Data.{depth};
ghost use Rattle.serde_json.specs.Read.{max_depth, read};
ghost use Rattle.serde_json.specs.View.{view};

use serde_json::Value;
use std::alloc::{AllocError, Global};

/// The value that the bytes are as JSON, if they are.
pub(crate) fn value_of(alloc: Global, source: &[u8]) -> Result<Option<Value>, AllocError>
    ensures value { IfOk result (λ o. IfSome o (λ v. read source.now ≡ Some (view v))) }
    ensures depth { IfOk result (λ o. IfSome o (λ v. depth (view v) ≤ max_depth)) }
{
    let Ok(text) = str::from_utf8(source) else {
        return Ok(None);
    };
    match Value::from_str(alloc, text) {
        Ok(value) => Ok(Some(value)),
        Err(error) => {
            if error.is_memory() {
                return Err(AllocError);
            }
            Ok(None)
        }
    }
}
