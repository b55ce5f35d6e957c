//! Places in bytes that are not UTF-8, or no JSON.

ghost use Rattle.std.specs.Prelude.{◌≡◌, ◌≤◌, IfOk, IfSome, None, length};
ghost use Rattle.std.specs.Str.{IsUtf8, IsValidUpTo};
ghost use Rattle.serde_json.specs.Read.{read};

use serde_json::{Error, Value};
use std::alloc::{AllocError, Global};

/// Up to where bytes are UTF-8 that are not UTF-8 as a whole (RFC 3629).
pub(crate) fn text_end(bytes: &[u8]) -> Option<usize>
    ensures { IfSome result (λ at. (¬ IsUtf8 bytes.now) × IsValidUpTo bytes.now at) }
{
    match std::str::from_utf8(bytes) {
        Ok(_) => None,
        Err(error) => Some(error.valid_up_to()),
    }
}

/// Where the line of a number begins, of which the first is 1.
fn line_start(bytes: &[u8], line: usize) -> usize
    ensures { result ≤ length bytes.now }
{
    let mut left = line;
    for (at, byte) in bytes.iter().enumerate() {
        if left <= 1 {
            return at;
        }
        if *byte == b'\n' {
            left -= 1;
        }
    }
    bytes.len()
}

/// The place at which the reader of JSON stood when it refused the bytes.
fn stop_place(bytes: &[u8], error: &Error) -> usize {
    if error.is_eof() {
        return bytes.len();
    }
    let column = error.column();
    line_start(bytes, error.line()).saturating_add(column.saturating_sub(1))
}

/// A place in bytes that are a text and no JSON (RFC 8259): that at which the reader of JSON stood.
pub(crate) fn json_end(alloc: Global, bytes: &[u8]) -> Result<Option<usize>, AllocError>
    ensures { IfOk result (λ found. IfSome found (λ at. IsUtf8 bytes.now × (read bytes.now ≡ None))) }
{
    let Ok(text) = std::str::from_utf8(bytes) else {
        return Ok(None);
    };
    match Value::from_str(alloc, text) {
        Ok(_) => Ok(None),
        Err(error) => {
            if error.is_memory() {
                return Err(AllocError);
            }
            Ok(Some(stop_place(bytes, &error)))
        }
    }
}
