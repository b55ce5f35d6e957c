//! What is shown of a document for an error without a place.

ghost use Rattle.std.specs.Prelude.{[], ◌≡◌, ◌++◌, ◌-◌, ◌<◌, ◌^◌, IfOk, IfSome, List, OnOk, Some, length, ℕ};
ghost use Rattle.schema_causes.specs.Shown.{IfAny, ShowsByte, ShowsCause, ShowsIn, ShowsPath, ShowsStop, ShowsThing};
ghost use Rattle.schema_places.specs.Edges.{IsEdge};
ghost use Rattle.schema_places.specs.Things.{thing_of};
ghost use Rattle.schema_places.specs.declared.kinds.Thing.{Thing};
ghost use Rattle.schema_reader.specs.Formats.{format_of};
ghost use Rattle.schema_reader.specs.declared.format.Format.TheVariants.{Json};

use crate::lines::{has_scheme, push_path};
use crate::unread::{json_end, text_end};
use key_paths::path_of;
use refusal_places::push_place;
use schema_documents::SchemaError;
use schema_places::{thing_of, thing_place};
use schema_reader::Format;
use std::alloc::{AllocError, Global};

/// The place in the bytes of a document in ShExC with this base of the thing of which an error tells.
fn place_of_thing(
    alloc: Global,
    base: &str,
    error: &SchemaError,
    bytes: &[u8],
) -> Result<Option<u64>, AllocError>
    ensures { IfOk result (λ found. IfSome found (λ at. (thing : Thing) × (thing_of error.now ≡ Some thing) × IsEdge base.now thing bytes.now at)) }
{
    match thing_of(error) {
        Some(thing) => {
            if has_scheme(base) {
                thing_place(alloc, bytes, base, thing)
            } else {
                Ok(None)
            }
        }
        None => Ok(None),
    }
}

/// Appends the lines that show the place of the thing of which an error tells, in the bytes of a document in ShExC of this name and base.
fn push_thing(
    alloc: Global,
    name: &str,
    base: &str,
    error: &SchemaError,
    bytes: &[u8],
    out: &mut Vec<u8>,
) -> Result<(), AllocError>
    requires { length bytes.now < 2 ^ 64 - 1 }
    ensures { OnOk result ((shown : List ℕ) × IfAny shown (ShowsThing name.now base.now error.now bytes.now) × (out.new.items ≡ out.old.items ++ shown)) }
{
    match place_of_thing(alloc, base, error, bytes)? {
        Some(at) => push_place(alloc, name, bytes, at as usize, out),
        None => Ok(()),
    }
}

/// Appends the line that shows the path to what is responsible for an error, in the bytes of a document in ShExJ of this name.
fn push_responsible(
    alloc: Global,
    name: &str,
    error: &SchemaError,
    bytes: &[u8],
    out: &mut Vec<u8>,
) -> Result<(), AllocError>
    ensures { OnOk result ((shown : List ℕ) × IfAny shown (ShowsPath name.now error.now bytes.now) × (out.new.items ≡ out.old.items ++ shown)) }
{
    match path_of(alloc, bytes, error)? {
        Some(path) => push_path(alloc, name, &path, out),
        None => Ok(()),
    }
}

/// Appends the lines that show up to where the bytes of a document of this name are UTF-8, where they are not as a whole.
fn push_byte(alloc: Global, name: &str, bytes: &[u8], out: &mut Vec<u8>) -> Result<(), AllocError>
    requires { length bytes.now < 2 ^ 64 - 1 }
    ensures { OnOk result ((shown : List ℕ) × IfAny shown (ShowsByte name.now bytes.now) × (out.new.items ≡ out.old.items ++ shown)) }
{
    match text_end(bytes) {
        Some(at) => push_place(alloc, name, bytes, at, out),
        None => Ok(()),
    }
}

/// Appends the lines that show where the bytes of a document in ShExJ of this name stop to be JSON.
fn push_stop(alloc: Global, name: &str, bytes: &[u8], out: &mut Vec<u8>) -> Result<(), AllocError>
    requires { length bytes.now < 2 ^ 64 - 1 }
    ensures { OnOk result ((shown : List ℕ) × IfAny shown (ShowsStop name.now bytes.now) × (out.new.items ≡ out.old.items ++ shown)) }
{
    match json_end(alloc, bytes)? {
        Some(at) => push_place(alloc, name, bytes, at, out),
        None => Ok(()),
    }
}

/// Appends what is shown of a document in ShExJ of this name: where it stops to be JSON, or the path to what is responsible for the error.
fn push_json(
    alloc: Global,
    name: &str,
    error: &SchemaError,
    bytes: &[u8],
    out: &mut Vec<u8>,
) -> Result<(), AllocError>
    requires { length bytes.now < 2 ^ 64 - 1 }
    ensures { OnOk result ((shown : List ℕ) × IfAny shown (ShowsIn Json name.now [] error.now bytes.now) × (out.new.items ≡ out.old.items ++ shown)) }
{
    match error {
        SchemaError::Json => push_stop(alloc, name, bytes, out),
        _ => push_responsible(alloc, name, error, bytes, out),
    }
}

/// Appends what is shown of a document of this name and base that is a text, by its format.
fn push_in_format(
    alloc: Global,
    name: &str,
    base: &str,
    error: &SchemaError,
    bytes: &[u8],
    out: &mut Vec<u8>,
) -> Result<(), AllocError>
    requires { length bytes.now < 2 ^ 64 - 1 }
    ensures { OnOk result ((shown : List ℕ) × IfAny shown (ShowsIn (format_of name.now) name.now base.now error.now bytes.now) × (out.new.items ≡ out.old.items ++ shown)) }
{
    match Format::of_name(name) {
        Format::Compact => push_thing(alloc, name, base, error, bytes, out),
        Format::Json => push_json(alloc, name, error, bytes, out),
    }
}

/// Appends what is shown of a schema document of this name and base that is refused for an error without a place.
///
/// Of bytes that are not UTF-8 it is the first place from which on they are not (RFC 3629). In ShExC (ShEx 2.1, section 6) it is the place of
/// the thing of which the error tells, where the base has a scheme. In ShExJ (ShEx 2.1, appendix A) it is the place at which the reader of
/// JSON stood, or the line `NAME: PATH` of the keys and indices that lead to what is responsible for the error. A place is shown as
/// `push_place` shows it. Nothing is appended where no place or path is found. It fails for want of memory alone, and then some of the
/// lines may be there.
pub fn push_cause(
    alloc: Global,
    name: &str,
    base: &str,
    error: &SchemaError,
    bytes: &[u8],
    out: &mut Vec<u8>,
) -> Result<(), AllocError>
    requires { length bytes.now < 2 ^ 64 - 1 }
    ensures { OnOk result ((shown : List ℕ) × ShowsCause name.now base.now error.now bytes.now shown × (out.new.items ≡ out.old.items ++ shown)) }
{
    match error {
        SchemaError::NotUtf8 => push_byte(alloc, name, bytes, out),
        _ => push_in_format(alloc, name, base, error, bytes, out),
    }
}
