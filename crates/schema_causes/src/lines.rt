//! Lines that show a path, and bases.

ghost use Rattle.std.specs.Prelude.{◌≡◌, ◌++◌, OnOk, is_some};
ghost use Rattle.iri_resolve.specs.Reference.{scheme_of};
ghost use Rattle.schema_causes.specs.Shown.{path_line};

use iri_resolve::split;
use json_paths::KeyPath;
use std::alloc::{AllocError, Global};

/// Whether references can be resolved against the text (RFC 3986, section 5.1).
pub(crate) fn has_scheme(base: &str) -> bool
    ensures { result ≡ is_some (scheme_of base.now) }
{
    split(base).scheme.is_some()
}

/// Appends the line that shows a path in the document of this name.
pub(crate) fn push_path(
    alloc: Global,
    name: &str,
    path: &KeyPath,
    out: &mut Vec<u8>,
) -> Result<(), AllocError>
    ensures { OnOk result (out.new.items ≡ out.old.items ++ path_line name.now path.now) }
{
    let text = path.to_text(alloc)?;
    let line = format!(in alloc; "{name}: {}\n", text.as_str())?;
    out.extend_from_slice(line.as_bytes())
}
