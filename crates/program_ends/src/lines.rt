//! The line that says what is wrong.

ghost use Rattle.std.specs.Prelude.{◌≡◌, IfOk, string_bytes};
ghost use Rattle.program_ends.specs.Lines.{error_line};

use std::alloc::{AllocError, Global};

/// The line `PROGRAM: PLACE: WHAT` with a line feed, which says what is wrong at a place: in a file of this name, or in the
/// words. It fails where memory runs out.
pub fn error_line(
    alloc: Global,
    program: &str,
    place: &str,
    what: &str,
) -> Result<String, AllocError>
    ensures { IfOk result (λ s. string_bytes s ≡ error_line program.now place.now what.now) }
{
    format!(in alloc; "{program}: {place}: {what}\n")
}
