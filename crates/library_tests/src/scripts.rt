//! Edit scripts that are too large to be written down.

use crate::documents::repeated;
use session_script::{ScriptError, read_script};
use std::alloc::Global;
use std::test::Fail;

/// How many commands a script has, or why it is refused.
fn count(alloc: Global, source: &str) -> Result<usize, ScriptError> {
    let commands = read_script(alloc, source.as_bytes())?;
    Ok(commands.len())
}

/// A lexical form at its limit is read; an IRI beyond it is refused as a node and read as a label; many lines are read.
#[test]
fn terms_are_bounded_and_labels_and_lines_are_not(rt: HostRuntime) -> Result<(), Fail> {
    let alloc = rt.alloc();
    for (front, part, times, back, wanted) in [
        ("+ <a:s> <a:p> \"", "x", 16_777_216, "\" .", Ok(1)),
        (
            "\n? <a:",
            "x",
            16_777_215,
            ">@START",
            Err(ScriptError::Long(3)),
        ),
        ("? <a:n>@<a:", "x", 16_777_215, ">", Ok(1)),
        ("", "? <a:n>@START\n", 100_000, "", Ok(100_000)),
    ] {
        let text = repeated(alloc, front, part, times, back)?;
        assert_eq!(rt; count(alloc, text.as_str()), wanted, "{part}");
    }
    Ok(())
}
