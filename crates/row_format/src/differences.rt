//! What differs in a row, and the lines that are printed for it.

use std::alloc::{AllocError, Global};

/// Notes what differs in a line of its own.
pub fn note(differences: &mut String, what: &str) -> Result<(), AllocError> {
    differences.push_str("  ")?;
    differences.push_str(what)?;
    differences.push('\n')
}

/// Notes a difference where bytes are not those that are wanted.
pub fn compare(
    alloc: Global,
    differences: &mut String,
    what: &str,
    found: &[u8],
    wanted: &[u8],
) -> Result<(), AllocError> {
    if found == wanted {
        return Ok(());
    }
    let found = String::from_utf8_lossy(alloc, found)?;
    let line = format!(in alloc; "{what} is not as wanted, but:\n{found}")?;
    note(differences, line.as_str())
}

/// Adds the lines for a row to a report: its mark, its title, and what differs.
pub fn push_row(report: &mut String, title: &str, differences: &str) -> Result<(), AllocError> {
    report.push_str(if differences.is_empty() {
        "ok "
    } else {
        "DIFFERS "
    })?;
    report.push_str(title)?;
    report.push('\n')?;
    report.push_str(differences)
}
