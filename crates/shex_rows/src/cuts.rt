//! Files in whose place each of their proper prefixes is put.

use crate::outcome::{call, files_with};
use crate::program::Call;
use anyhow::bail;
use row_format::{NamedFile, bytes_named, note};
use std::alloc::{AllocError, Global};

/// The status of a call in which the file of this name has these bytes.
fn status_with(
    alloc: Global,
    made: &Call,
    common: &[NamedFile],
    own: &[NamedFile],
    name: &str,
    bytes: &[u8],
) -> Result<u8, AllocError> {
    let mut files = files_with(alloc, Vec::new(alloc), common, own)?;
    files.add(name, bytes)?;
    let outcome = call(alloc, made, files, Vec::new(alloc), Vec::new(alloc))?;
    Ok(outcome.status)
}

/// Makes a call again with each proper prefix of a file in its place, and notes where it ends with a status that is
/// not among those that are wanted.
pub fn cut_each(
    alloc: Global,
    differences: &mut String,
    made: &Call,
    common: &[NamedFile],
    own: &[NamedFile],
    name: &str,
    wanted: &[u64],
) -> anyhow::Result<()> {
    let Some(bytes) = bytes_named(own, name) else {
        bail!("the row has no file of this name");
    };
    for size in 0..bytes.len() {
        let status = status_with(alloc, made, common, own, name, &bytes[..size])?;
        if !wanted.contains(&u64::from(status)) {
            let line = format!(in alloc; "cut behind {size} bytes it ends with {status}")?;
            note(differences, line.as_str())?;
        }
    }
    Ok(())
}
