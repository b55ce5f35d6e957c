//! What all rows of a document have.

use crate::asking::tried;
use anyhow::bail;
use row_format::{Entry, NamedFile, Rows, file_of};
use std::alloc::Global;

/// The files that stand before the first row.
#[derive(Drop)]
pub struct Common {
    files: Vec<NamedFile>,
}

impl Rows for Common {
    fn shared(alloc: Global, entries: &[Entry]) -> anyhow::Result<Common> {
        let mut files = Vec::new(alloc);
        for entry in entries {
            let Some(file) = file_of(alloc, entry)? else {
                bail!("only files stand before the first row");
            };
            files.push(file)?;
        }
        Ok(Common { files })
    }

    fn tried(&self, alloc: Global, entries: &[Entry]) -> anyhow::Result<String> {
        tried(alloc, self.files.as_slice(), entries)
    }
}
