//! What all rows of a document have.

use crate::attempt::tried;
use crate::program::Call;
use anyhow::bail;
use row_format::{Entry, NamedFile, Rows, file_of};
use std::alloc::Global;

/// What stands before the first row: files, and the call of each row that makes no other.
#[derive(Drop)]
pub struct Common {
    /// The files.
    pub files: Vec<NamedFile>,
    /// The call.
    pub call: Option<Call>,
}

impl Common {
    /// Takes up what an entry says.
    fn take_up(&mut self, alloc: Global, entry: &Entry) -> anyhow::Result<()> {
        if let Some(file) = file_of(alloc, entry)? {
            self.files.push(file)?;
            return Ok(());
        }
        let Some(call) = Call::of_entry(alloc, entry)? else {
            bail!("only files and a call stand before the first row");
        };
        self.call = Some(call);
        Ok(())
    }
}

impl Rows for Common {
    fn shared(alloc: Global, entries: &[Entry]) -> anyhow::Result<Common> {
        let mut common = Common {
            files: Vec::new(alloc),
            call: None,
        };
        for entry in entries {
            common.take_up(alloc, entry)?;
        }
        Ok(common)
    }

    fn tried(&self, alloc: Global, entries: &[Entry]) -> anyhow::Result<String> {
        tried(alloc, self, entries)
    }
}
