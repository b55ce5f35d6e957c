//! One call, and what it gave.

use crate::program::Call;
use row_format::{NamedFile, words_of};
use shex_io::{MemFiles, MemSink};
use std::alloc::{AllocError, Global};

/// Which calls fail, by their numbers from 0.
#[derive(Drop)]
pub struct Failing {
    /// Those of the files.
    pub files: Vec<u64>,
    /// Those of the output.
    pub out: Vec<u64>,
    /// Those of the error stream.
    pub err: Vec<u64>,
}

impl Failing {
    /// No call fails.
    pub fn none(alloc: Global) -> Failing {
        Failing {
            files: Vec::new(alloc),
            out: Vec::new(alloc),
            err: Vec::new(alloc),
        }
    }

    /// Whether no call fails.
    pub fn is_none(&self) -> bool {
        self.files.is_empty() && self.out.is_empty() && self.err.is_empty()
    }
}

/// What a call gave.
#[derive(Drop)]
pub struct Outcome {
    /// Its status.
    pub status: u8,
    /// What it printed to the output.
    pub out: MemSink,
    /// What it printed to the error stream.
    pub err: MemSink,
    /// The files behind it.
    pub files: MemFiles,
}

/// Adds files to those in memory, each in the place of an earlier one of its name.
fn add_all(files: &mut MemFiles, added: &[NamedFile]) -> Result<(), AllocError> {
    for file in added {
        files.add(file.name.as_str(), file.bytes.as_slice())?;
    }
    Ok(())
}

/// The files that all rows have and those of one row, of which the calls of these numbers fail.
pub fn files_with(
    alloc: Global,
    failing: Vec<u64>,
    common: &[NamedFile],
    own: &[NamedFile],
) -> Result<MemFiles, AllocError> {
    let mut files = MemFiles::new(alloc, failing);
    add_all(&mut files, common)?;
    add_all(&mut files, own)?;
    Ok(files)
}

/// Makes a call over files; the calls of the sinks of these numbers fail.
pub fn call(
    alloc: Global,
    call: &Call,
    files: MemFiles,
    out: Vec<u64>,
    err: Vec<u64>,
) -> Result<Outcome, AllocError> {
    let mut files = files;
    let mut out = MemSink::new(alloc, out);
    let mut err = MemSink::new(alloc, err);
    let words = words_of(alloc, call.words.as_str())?;
    let status = call
        .program
        .call(alloc, words.as_slice(), &mut files, &mut out, &mut err);
    Ok(Outcome {
        status,
        out,
        err,
        files,
    })
}
