//! What a program of rows prints for its documents.

use crate::differences::push_row;
use crate::document::{Entry, read};
use std::alloc::Global;
use std::rt::{Env, Files};
use std::{env, fs};

/// What the rows of a document share, over which each of them is tried.
pub trait Rows {
    /// What the entries before the first row say. It fails where one cannot be obeyed.
    fn shared(alloc: Global, entries: &[Entry]) -> anyhow::Result<Self>;

    /// What differs in the row of these entries. It fails where one cannot be obeyed.
    fn tried(&self, alloc: Global, entries: &[Entry]) -> anyhow::Result<String>;
}

/// The lines for the rows of a document.
fn report<R: Rows + Drop>(alloc: Global, text: &str) -> anyhow::Result<String> {
    let document = read(alloc, text)?;
    let rows = R::shared(alloc, document.common.as_slice())?;
    let mut report = String::new(alloc);
    for row in document.rows.as_slice() {
        let differences = rows.tried(alloc, row.entries.as_slice())?;
        push_row(&mut report, row.title.as_str(), differences.as_str())?;
    }
    Ok(report)
}

/// Prints, for each document that a word names, its name and the lines for its rows. It fails where a word is no UTF-8, a document
/// cannot be read, or a line of it cannot be obeyed.
pub fn print_reports<R: Rows + Drop>(
    rt: &(impl Env + Files + Print + AllocGlobal),
) -> anyhow::Result<()> {
    for name in env::args(rt)?.skip(1) {
        let text = fs::read_to_string(rt, name.as_str())?;
        let lines = report::<R>(rt.alloc(), text.as_str())?;
        println!(rt; "{name}")?;
        rt.print(lines)?;
    }
    Ok(())
}
