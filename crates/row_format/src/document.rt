//! A document of rows, as its lines say.

use crate::words::first_word;
use anyhow::bail;
use std::alloc::{AllocError, Global};

/// A line that says something.
#[derive(Drop)]
pub struct Entry {
    /// Its first word.
    pub verb: String,
    /// What stands behind this word and a space.
    pub rest: String,
    /// The text that belongs to it, each line of which is ended by a line feed.
    pub text: String,
}

/// A row.
#[derive(Drop)]
pub struct Row {
    /// Its title.
    pub title: String,
    /// What it says, in its order.
    pub entries: Vec<Entry>,
}

/// A document of rows.
#[derive(Drop)]
pub struct Document {
    /// What it says before the first row.
    pub common: Vec<Entry>,
    /// Its rows, in its order.
    pub rows: Vec<Row>,
}

/// What a line adds to the text of the line before it, if it belongs to one.
fn continued(line: &str) -> Option<&str> {
    if line == "|" {
        return Some("");
    }
    line.strip_prefix("| ")
}

impl Document {
    /// The entries behind which the next one goes: those of the last row, or those before the first row.
    fn last_entries(&mut self) -> &mut Vec<Entry> {
        match self.rows.last_mut() {
            Some(row) => &mut row.entries,
            None => &mut self.common,
        }
    }

    /// Adds a line to the text of the entry before it.
    fn continue_text(&mut self, text: &str) -> anyhow::Result<()> {
        let Some(last) = self.last_entries().last_mut() else {
            bail!("a text belongs to no line");
        };
        last.text.push_str(text)?;
        last.text.push('\n')?;
        Ok(())
    }

    /// Adds a line that says something, which may begin a row.
    fn begin_entry(&mut self, alloc: Global, line: &str) -> Result<(), AllocError> {
        let (verb, rest) = first_word(line);
        let rest = String::from_str(alloc, rest)?;
        if verb == "row" {
            self.rows.push(Row {
                title: rest,
                entries: Vec::new(alloc),
            })?;
            return Ok(());
        }
        let verb = String::from_str(alloc, verb)?;
        self.last_entries().push(Entry {
            verb,
            rest,
            text: String::new(alloc),
        })?;
        Ok(())
    }

    /// Adds a line.
    fn add(&mut self, alloc: Global, line: &str) -> anyhow::Result<()> {
        if let Some(text) = continued(line) {
            return self.continue_text(text);
        }
        if !line.is_empty() && !line.starts_with('#') {
            self.begin_entry(alloc, line)?;
        }
        Ok(())
    }
}

/// The document of a text. It fails where a text stands behind no line, and for want of memory.
pub fn read(alloc: Global, text: &str) -> anyhow::Result<Document> {
    let mut document = Document {
        common: Vec::new(alloc),
        rows: Vec::new(alloc),
    };
    for line in text.lines() {
        document.add(alloc, line)?;
    }
    Ok(document)
}
