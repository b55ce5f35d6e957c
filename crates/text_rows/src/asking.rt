//! What a row asks of single calls, and what they have to answer.

use crate::questions::{Named, answer};
use anyhow::bail;
use row_format::{Entry, NamedFile, bytes_of, compare, cut, file_of, note};
use std::alloc::{AllocError, Global};

/// The last answer to a question, until it is compared, and whether anything was asked.
#[derive(Drop)]
struct Asking {
    answer: Option<String>,
    has_asked: bool,
}

/// Asks what stands before the arrow of a line, and compares the answer with what stands behind it.
fn ask_line(
    alloc: Global,
    differences: &mut String,
    files: Named<'_>,
    call: &str,
    line: &str,
) -> anyhow::Result<()> {
    let Some((question, wanted)) = line.split_once(" -> ") else {
        bail!("a line of a table has no arrow");
    };
    let found = answer(alloc, files, call, question.as_bytes())?;
    compare(
        alloc,
        differences,
        line,
        found.as_bytes(),
        wanted.as_bytes(),
    )?;
    Ok(())
}

/// Asks each line of a table.
fn ask_each(
    alloc: Global,
    differences: &mut String,
    files: Named<'_>,
    call: &str,
    table: &str,
) -> anyhow::Result<()> {
    for line in table.lines() {
        ask_line(alloc, differences, files, call, line)?;
    }
    Ok(())
}

/// What a call answers to a text, which is asked as bytes in hexadecimal digits or as it is.
fn answered(
    alloc: Global,
    files: Named<'_>,
    verb: &str,
    call: &str,
    text: &str,
) -> anyhow::Result<String> {
    match verb {
        "hex" => answer(alloc, files, call, bytes_of(alloc, text)?.as_slice()),
        "ask" => answer(alloc, files, call, cut(text).as_bytes()),
        _ => bail!("no line begins with this word"),
    }
}

impl Asking {
    /// Compares the last answer with the one that is wanted.
    fn give(
        &mut self,
        alloc: Global,
        differences: &mut String,
        wanted: &str,
    ) -> anyhow::Result<()> {
        let Some(found) = self.answer.take() else {
            bail!("a line `gives` follows no question");
        };
        compare(
            alloc,
            differences,
            "the answer",
            found.as_bytes(),
            wanted.as_bytes(),
        )?;
        Ok(())
    }

    /// Asks what a line with its text says, or compares the answer to what was asked.
    fn obey(
        &mut self,
        alloc: Global,
        differences: &mut String,
        files: Named<'_>,
        entry: &Entry,
    ) -> anyhow::Result<()> {
        let (verb, call, text) = (
            entry.verb.as_str(),
            entry.rest.as_str(),
            entry.text.as_str(),
        );
        if verb == "gives" {
            return self.give(alloc, differences, cut(text));
        }
        self.end(differences)?;
        self.has_asked = true;
        if verb == "each" {
            return ask_each(alloc, differences, files, call, text);
        }
        self.answer = Some(answered(alloc, files, verb, call, text)?);
        Ok(())
    }

    /// Notes the difference where the last answer was compared with nothing.
    fn end(&self, differences: &mut String) -> Result<(), AllocError> {
        if self.answer.is_some() {
            note(differences, "no line `gives` follows the question")?;
        }
        Ok(())
    }
}

/// What differs in the row of these entries, with the files that all rows have.
pub fn tried(alloc: Global, common: &[NamedFile], entries: &[Entry]) -> anyhow::Result<String> {
    let mut differences = String::new(alloc);
    let mut own: Vec<NamedFile> = Vec::new(alloc);
    let mut asking = Asking {
        answer: None,
        has_asked: false,
    };
    for entry in entries {
        if let Some(file) = file_of(alloc, entry)? {
            own.push(file)?;
        } else {
            let own = own.as_slice();
            let files = Named { common, own };
            asking.obey(alloc, &mut differences, files, entry)?;
        }
    }
    asking.end(&mut differences)?;
    if !asking.has_asked {
        note(&mut differences, "nothing was asked")?;
    }
    Ok(differences)
}
