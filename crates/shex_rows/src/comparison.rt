//! What is said of a call, beside what it gave.

use crate::outcome::Outcome;
use anyhow::bail;
use row_format::{Entry, compare, note};
use shex_io::{MemFiles, MemSink};
use std::alloc::{AllocError, Global};

/// What a call printed to a sink, and whether anything was said of it.
#[derive(Drop)]
struct Printed {
    sink: MemSink,
    is_said: bool,
}

/// A call, and what was said of it so far.
#[derive(Drop)]
pub struct Comparison {
    status: u8,
    is_status_said: bool,
    out: Printed,
    err: Printed,
    files: MemFiles,
}

/// Notes a difference where a call has another status.
fn compare_status(
    alloc: Global,
    differences: &mut String,
    found: u8,
    wanted: &str,
) -> anyhow::Result<()> {
    if wanted.parse::<u8>()? != found {
        let line = format!(in alloc; "the status is {found}, and not {wanted}")?;
        note(differences, line.as_str())?;
    }
    Ok(())
}

impl Printed {
    /// Nothing was said of a sink.
    fn new(sink: MemSink) -> Printed {
        Printed {
            sink,
            is_said: false,
        }
    }

    /// Notes the difference where the sink of a name did not get the text that is said.
    fn say(
        &mut self,
        alloc: Global,
        differences: &mut String,
        name: &str,
        wanted: &str,
    ) -> Result<(), AllocError> {
        self.is_said = true;
        compare(
            alloc,
            differences,
            name,
            self.sink.bytes(),
            wanted.as_bytes(),
        )
    }

    /// Notes the difference where the sink of a name got something, and nothing was said of it.
    fn end(&self, alloc: Global, differences: &mut String, name: &str) -> Result<(), AllocError> {
        if self.is_said {
            return Ok(());
        }
        compare(alloc, differences, name, self.sink.bytes(), b"")
    }
}

impl Comparison {
    /// Nothing was said of a call.
    pub fn new(outcome: Outcome) -> Comparison {
        let Outcome {
            status,
            out,
            err,
            files,
        } = outcome;
        Comparison {
            status,
            is_status_said: false,
            out: Printed::new(out),
            err: Printed::new(err),
            files,
        }
    }

    /// Notes the difference where what is said of the stored file of a name is not so.
    fn compare_stored(
        &self,
        alloc: Global,
        differences: &mut String,
        name: &str,
        wanted: &str,
    ) -> Result<(), AllocError> {
        match self.files.file(name) {
            Some(found) => compare(alloc, differences, name, found, wanted.as_bytes()),
            None => {
                let line = format!(in alloc; "{name} is not stored")?;
                note(differences, line.as_str())
            }
        }
    }

    /// Notes the difference where a file is there that is said to be absent.
    fn compare_absent(
        &self,
        alloc: Global,
        differences: &mut String,
        name: &str,
    ) -> Result<(), AllocError> {
        if self.files.file(name).is_some() {
            let line = format!(in alloc; "{name} is there")?;
            note(differences, line.as_str())?;
        }
        Ok(())
    }

    /// Notes the difference where what an entry says of the call is not so.
    pub fn say(
        &mut self,
        alloc: Global,
        differences: &mut String,
        entry: &Entry,
    ) -> anyhow::Result<()> {
        let (verb, rest, text) = (
            entry.verb.as_str(),
            entry.rest.as_str(),
            entry.text.as_str(),
        );
        match verb {
            "status" => {
                self.is_status_said = true;
                compare_status(alloc, differences, self.status, rest)?;
            }
            "out" => self.out.say(alloc, differences, verb, text)?,
            "err" => self.err.say(alloc, differences, verb, text)?,
            "stored" => self.compare_stored(alloc, differences, rest, text)?,
            "absent" => self.compare_absent(alloc, differences, rest)?,
            _ => bail!("no line begins with this word"),
        }
        Ok(())
    }

    /// Notes the differences of what nothing was said of: nothing was to be printed, and the status was to be said.
    pub fn end(&self, alloc: Global, differences: &mut String) -> Result<(), AllocError> {
        self.out.end(alloc, differences, "out")?;
        self.err.end(alloc, differences, "err")?;
        if !self.is_status_said {
            note(differences, "no status is said")?;
        }
        Ok(())
    }
}
