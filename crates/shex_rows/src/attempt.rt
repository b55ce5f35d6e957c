//! A row that is tried.

use crate::common::Common;
use crate::comparison::Comparison;
use crate::cuts::cut_each;
use crate::outcome::{Failing, call, files_with};
use crate::program::Call;
use anyhow::bail;
use row_format::{Entry, NamedFile, file_of, first_word, note, numbers_of};
use std::alloc::{AllocError, Global};

/// A row that is being tried: its files, what fails in the next call, the last call, what it gave and was said of that, and
/// what differs.
#[derive(Drop)]
struct Attempt {
    files: Vec<NamedFile>,
    failing: Failing,
    call: Option<Call>,
    comparison: Option<Comparison>,
    differences: String,
}

impl Attempt {
    /// A row that has called nothing.
    fn new(alloc: Global) -> Attempt {
        Attempt {
            files: Vec::new(alloc),
            failing: Failing::none(alloc),
            call: None,
            comparison: None,
            differences: String::new(alloc),
        }
    }

    /// Sets which calls of the files or of a sink fail in the next call.
    fn fail(&mut self, alloc: Global, line: &str) -> anyhow::Result<()> {
        let (place, numbers) = first_word(line);
        let numbers = numbers_of(alloc, numbers)?;
        match place {
            "files" => self.failing.files = numbers,
            "out" => self.failing.out = numbers,
            "err" => self.failing.err = numbers,
            _ => bail!("a line `fails` names files, out or err"),
        }
        Ok(())
    }

    /// Makes a call; what was said of the call before it is complete.
    fn run(&mut self, alloc: Global, common: &[NamedFile], made: Call) -> Result<(), AllocError> {
        self.end(alloc)?;
        let Failing { files, out, err } = std::mem::replace(
            &mut self.failing,
            Failing::none(alloc),
        );
        let files = files_with(alloc, files, common, self.files.as_slice())?;
        let outcome = call(alloc, &made, files, out, err)?;
        self.comparison = Some(Comparison::new(outcome));
        self.call = Some(made);
        Ok(())
    }

    /// Makes the call of each row that makes no other, where nothing was called.
    fn run_once(&mut self, alloc: Global, common: &Common) -> Result<(), AllocError> {
        if let (None, Some(made)) = (&self.comparison, &common.call) {
            let made = made.try_clone(alloc)?;
            self.run(alloc, common.files.as_slice(), made)?;
        }
        Ok(())
    }

    /// Makes the last call again with each proper prefix of a file in its place.
    fn cut(&mut self, alloc: Global, common: &[NamedFile], line: &str) -> anyhow::Result<()> {
        let (name, statuses) = first_word(line);
        let wanted = numbers_of(alloc, statuses)?;
        let Some(made) = &self.call else {
            bail!("a file is cut before there is a call");
        };
        cut_each(
            alloc,
            &mut self.differences,
            made,
            common,
            self.files.as_slice(),
            name,
            wanted.as_slice(),
        )
    }

    /// Compares what is said of the last call. A file that is said to be stored is there from now on.
    fn say(&mut self, alloc: Global, entry: &Entry) -> anyhow::Result<()> {
        let Some(comparison) = &mut self.comparison else {
            bail!("a line says something of a call before there is one");
        };
        comparison.say(alloc, &mut self.differences, entry)?;
        if entry.verb.as_str() == "stored" {
            let (name, text) = (entry.rest.as_str(), entry.text.as_str());
            self.files.push(NamedFile::of_text(alloc, name, text)?)?;
        }
        Ok(())
    }

    /// Does what an entry says.
    fn obey(&mut self, alloc: Global, common: &Common, entry: &Entry) -> anyhow::Result<()> {
        if let Some(file) = file_of(alloc, entry)? {
            self.files.push(file)?;
            return Ok(());
        }
        if let Some(made) = Call::of_entry(alloc, entry)? {
            return Ok(self.run(alloc, common.files.as_slice(), made)?);
        }
        match entry.verb.as_str() {
            "fails" => return self.fail(alloc, entry.rest.as_str()),
            "cut" => return self.cut(alloc, common.files.as_slice(), entry.rest.as_str()),
            _ => {}
        }
        self.run_once(alloc, common)?;
        self.say(alloc, entry)
    }

    /// Ends what is said of the last call, if there is one.
    fn end(&mut self, alloc: Global) -> Result<(), AllocError> {
        match &self.comparison {
            Some(comparison) => comparison.end(alloc, &mut self.differences),
            None => Ok(()),
        }
    }

    /// What differs in the row, in which no call is to fail behind the last one.
    fn into_differences(mut self, alloc: Global) -> anyhow::Result<String> {
        if !self.failing.is_none() {
            bail!("a row says what fails behind its last call");
        }
        self.end(alloc)?;
        if self.comparison.is_none() {
            note(&mut self.differences, "nothing was called")?;
        }
        Ok(self.differences)
    }
}

/// What differs in the row of these entries, with what all rows have.
pub fn tried(alloc: Global, common: &Common, entries: &[Entry]) -> anyhow::Result<String> {
    let mut attempt = Attempt::new(alloc);
    for entry in entries {
        attempt.obey(alloc, common, entry)?;
    }
    attempt.into_differences(alloc)
}
