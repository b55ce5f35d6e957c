//! The files in memory that the lines of a document give.

use crate::document::Entry;
use crate::words::{bytes_of, cut};
use anyhow::bail;
use std::alloc::{AllocError, Global};

/// A file in memory.
#[derive(Drop)]
pub struct NamedFile {
    /// Its name.
    pub name: String,
    /// What it holds.
    pub bytes: Vec<u8>,
}

impl NamedFile {
    /// The file with this name and these bytes.
    fn new(alloc: Global, name: &str, bytes: Vec<u8>) -> Result<NamedFile, AllocError> {
        let name = String::from_str(alloc, name)?;
        Ok(NamedFile { name, bytes })
    }

    /// The file with this name and this text.
    pub fn of_text(alloc: Global, name: &str, text: &str) -> Result<NamedFile, AllocError> {
        let bytes = Vec::from_slice(alloc, text.as_bytes())?;
        NamedFile::new(alloc, name, bytes)
    }
}

/// The bytes of the last file with this name, if there is one.
pub fn bytes_named<'a>(files: &'a [NamedFile], name: &str) -> Option<&'a [u8]> {
    for file in files.iter().rev() {
        if file.name.as_str() == name {
            return Some(file.bytes.as_slice());
        }
    }
    None
}

/// Appends a text with a number in place of each `§`.
fn push_numbered(
    alloc: Global,
    text: &str,
    number: u32,
    bytes: &mut Vec<u8>,
) -> Result<(), AllocError> {
    let digits = number.to_string(alloc)?;
    for (place, piece) in text.split('§').enumerate() {
        if place > 0 {
            bytes.extend_from_slice(digits.as_bytes())?;
        }
        bytes.extend_from_slice(piece.as_bytes())?;
    }
    Ok(())
}

/// A text so many times, with the number from 0 on in place of each `§`.
fn repeated(alloc: Global, text: &str, times: u32) -> Result<Vec<u8>, AllocError> {
    let mut bytes = Vec::new(alloc);
    let is_numbered = text.contains('§');
    for number in 0..times {
        if is_numbered {
            push_numbered(alloc, text, number, &mut bytes)?;
        } else {
            bytes.extend_from_slice(text.as_bytes())?;
        }
    }
    Ok(bytes)
}

/// The file of a text that stands in it as many times as the line says before the name.
fn many_times(alloc: Global, line: &str, text: &str) -> anyhow::Result<NamedFile> {
    let Some((times, name)) = line.split_once(' ') else {
        bail!("a line `times` has a number and a name");
    };
    let bytes = repeated(alloc, text, times.parse::<u32>()?)?;
    Ok(NamedFile::new(alloc, name, bytes)?)
}

/// The file that an entry gives, if it gives one. It fails where its digits or its number are none.
pub fn file_of(alloc: Global, entry: &Entry) -> anyhow::Result<Option<NamedFile>> {
    let (name, text) = (entry.rest.as_str(), entry.text.as_str());
    let file = match entry.verb.as_str() {
        "file" => NamedFile::of_text(alloc, name, text)?,
        "text" => NamedFile::of_text(alloc, name, cut(text))?,
        "bytes" => NamedFile::new(alloc, name, bytes_of(alloc, text)?)?,
        "times" => many_times(alloc, name, cut(text))?,
        _ => return Ok(None),
    };
    Ok(Some(file))
}
