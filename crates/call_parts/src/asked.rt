//! The words and files of a caller.

ghost use Rattle.std.specs.Prelude.{[], Err, IfOk, None, OnOk, Some, map, string_bytes, ◌++◌, ◌∷◌, ◌≡◌, ◌≢◌};
ghost use Rattle.std.specs.Str.{IsUtf8};
ghost use Rattle.shex_io.specs.Files.{KeepsOtherNames};
ghost use Rattle.shex_io.specs.Sure.{contents_of};
ghost use Rattle.call_parts.specs.Given.{HasWrongName, HasWrongWord, HaveOwnNames, HoldsGiven, bytes_of_words};
ghost use Rattle.call_parts.specs.declared.calls.CallError.TheVariants as CallErrors;

use crate::calls::CallError;
use shex_io::SureFiles;
use std::alloc::{AllocError, Global};

/// A text of a caller.
#[repr(C)]
#[derive(Clone, Copy)]
pub struct GivenText<'a> {
    /// Its bytes, which are to be UTF-8.
    pub bytes: &'a [u8],
}

/// A file of a caller.
#[repr(C)]
#[derive(Clone, Copy)]
pub struct GivenFile<'a> {
    /// Its name.
    pub name: GivenText<'a>,
    /// What it holds.
    pub bytes: &'a [u8],
}

/// What a caller asks of a program.
#[repr(C)]
#[derive(Clone, Copy)]
pub struct Request<'a> {
    /// The words of the call, without the program's name.
    pub words: &'a [GivenText<'a>],
    /// The files that there are.
    pub files: &'a [GivenFile<'a>],
    /// The name of the file that is handed back.
    pub wanted: GivenText<'a>,
}

/// Adds a word.
fn push(words: &mut Vec<String>, word: String) -> Result<(), AllocError>
    ensures { OnOk result (words.new.items ≡ words.old.items ++ word ∷ []) }
{
    words.push(word)?;
    Ok(())
}

/// The words of a caller.
pub(crate) fn words_of(alloc: Global, given: &[GivenText<'_>]) -> Result<Vec<String>, CallError>
    ensures words { IfOk result (λ words. map string_bytes words.items ≡ bytes_of_words given.now) }
    ensures not_utf8 { result ≡ Err CallErrors.NotUtf8 → HasWrongWord given.now }
    ensures never_twice { result ≢ Err CallErrors.Twice }
{
    let mut words = Vec::new(alloc);
    for word in given {
        let Ok(text) = std::str::from_utf8(word.bytes) else {
            return Err(CallError::NotUtf8);
        };
        push(&mut words, String::from_str(alloc, text)?)?;
    }
    Ok(words)
}

/// Adds a file, if none has its name.
fn add_new(files: &mut SureFiles, file: &GivenFile<'_>) -> Result<(), CallError>
    ensures absent { OnOk result (contents_of files.old file.now.name.bytes.now ≡ None) }
    ensures set { OnOk result (contents_of files.new file.now.name.bytes.now ≡ Some file.now.bytes.now) }
    ensures others { OnOk result (KeepsOtherNames (contents_of files.old) (contents_of files.new) file.now.name.bytes.now) }
    ensures not_utf8 { result ≡ Err CallErrors.NotUtf8 → ¬ IsUtf8 file.now.name.bytes.now }
    ensures twice { result ≡ Err CallErrors.Twice → contents_of files.old file.now.name.bytes.now ≢ None }
{
    let Ok(name) = std::str::from_utf8(file.name.bytes) else {
        return Err(CallError::NotUtf8);
    };
    if files.file(name).is_some() {
        return Err(CallError::Twice);
    }
    files.add(name, file.bytes)?;
    Ok(())
}

/// The files of a caller.
pub(crate) fn files_of(alloc: Global, given: &[GivenFile<'_>]) -> Result<SureFiles, CallError>
    ensures files { IfOk result (λ files. HoldsGiven (contents_of files) given.now) }
    ensures own_names { OnOk result (HaveOwnNames given.now) }
    ensures not_utf8 { result ≡ Err CallErrors.NotUtf8 → HasWrongName given.now }
    ensures twice { result ≡ Err CallErrors.Twice → ¬ HaveOwnNames given.now }
{
    let mut files = SureFiles::new(alloc);
    for file in given {
        add_new(&mut files, file)?;
    }
    Ok(files)
}
