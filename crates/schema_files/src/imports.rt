//! The documents that are imported.

ghost use Rattle.std.specs.Prelude.{◌≡◌, ◌<◌, ◌+◌, ◌++◌, ◌⊎◌, encode_utf8_all, IfErr, IfOk, length, List, OnOk, Some};
ghost use Rattle.std.specs.List.{list_any};
ghost use Rattle.std.specs.Str.{bytes_eq};
ghost use Rattle.shexc_reader.specs.Laws.{HasScheme};
ghost use Rattle.schema_files.specs.declared.error.FilesError.TheVariants as errors;
ghost use Rattle.schema_files.specs.declared.error.FilesRefusal.TheVariants as refusals;
ghost use Rattle.schema_files.specs.Held.{AreAll, AreFollowedTo, ComesTo, IsFollowed, WereRead, and_next, asked_of, imports_at, sources_of};
ghost use Rattle.schema_files.specs.Named as named;
ghost use Rattle.schema_files.specs.Refusals.{Explains, FaultsAs};
ghost use Rattle.schema_files.specs.Sources.{is_read};

use crate::asked::Asked;
use crate::document::read_file;
use crate::error::{FilesError, FilesRefusal, SchemaFile};
use crate::held::Held;
use rdf_terms::text::Text;
use shex_io::Files;
use std::alloc::{AllocFailed, Global};

/// Whether one of the documents has a file of this name.
fn has_file(asked: &Asked<'_>, held: &[Held], name: &str) -> bool
    ensures { result ≡ list_any (λ document. bytes_eq (named.name_of (asked_of asked.now) document.file) name.now) held.now }
{
    held.iter()
        .any(|document| asked.is_named(document.file, name))
}

/// Whether a file is that of one of the documents.
fn is_read(asked: &Asked<'_>, held: &[Held], file: SchemaFile) -> bool
    ensures { result ≡ is_read (asked_of asked.now) (sources_of (asked_of asked.now) held.now) (Some file) }
{
    has_file(asked, held, asked.name(file))
}

/// Why the documents are not read where no word names a file for an import of the document in a file.
fn lacks_word(alloc: Global, by: SchemaFile, iri: &Text) -> FilesError
    ensures { (result ≡ errors.Memory) ⊎ (result ≡ errors.Refused (refusals.Import by iri.now)) }
{
    match iri.try_clone(alloc) {
        Ok(iri) => FilesError::Refused(FilesRefusal::Import(by, iri)),
        Err(_) => FilesError::Memory,
    }
}

/// The document that is imported by an IRI, which has a scheme, unless its file was read; all imports before this one are followed.
fn read_import<F: Files>(
    alloc: Global,
    files: &mut F,
    asked: &Asked<'_>,
    held: &[Held],
    by: SchemaFile,
    iri: &Text,
) -> Result<Option<Held>, FilesError>
    requires read { WereRead (F.told files.old) asked.now held.now }
    requires next { ComesTo (asked_of asked.now) (sources_of (asked_of asked.now) held.now) (record { by = by; iri = encode_utf8_all iri.now }) }
    requires scheme { HasScheme iri.now }
    ensures read { IfOk result (λ next. WereRead (F.told files.old) asked.now (and_next held.now next)) }
    ensures followed { IfOk result (λ next. IsFollowed asked.now (and_next held.now next) (encode_utf8_all iri.now)) }
    ensures cause { IfErr result (Explains (F.told files.old) (asked_of asked.now)) }
    ensures faults { IfErr result (FaultsAs (asked_of asked.now) (F.faults files.old) (F.faults files.new) (F.blame files.new) (F.act files.new)) }
    ensures faults_stay { OnOk result (F.faults files.new ≡ F.faults files.old) }
    ensures told_stays { F.told files.new ≡ F.told files.old }
{
    let file = match asked.file_for(iri) {
        Some(file) => file,
        None => return Err(lacks_word(alloc, by, iri)),
    };
    if is_read(asked, held, file) {
        return Ok(None);
    }
    let next = read_file(alloc, files, asked, file)?;
    Ok(Some(next))
}

/// Adds a document, if there is one.
fn add(held: &mut Vec<Held>, next: Option<Held>) -> Result<(), AllocFailed<Held>>
    ensures { OnOk result (held.new.items ≡ and_next held.old.items next) }
{
    match next {
        Some(next) => held.push(next),
        None => Ok(()),
    }
}

/// Follows the import of this number of the document at this place; all imports before it are followed.
fn follow_import<F: Files>(
    alloc: Global,
    files: &mut F,
    asked: &Asked<'_>,
    held: &mut Vec<Held>,
    at: usize,
    number: usize,
) -> Result<(), FilesError>
    requires inside { at < length held.old.items }
    requires number { number < length (imports_at (sources_of (asked_of asked.now) held.old.items) at) }
    requires read { WereRead (F.told files.old) asked.now held.old.items }
    requires followed { AreFollowedTo asked.now held.old.items at number }
    ensures grown { OnOk result ((more : List Held) × (held.new.items ≡ held.old.items ++ more)) }
    ensures read { OnOk result (WereRead (F.told files.old) asked.now held.new.items) }
    ensures followed { OnOk result (AreFollowedTo asked.now held.new.items at (number + 1)) }
    ensures cause { IfErr result (Explains (F.told files.old) (asked_of asked.now)) }
    ensures faults { IfErr result (FaultsAs (asked_of asked.now) (F.faults files.old) (F.faults files.new) (F.blame files.new) (F.act files.new)) }
    ensures faults_stay { OnOk result (F.faults files.new ≡ F.faults files.old) }
    ensures told_stays { F.told files.new ≡ F.told files.old }
{
    let documents = held.as_slice();
    let document = &documents[at];
    let iri = document.import(number);
    let next = read_import(alloc, files, asked, documents, document.file, iri)?;
    add(held, next)?;
    Ok(())
}

/// How many imports the document at this place has.
fn import_count(held: &[Held], at: usize) -> usize
    requires { at < length held.now }
    ensures { (a : named.Asked) → length (imports_at (sources_of a held.now) at) ≡ result }
{
    held[at].import_count()
}

/// Follows the imports of the document at this place; those of all documents before it are followed.
fn follow_imports<F: Files>(
    alloc: Global,
    files: &mut F,
    asked: &Asked<'_>,
    held: &mut Vec<Held>,
    at: usize,
) -> Result<(), FilesError>
    requires inside { at < length held.old.items }
    requires read { WereRead (F.told files.old) asked.now held.old.items }
    requires followed { AreFollowedTo asked.now held.old.items at 0 }
    ensures inside { OnOk result (at < length held.new.items) }
    ensures read { OnOk result (WereRead (F.told files.old) asked.now held.new.items) }
    ensures followed { OnOk result (AreFollowedTo asked.now held.new.items (at + 1) 0) }
    ensures cause { IfErr result (Explains (F.told files.old) (asked_of asked.now)) }
    ensures faults { IfErr result (FaultsAs (asked_of asked.now) (F.faults files.old) (F.faults files.new) (F.blame files.new) (F.act files.new)) }
    ensures faults_stay { OnOk result (F.faults files.new ≡ F.faults files.old) }
    ensures told_stays { F.told files.new ≡ F.told files.old }
{
    let count = import_count(held.as_slice(), at);
    for number in 0..count {
        follow_import(alloc, files, asked, held, at, number)?;
    }
    Ok(())
}

/// Follows the imports of all documents, those of the documents that are read then too.
pub fn follow_all<F: Files>(
    alloc: Global,
    files: &mut F,
    asked: &Asked<'_>,
    held: &mut Vec<Held>,
) -> Result<(), FilesError>
    requires read { WereRead (F.told files.old) asked.now held.old.items }
    ensures sources { OnOk result (AreAll (F.told files.old) asked.now held.new.items) }
    ensures cause { IfErr result (Explains (F.told files.old) (asked_of asked.now)) }
    ensures faults { IfErr result (FaultsAs (asked_of asked.now) (F.faults files.old) (F.faults files.new) (F.blame files.new) (F.act files.new)) }
    ensures faults_stay { OnOk result (F.faults files.new ≡ F.faults files.old) }
    ensures told_stays { F.told files.new ≡ F.told files.old }
{
    let mut at = 0;
    while at < held.len() {
        follow_imports(alloc, files, asked, held, at)?;
        at += 1;
    }
    Ok(())
}
