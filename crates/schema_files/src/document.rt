//! The document in a file.

ghost use Rattle.std.specs.Prelude.{◌≡◌, IfErr, IfOk, IsSome, OnOk};
ghost use Rattle.iri_resolve.specs.Reference.{scheme_of};
ghost use Rattle.shex_io.specs.Files.{Told};
ghost use Rattle.shex_io.specs.Fetching.{IsFile};
ghost use Rattle.schema_files.specs.Held.{asked_of, source_of};
ghost use Rattle.schema_files.specs.Named.{base_for, name_of};
ghost use Rattle.schema_files.specs.Refusals.{Explains, FaultsAs, IsNext, Reaches};
ghost use Rattle.schema_files.specs.Sources.{HoldsSource};
ghost use Rattle.schema_files.specs.Stops.{IsRefusalOf};

use crate::asked::Asked;
use crate::digests::digest_of;
use crate::error::{FilesError, FilesRefusal, SchemaFile};
use crate::held::Held;
use schema_documents::SchemaError;
use schema_reader::Format;
use shex_io::{FetchError, Files, fetch};
use std::alloc::Global;

/// The bytes of a file.
fn fetch_file<F: Files>(
    alloc: Global,
    files: &mut F,
    asked: &Asked<'_>,
    file: SchemaFile,
) -> Result<Vec<u8>, FilesError>
    ensures bytes { IfOk result (λ bytes. IsFile (F.told files.old) (name_of (asked_of asked.now) file) bytes.items) }
    ensures cause { IfErr result (λ e. Reaches (F.told files.old) (asked_of asked.now) file → Explains (F.told files.old) (asked_of asked.now) e) }
    ensures faults { IfErr result (FaultsAs (asked_of asked.now) (F.faults files.old) (F.faults files.new) (F.blame files.new) (F.act files.new)) }
    ensures faults_stay { OnOk result (F.faults files.new ≡ F.faults files.old) }
    ensures told_stays { F.told files.new ≡ F.told files.old }
{
    match fetch(alloc, files, asked.name(file)) {
        Ok(bytes) => Ok(bytes),
        Err(FetchError::Failed) => Err(FilesError::Failed(file)),
        Err(FetchError::Long) => Err(FilesError::Refused(FilesRefusal::Size(file))),
        Err(FetchError::Memory) => Err(FilesError::Memory),
    }
}

/// Why the documents are not read where the bytes of a file spell none.
fn document_error(file: SchemaFile, error: SchemaError) -> FilesError
    ensures { IsRefusalOf file error result }
{
    match error {
        SchemaError::Memory => FilesError::Memory,
        error => FilesError::Refused(FilesRefusal::Document(file, error)),
    }
}

/// The document in a file, whose base has a scheme, with the digest of the file's bytes. The format is that of the file's name.
pub fn read_file<F: Files>(
    alloc: Global,
    files: &mut F,
    asked: &Asked<'_>,
    file: SchemaFile,
) -> Result<Held, FilesError>
    requires { IsSome (scheme_of (base_for (asked_of asked.now) file)) }
    ensures held { IfOk result (λ h. HoldsSource (F.told files.old) (asked_of asked.now) (source_of (asked_of asked.now) h)) }
    ensures file { IfOk result (λ h. h.file ≡ file) }
    ensures cause { IfErr result (λ e. IsNext (F.told files.old) (asked_of asked.now) file (base_for (asked_of asked.now) file) → Explains (F.told files.old) (asked_of asked.now) e) }
    ensures faults { IfErr result (FaultsAs (asked_of asked.now) (F.faults files.old) (F.faults files.new) (F.blame files.new) (F.act files.new)) }
    ensures faults_stay { OnOk result (F.faults files.new ≡ F.faults files.old) }
    ensures told_stays { F.told files.new ≡ F.told files.old }
{
    let bytes = fetch_file(alloc, files, asked, file)?;
    let format = Format::of_name(asked.name(file));
    match schema_reader::read(alloc, format, asked.base(file), bytes.as_slice()) {
        Ok(parsed) => Ok(Held {
            file,
            digest: digest_of(bytes.as_slice()),
            parsed,
        }),
        Err(error) => Err(document_error(file, error)),
    }
}
