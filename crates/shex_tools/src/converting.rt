//! What answers `convert`.

ghost use Rattle.std.specs.Prelude.{◌≡◌, ◌++◌, ◌<◌, IfErr, IfOk, IsSome, OnOk, codes, string_bytes, true};
ghost use Rattle.input_names.specs.Names.{is_base};
ghost use Rattle.iri_resolve.specs.Reference.{scheme_of};
ghost use Rattle.schema_documents.specs.Tree.{document_of};
ghost use Rattle.shex_io.specs.Fetching.{IsFile};
ghost use Rattle.schema_reader.specs.Documents.{AreNone, Explains as ReaderExplains};
ghost use Rattle.serde_json.specs.Written.{compact_text};
ghost use Rattle.shexj_reader.specs.Bytes.{IsDocumentText};
ghost use Rattle.shexj_writer.specs.Documents.{document_data};
ghost use Rattle.shexj_writer.specs.Expressible.{IsExpressibleDocument};
ghost use Rattle.shexj_writer.specs.Plain.{plain_document};
ghost use Rattle.tool_words.specs.Asked.{of_schema};
ghost use Rattle.tool_words.specs.Lent.{converting_of};
ghost use Rattle.shex_tools.specs.Documents.{HasText, HoldsDocument, LacksText, Spells};
ghost use Rattle.shex_tools.specs.Results.{IsConverted};
ghost use Rattle.shex_tools.specs.Stopping.{Explains, FaultsAs, WritingStops, fetch_stop};

use crate::laws::documents_are_expressible;
use crate::stop::{Refusal, Stop, document_stop, writing_stop};
use call_ends::Response;
use schema_documents::{Doc, SchemaError};
use schema_files::SchemaFile;
use schema_reader::Format;
use shard_answers::CallFile;
use shex_inputs::{Refusal as InputRefusal, Source};
use shex_io::{FetchError, Files, fetch};
use shexj_reader::laws::refused_are_none;
use shexj_writer::write;
use std::alloc::{AllocError, Global};
use tool_words::Converting;

/// Why there is no answer where the schema file was not fetched or is too long.
fn fetch_stop(error: FetchError) -> Stop
    ensures { result ≡ fetch_stop error }
{
    match error {
        FetchError::Failed => Stop::Failed(CallFile::Input(Source::Schema(SchemaFile::Root))),
        FetchError::Long => Stop::Refused(Refusal::Input(InputRefusal::Size(Source::Schema(
            SchemaFile::Root,
        )))),
        FetchError::Memory => Stop::Memory,
    }
}

/// The bytes of the schema file, of which there may be 67,108,864. It is refused as `Size` where it has more.
fn fetch_schema<F: Files>(
    alloc: Global,
    files: &mut F,
    converting: &Converting<'_>,
) -> Result<Vec<u8>, Stop>
    ensures bytes { IfOk result (λ bytes. IsFile (F.told files.old) converting.now.schema.now bytes.items) }
    ensures cause { IfErr result (Explains (F.told files.old) (of_schema (converting_of converting.now))) }
    ensures faults { IfErr result (FaultsAs (of_schema (converting_of converting.now)) (F.faults files.old) (F.faults files.new) (F.blame files.new) (F.act files.new)) }
    ensures faults_stay { OnOk result (F.faults files.new ≡ F.faults files.old) }
    ensures told_stays { F.told files.new ≡ F.told files.old }
{
    match fetch(alloc, files, converting.schema) {
        Ok(bytes) => Ok(bytes),
        Err(error) => Err(fetch_stop(error)),
    }
}

/// The document that bytes spell in a format. References of ShExC are resolved against the base in force, at first `base`, and the
/// IRIs of ShExJ are taken as they are written.
fn read_bytes(alloc: Global, format: Format, base: &str, source: &[u8]) -> Result<Doc, SchemaError>
    requires { IsSome (scheme_of base.now) }
    ensures spelled { IfOk result (λ doc. Spells format base.now (document_of doc) source.now) }
    ensures refused { IfErr result (λ e. ReaderExplains format base.now e source.now) }
    ensures none { IfErr result (AreNone format base.now source.now) }
{
    // The law by which bytes that are refused as ShExJ spell no document.
    refused_are_none();
    match format {
        Format::Compact => {
            let parsed = shexc_reader::read(alloc, source, base)?;
            Ok(parsed.doc)
        }
        Format::Json => shexj_reader::read(alloc, source),
    }
}

/// The document in the schema file, of which no import is followed.
fn read_document<F: Files>(
    alloc: Global,
    files: &mut F,
    converting: &Converting<'_>,
) -> Result<Doc, Stop>
    requires { is_base converting.now.schema_base.now ≡ true }
    ensures document { IfOk result (λ doc. HoldsDocument (F.told files.old) (converting_of converting.now) (document_of doc)) }
    ensures cause { IfErr result (Explains (F.told files.old) (of_schema (converting_of converting.now))) }
    ensures faults { IfErr result (FaultsAs (of_schema (converting_of converting.now)) (F.faults files.old) (F.faults files.new) (F.blame files.new) (F.act files.new)) }
    ensures faults_stay { OnOk result (F.faults files.new ≡ F.faults files.old) }
    ensures told_stays { F.told files.new ≡ F.told files.old }
{
    let bytes = fetch_schema(alloc, files, converting)?;
    let format = Format::of_name(converting.schema);
    match read_bytes(alloc, format, converting.schema_base, bytes.as_slice()) {
        Ok(doc) => Ok(doc),
        Err(error) => Err(document_stop(error)),
    }
}

/// The bytes of a text with a line feed behind it.
fn line_of(text: String) -> Result<Vec<u8>, AllocError>
    ensures { IfOk result (λ line. line.items ≡ string_bytes text ++ codes "\n") }
{
    let mut line = text;
    line.push_str("\n")?;
    Ok(line.into_bytes())
}

/// The text of a document that has a form in ShExJ, as compact JSON, and a line feed.
fn text_of(alloc: Global, doc: &Doc) -> Result<Vec<u8>, Stop>
    requires { IsExpressibleDocument (document_of doc.now) }
    ensures text { IfOk result (λ line. line.items ≡ compact_text (document_data (document_of doc.now)) ++ codes "\n") }
    ensures has_text { IfOk result (λ line. HasText (document_of doc.now)) }
    ensures read_back { IfOk result (λ line. IsDocumentText (plain_document (document_of doc.now)) (compact_text (document_data (document_of doc.now)))) }
    ensures stops { IfErr result (WritingStops (LacksText (document_of doc.now))) }
{
    match write(alloc, doc) {
        Ok(text) => Ok(line_of(text)?),
        Err(error) => Err(writing_stop(error)),
    }
}

/// What answers `convert`: the text in ShExJ of the document in the schema file.
pub fn convert<F: Files>(
    alloc: Global,
    files: &mut F,
    converting: &Converting<'_>,
) -> Result<Response, Stop>
    requires { is_base converting.now.schema_base.now ≡ true }
    ensures converted { IfOk result (λ r. IsConverted (F.told files.old) (converting_of converting.now) r.status r.text.items r.notes.items) }
    ensures low { IfOk result (λ r. r.status < 7) }
    ensures cause { IfErr result (Explains (F.told files.old) (of_schema (converting_of converting.now))) }
    ensures faults { IfErr result (FaultsAs (of_schema (converting_of converting.now)) (F.faults files.old) (F.faults files.new) (F.blame files.new) (F.act files.new)) }
    ensures faults_stay { OnOk result (F.faults files.new ≡ F.faults files.old) }
    ensures told_stays { F.told files.new ≡ F.told files.old }
{
    // The law by which what the file holds has a form in ShExJ.
    documents_are_expressible();
    let doc = read_document(alloc, files, converting)?;
    let text = text_of(alloc, &doc)?;
    Ok(Response {
        status: 0,
        text,
        notes: Vec::new(alloc),
    })
}
