//! The writer of a whole document.

ghost use Rattle.std.specs.Prelude.{◌≡◌, ◌⊎◌, false, IfErr, IfOk, IsErrOf, string_bytes};
ghost use Rattle.serde_json.specs.Written.{compact_text};
ghost use Rattle.schema_documents.specs.Tree.{document_of};
ghost use Rattle.shexj_reader.specs.Bytes.{IsDocumentText};
ghost use Rattle.shexj_writer.specs.Documents.{document_data};
ghost use Rattle.shexj_writer.specs.Expressible.{IsExpressibleDocument};
ghost use Rattle.shexj_writer.specs.Laws.{IsDeep};
ghost use Rattle.shexj_writer.specs.Plain.{plain_document};
ghost use Rattle.shexj_writer.specs.Whole.{is_whole_document};

use crate::depths::is_within;
use crate::documents::document_value;
use crate::error::WriteError;
use crate::nestings::nests_within;
use crate::wholes::is_whole_document;
use schema_documents::Doc;
use std::alloc::Global;

/// How many shape and triple expressions may nest in one another (own).
const MAX_NESTING: u32 = 64;

/// How many lists and objects of JSON may nest in one another.
const MAX_DEPTH: u32 = 127;

/// The document as ShExJ (ShEx 2.1, appendix A): compact JSON, in which the keys of each object stand in byte order. IRIs
/// are written as they are.
///
/// Fails with `FacetNumber` where the value of a range facet is no whole number from -2^63 to 2^64 - 1, then with `Deep`
/// where shape and triple expressions nest over 64, or lists and objects over 127.
///
/// A document for which ShExJ has a form, as it has for each that bytes in ShExJ spell, is read back from the text, each
/// constraint with its facets in the order of the keys of ShExJ and with the numbers of ranges in plain decimal digits.
pub fn write(alloc: Global, doc: &Doc) -> Result<String, WriteError>
    ensures text { IfOk result (λ s. string_bytes s ≡ compact_text (document_data (document_of doc.now))) }
    ensures read_back { IfOk result (λ s. IsExpressibleDocument (document_of doc.now)
        → IsDocumentText (plain_document (document_of doc.now)) (string_bytes s)) }

    ensures other_number { IfErr result (λ e. e ≡ WriteError.FacetNumber → is_whole_document (document_of doc.now) ≡ false) }
    ensures other_is_refused { is_whole_document (document_of doc.now) ≡ false → IsErrOf result WriteError.FacetNumber }
    ensures deep { IfErr result (λ e. e ≡ WriteError.Deep → IsDeep (document_of doc.now)) }
    ensures deep_is_refused { IsDeep (document_of doc.now)
        → IsErrOf result WriteError.Deep ⊎ IsErrOf result WriteError.Memory }
{
    if !is_whole_document(doc) {
        return Err(WriteError::FacetNumber);
    }
    if !nests_within(doc, MAX_NESTING) {
        return Err(WriteError::Deep);
    }
    let value = document_value(alloc, doc)?;
    if !is_within(&value, MAX_DEPTH) {
        return Err(WriteError::Deep);
    }
    let text = value.to_string(alloc)?;
    Ok(text)
}
