//! Documents from bytes.

ghost use Rattle.std.specs.Prelude.{◌≡◌, ◌⊎◌, IfErr, IfOk, IsErrOf, MatchResult, None};
ghost use Rattle.std.specs.Str.{IsUtf8};
ghost use Rattle.serde_json.specs.Errors.{IsMemory};
ghost use Rattle.serde_json.specs.Read.{read};
ghost use Rattle.schema_documents.specs.Tree.{Document, document_of};
ghost use Rattle.shexj_reader.specs.Bytes.{IsCause, IsDocumentText};

use crate::documents::read_document;
use schema_documents::{Doc, SchemaError};
use serde_json::Value;
use std::alloc::Global;

/// The document that the bytes spell in ShExJ (ShEx 2.1, appendix A). IRIs are taken as they are written.
///
/// At most 64 shape and triple expressions may stand in one another; texts that refer to one do not count. It fails where
/// the bytes spell no document within this limit, with the first fault that is met. Bytes that are not UTF-8 come first,
/// then what is not JSON; in each object the type comes first, then keys that are not listed, then the values of keys, and
/// the label of a declared shape expression last.
pub fn read(alloc: Global, source: &[u8]) -> Result<Doc, SchemaError>
    ensures sound { IfOk result (λ d. IsDocumentText (document_of d) source.now) }
    ensures complete { (doc : Document) → IsDocumentText doc source.now → MatchResult result (λ d. document_of d ≡ doc) (λ e. e ≡ SchemaError.Memory) }
    ensures cause { IfErr result (IsCause source.now) }

    ensures not_utf8 { (¬ IsUtf8 source.now) → IsErrOf result SchemaError.NotUtf8 }
    ensures no_json { IsUtf8 source.now → read source.now ≡ None
        → IsErrOf result SchemaError.Json ⊎ IsErrOf result SchemaError.Memory }
{
    let Ok(text) = str::from_utf8(source) else {
        return Err(SchemaError::NotUtf8);
    };
    let value = match Value::from_str(alloc, text) {
        Ok(value) => value,
        Err(error) => {
            return Err(refusal(&error));
        }
    };
    let doc = read_document(alloc, &value)?;
    Ok(doc)
}

/// Why a text that was not read as JSON is refused.
fn refusal(error: &serde_json::Error) -> SchemaError
    ensures memory { IsMemory error.now → result ≡ SchemaError.Memory }
    ensures other { (¬ IsMemory error.now) → result ≡ SchemaError.Json }
{
    if error.is_memory() {
        SchemaError::Memory
    } else {
        SchemaError::Json
    }
}
