//! Labels and references (ShEx 2.1, appendix A).

ghost use Rattle.std.specs.Prelude.{◌≡◌, IfErr, IfOk, Some, codes, map, option_map};
ghost use Rattle.std.specs.Str.{chars};
ghost use Rattle.serde_json.specs.Find.{get};
ghost use Rattle.serde_json.specs.View.{view};
ghost use Rattle.shexj_reader.specs.Faults.{Because, IsBad};
ghost use Rattle.shexj_reader.specs.Labels.{label, label_from, label_if_any, reference};

use crate::objects::bad_form;
use rdf_terms::text::Text;
use schema_documents::{Label, SchemaError};
use serde_json::Value;
use std::alloc::{AllocError, Global};

/// The label that a text spells: one that begins with `_:` is a blank node's.
pub(crate) fn label_from(alloc: Global, text: &str) -> Result<Label, AllocError>
    ensures { IfOk result (λ l. l ≡ label_from (chars text.now)) }
{
    match text.strip_prefix("_:") {
        Some(name) => {
            let name = Text::from_str(alloc, name)?;
            Ok(Label::Blank(name))
        }
        None => {
            let iri = Text::from_str(alloc, text)?;
            Ok(Label::Iri(iri))
        }
    }
}

/// The label of a declaration.
pub(crate) fn label_at(alloc: Global, value: &Value) -> Result<Label, SchemaError>
    ensures ok { IfOk result (λ l. label (get (codes "id") (view value.now)) ≡ Some l) }
    ensures cause { IfErr result (Because (λ f. IsBad (codes "id") label f (view value.now))) }
{
    match value.get("id").and_then(Value::as_str) {
        Some(text) => {
            let own = label_from(alloc, text)?;
            Ok(own)
        }
        None => Err(bad_form(alloc, "id")),
    }
}

/// The label of a triple expression, if it has one.
pub(crate) fn label_if_any(alloc: Global, value: &Value) -> Result<Option<Label>, SchemaError>
    ensures ok { IfOk result (λ l. label_if_any (get (codes "id") (view value.now)) ≡ Some l) }
    ensures cause { IfErr result (Because (λ f. IsBad (codes "id") label_if_any f (view value.now))) }
{
    let Some(child) = value.get("id") else {
        return Ok(None);
    };
    match child.as_str() {
        Some(text) => {
            let own = label_from(alloc, text)?;
            Ok(Some(own))
        }
        None => Err(bad_form(alloc, "id")),
    }
}

/// The text of a reference, if the value is one; a declaration, which is labelled, is none.
pub(crate) fn reference<'a>(value: &'a Value, labelled: bool) -> Option<&'a str>
    ensures { option_map (λ s. label_from (chars s.now)) result ≡ reference labelled (view value.now) }
{
    if labelled { None } else { value.as_str() }
}
