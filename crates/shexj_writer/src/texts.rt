//! Texts, labels and cardinalities (ShEx 2.1, appendix A).

ghost use Rattle.std.specs.Prelude.{◌≡◌, ◌^◌, ◌<◌, ◌++◌, IfOk, OnOk, codes, encode_utf8_all, option_map, string_bytes, true};
ghost use Rattle.std.specs.Option.{option_copied};
ghost use Rattle.std.specs.Str.{all_scalars};
ghost use Rattle.serde_json.specs.View.{items_view, view};
ghost use Rattle.schema_documents.specs.Labels.{IsTextLabel};
ghost use Rattle.shexj_writer.specs.Built.{members_of};
ghost use Rattle.shexj_writer.specs.Held.{AreTexts, IsBound, IsLabelIfAny};
ghost use Rattle.shexj_writer.specs.Objects.{put_if};
ghost use Rattle.shexj_writer.specs.Texts.{bound_data, label_data, max_data, min_data, text_data, texts_items};

use crate::objects::Object;
use rdf_terms::text::Text;
use schema_documents::Label;
use serde_json::Value;
use std::alloc::{AllocError, Global};
use tally::{Bound, is_once};

/// A text.
pub(crate) fn text_value(alloc: Global, text: &Text) -> Result<Value, AllocError>
    ensures value { IfOk result (λ v. view v ≡ text_data text.now) }
    ensures scalars { all_scalars text.now ≡ true }
{
    Value::try_from_str(alloc, text.as_str())
}

/// Texts, in their order.
pub(crate) fn text_values(alloc: Global, texts: &[Text]) -> Result<Vec<Value>, AllocError>
    ensures values { IfOk result (λ v. items_view v.items ≡ texts_items texts.now) }
    ensures held { OnOk result (AreTexts texts.now) }
{
    let mut all = Vec::new(alloc);
    for text in texts {
        let value = text_value(alloc, text)?;
        all.push(value)?;
    }
    Ok(all)
}

/// The text of a blank label.
fn blank_text(alloc: Global, name: &Text) -> Result<String, AllocError>
    ensures text { IfOk result (λ s. string_bytes s ≡ codes "_:" ++ encode_utf8_all name.now) }
    ensures scalars { all_scalars name.now ≡ true }
{
    format!(in alloc; "_:{}", name.as_str())
}

/// A label: an IRI as it is, a blank label behind `_:`.
pub(crate) fn label_value(alloc: Global, label: &Label) -> Result<Value, AllocError>
    ensures value { IfOk result (λ v. view v ≡ label_data label.now) }
    ensures held { IsTextLabel label.now }
{
    match label {
        Label::Iri(iri) => text_value(alloc, iri),
        Label::Blank(name) => {
            let text = blank_text(alloc, name)?;
            Ok(Value::from(text))
        }
    }
}

/// Puts a label under `id`, if there is one.
pub(crate) fn put_label(
    alloc: Global,
    object: &mut Object,
    label: Option<&Label>,
) -> Result<(), AllocError>
    ensures put { OnOk result (members_of object.new ≡ put_if (codes "id") (option_map label_data (option_copied label.entry)) (members_of object.old)) }
    ensures held { IsLabelIfAny (option_copied label.entry) }
{
    match label {
        Some(label) => {
            let value = label_value(alloc, label)?;
            object.put("id", value)
        }
        None => Ok(()),
    }
}

/// An upper bound: -1 is no bound.
fn bound_value(bound: Bound) -> Value
    ensures value { view result ≡ bound_data bound }
    ensures held { IsBound bound }
{
    match bound {
        Bound::Upto(most) => Value::from(most),
        Bound::Free => Value::from(-1i32),
    }
}

/// Puts a minimum and a maximum, where they are not both 1 (ShEx 2.1, section 5.5).
pub(crate) fn put_cardinality(object: &mut Object, min: u32, max: Bound) -> Result<(), AllocError>
    ensures put { OnOk result (members_of object.new ≡ put_if (codes "max") (max_data min max) (put_if (codes "min") (min_data min max) (members_of object.old))) }
    ensures low { min < 2 ^ 32 }
    ensures high { IsBound max }
{
    let most = bound_value(max);
    if is_once(min, max) {
        return Ok(());
    }
    object.put("min", Value::from(min))?;
    object.put("max", most)
}
