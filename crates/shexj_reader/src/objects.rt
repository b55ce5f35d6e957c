//! Objects of JSON: their keys, and what is common to all of them.

ghost use Rattle.std.specs.Prelude.{◌≡◌, ◌↔◌, ◌⊎◌, IfErr, IfOk, IsTrue, OnOk, Some, codes, is_some, map, option_map, true};
ghost use Rattle.std.specs.List.{list_any};
ghost use Rattle.std.specs.Str.{bytes_eq};
ghost use Rattle.serde_json.specs.Find.{get};
ghost use Rattle.serde_json.specs.View.{items_view, view};
ghost use Rattle.shexj_reader.specs.Faults.{Because, HasActs, IsBad, IsNoList, IsUnknownKey, PlainFault, form, key};
ghost use Rattle.shexj_reader.specs.Keys.{IsPlain, flag, has_only, is_empty_list, is_object, members, text, text_if_any, texts, type_of, with_id};

use rdf_terms::text::Text;
use schema_documents::SchemaError;
use serde_json::Value;
use std::alloc::Global;

/// The refusal of a key whose value is not of its form.
pub(crate) fn bad_form(alloc: Global, key: &str) -> SchemaError
    ensures { Because (λ f. f ≡ form key.now) result }
{
    match Text::from_str(alloc, key) {
        Ok(name) => SchemaError::Form(name),
        Err(_) => SchemaError::Memory,
    }
}

/// The refusal of a key that is not listed.
fn unlisted(alloc: Global, name: &str) -> SchemaError
    ensures { Because (λ f. f ≡ key name.now) result }
{
    match Text::from_str(alloc, name) {
        Ok(name) => SchemaError::Key(name),
        Err(_) => SchemaError::Memory,
    }
}

/// Whether the key is one of the keys.
fn is_one_of(key: &str, keys: &[&str]) -> bool
    ensures { result ≡ list_any (bytes_eq key.now) (map (λ k. k.now) keys.now) }
{
    for own in keys {
        if key == *own {
            return true;
        }
    }
    false
}

/// Whether the key is one of the keys, or `id` where the object is labelled.
fn is_own(key: &str, labelled: bool, keys: &[&str]) -> bool
    ensures { result ≡ list_any (bytes_eq key.now) (with_id labelled (map (λ k. k.now) keys.now)) }
{
    if labelled {
        key == "id" || is_one_of(key, keys)
    } else {
        is_one_of(key, keys)
    }
}

/// Passes where the object has no other keys than these, and `id` where it is labelled.
fn only_within(
    alloc: Global,
    value: &Value,
    labelled: bool,
    keys: &[&str],
) -> Result<(), SchemaError>
    requires { is_object (view value.now) ≡ true }
    ensures ok { OnOk result (has_only (with_id labelled (map (λ k. k.now) keys.now)) (view value.now) ≡ true) }
    ensures cause { IfErr result (Because (λ f. IsUnknownKey (with_id labelled (map (λ k. k.now) keys.now)) f (view value.now))) }
{
    let Some(members) = value.as_object() else {
        unreachable!();
    };
    for (key, _) in members.iter() {
        if !is_own(key.as_str(), labelled, keys) {
            return Err(unlisted(alloc, key.as_str()));
        }
    }
    Ok(())
}

/// Passes where the object has no other keys.
pub(crate) fn only_listed(alloc: Global, value: &Value, keys: &[&str]) -> Result<(), SchemaError>
    requires { is_object (view value.now) ≡ true }
    ensures ok { OnOk result (has_only (map (λ k. k.now) keys.now) (view value.now) ≡ true) }
    ensures cause { IfErr result (Because (λ f. IsUnknownKey (map (λ k. k.now) keys.now) f (view value.now))) }
{
    only_within(alloc, value, false, keys)
}

/// Passes where the value, an object with a type, has no other keys.
pub(crate) fn only_keys(alloc: Global, value: &Value, keys: &[&str]) -> Result<(), SchemaError>
    requires { is_some (get (codes "type") (view value.now)) ≡ true }
    ensures ok { OnOk result (has_only (map (λ k. k.now) keys.now) (view value.now) ≡ true) }
    ensures cause { IfErr result (Because (λ f. IsUnknownKey (map (λ k. k.now) keys.now) f (view value.now))) }
{
    only_within(alloc, value, false, keys)
}

/// Passes where the value, an object with a type, has no other keys, and `id` where it is labelled.
pub(crate) fn only_own_keys(
    alloc: Global,
    value: &Value,
    labelled: bool,
    keys: &[&str],
) -> Result<(), SchemaError>
    requires { is_some (get (codes "type") (view value.now)) ≡ true }
    ensures ok { OnOk result (has_only (with_id labelled (map (λ k. k.now) keys.now)) (view value.now) ≡ true) }
    ensures cause { IfErr result (Because (λ f. IsUnknownKey (with_id labelled (map (λ k. k.now) keys.now)) f (view value.now))) }
{
    only_within(alloc, value, labelled, keys)
}

/// The text under a key.
pub(crate) fn text_at(alloc: Global, value: &Value, key: &str) -> Result<Text, SchemaError>
    ensures ok { IfOk result (λ t. text (get key.now (view value.now)) ≡ Some t) }
    ensures cause { IfErr result (Because (λ f. IsBad key.now text f (view value.now))) }
{
    match value.get(key).and_then(Value::as_str) {
        Some(text) => {
            let own = Text::from_str(alloc, text)?;
            Ok(own)
        }
        None => Err(bad_form(alloc, key)),
    }
}

/// The text under a key, if the key is there.
pub(crate) fn text_if_any(
    alloc: Global,
    value: &Value,
    key: &str,
) -> Result<Option<Text>, SchemaError>
    ensures ok { IfOk result (λ t. text_if_any (get key.now (view value.now)) ≡ Some t) }
    ensures cause { IfErr result (Because (λ f. IsBad key.now text_if_any f (view value.now))) }
{
    let Some(child) = value.get(key) else {
        return Ok(None);
    };
    match child.as_str() {
        Some(text) => {
            let own = Text::from_str(alloc, text)?;
            Ok(Some(own))
        }
        None => Err(bad_form(alloc, key)),
    }
}

/// The truth under a key, false where the key is absent.
pub(crate) fn flag_at(alloc: Global, value: &Value, key: &str) -> Result<bool, SchemaError>
    ensures ok { IfOk result (λ b. flag (get key.now (view value.now)) ≡ Some b) }
    ensures cause { IfErr result (Because (λ f. IsBad key.now flag f (view value.now))) }
{
    let Some(child) = value.get(key) else {
        return Ok(false);
    };
    match child.as_bool() {
        Some(truth) => Ok(truth),
        None => Err(bad_form(alloc, key)),
    }
}

/// The texts of the list under a key, none where the key is absent.
pub(crate) fn texts_at(alloc: Global, value: &Value, key: &str) -> Result<Vec<Text>, SchemaError>
    ensures ok { IfOk result (λ v. texts (get key.now (view value.now)) ≡ Some v.items) }
    ensures cause { IfErr result (Because (λ f. IsBad key.now texts f (view value.now))) }
{
    let mut all = Vec::new(alloc);
    let Some(child) = value.get(key) else {
        return Ok(all);
    };
    let Some(items) = child.as_array() else {
        return Err(bad_form(alloc, key));
    };
    for item in items {
        let Some(text) = item.as_str() else {
            return Err(bad_form(alloc, key));
        };
        let own = Text::from_str(alloc, text)?;
        all.push(own)?;
    }
    Ok(all)
}

/// The items of the list under a key, which is not empty.
pub(crate) fn items_at<'a>(
    alloc: Global,
    value: &'a Value,
    key: &str,
) -> Result<&'a [Value], SchemaError>
    ensures ok { IfOk result (λ s. members (get key.now (view value.now)) ≡ Some (items_view s.now)) }
    ensures cause { IfErr result (Because (λ f. IsBad key.now members f (view value.now))) }
{
    let Some(items) = value.get(key).and_then(Value::as_array) else {
        return Err(bad_form(alloc, key));
    };
    let items = items.as_slice();
    if items.is_empty() {
        return Err(bad_form(alloc, key));
    }
    Ok(items)
}

/// Whether the value is an object.
pub(crate) fn is_object(value: &Value) -> bool
    ensures { result ≡ is_object (view value.now) }
{
    value.is_object()
}

/// The type that an object names, if it names one.
pub(crate) fn type_of<'a>(value: &'a Value) -> Option<&'a str>
    ensures { option_map (λ s. s.now) result ≡ type_of (view value.now) }
{
    value.get("type").and_then(Value::as_str)
}

/// Whether the value is an object of this type.
pub(crate) fn has_type(value: &Value, name: &str) -> bool
    ensures { IsTrue result ↔ (type_of (view value.now) ≡ Some name.now) }
{
    match type_of(value) {
        Some(own) => own == name,
        None => false,
    }
}

/// Passes where a key has no actions: an empty list, or none.
pub(crate) fn no_acts(alloc: Global, value: &Value, key: &str) -> Result<(), SchemaError>
    ensures ok { OnOk result (is_empty_list (get key.now (view value.now)) ≡ true) }
    ensures cause { IfErr result (Because (λ f. IsNoList key.now f (view value.now) ⊎ HasActs key.now f (view value.now))) }
{
    let Some(acts) = value.get(key) else {
        return Ok(());
    };
    let Some(list) = acts.as_array() else {
        return Err(bad_form(alloc, key));
    };
    if list.as_slice().is_empty() {
        Ok(())
    } else {
        Err(SchemaError::Action)
    }
}

/// Passes where there are no actions, and any annotations.
pub(crate) fn only_plain(alloc: Global, value: &Value) -> Result<(), SchemaError>
    ensures ok { OnOk result (IsPlain (view value.now)) }
    ensures cause { IfErr result (Because (λ f. PlainFault f (view value.now))) }
{
    no_acts(alloc, value, "semActs")?;
    if let Some(notes) = value.get("annotations") {
        if !notes.is_array() {
            return Err(bad_form(alloc, "annotations"));
        }
    }
    Ok(())
}
