//! One step into a value: what stands behind it, and the value with something else there or with nothing.

ghost use Rattle.std.specs.Prelude.{◌≡◌, IfOk, map, option_map, string_bytes, take};
ghost use Rattle.serde_json.specs.Data.{put};
ghost use Rattle.serde_json.specs.View.{items_view, members_view, view};
ghost use Rattle.json_paths.specs.Items.{ending, front};
ghost use Rattle.json_paths.specs.Members.{without_member};
ghost use Rattle.json_paths.specs.Paths.{inside, with_step, without};

use serde_json::{Map, Value};
use std::alloc::{AllocError, Global};

/// A step into a JSON value (RFC 8259, sections 4 and 5).
#[derive(Debug, Drop, PartialEq)]
pub enum Step {
    /// To the value of the member of an object that has this name.
    Key(String),
    /// To the item of an array that has this index, counted from 0.
    Index(usize),
}

/// What stands behind a step of a value, if anything.
pub fn inside<'v>(value: &'v Value, step: &Step) -> Option<&'v Value>
    ensures { option_map (λ v. view v.now) result ≡ inside step.now (view value.now) }
{
    match step {
        Step::Key(name) => value.get(name),
        Step::Index(index) => value.get(*index),
    }
}

/// The first items, all where there are fewer.
fn first_items(items: &[Value], count: usize) -> &[Value]
    ensures { result.now ≡ take count items.now }
{
    if count < items.len() {
        &items[..count]
    } else {
        items
    }
}

/// Copies of values.
fn copies_of(alloc: Global, items: &[Value]) -> Result<Vec<Value>, AllocError>
    ensures { IfOk result (λ v. map view v.items ≡ map view items.now) }
{
    let mut copies = Vec::new(alloc);
    for item in items {
        copies.push(item.clone()?)?;
    }
    Ok(copies)
}

/// Copies of the first items, of all where there are fewer.
fn front(alloc: Global, items: &[Value], count: usize) -> Result<Vec<Value>, AllocError>
    ensures list { IfOk result (λ v. map view v.items ≡ map view (take count items.now)) }
    ensures front { IfOk result (λ v. items_view v.items ≡ front count (items_view items.now)) }
{
    let copies = copies_of(alloc, first_items(items, count))?;
    Ok(copies)
}

/// Copies of the items in front of an index, and then a value.
fn ending(
    alloc: Global,
    items: &[Value],
    index: usize,
    last: Value,
) -> Result<Vec<Value>, AllocError>
    ensures { IfOk result (λ v. items_view v.items ≡ ending index (view last) (items_view items.now)) }
{
    let mut copies = front(alloc, items, index)?;
    copies.push(last)?;
    Ok(copies)
}

/// A copy of the members.
fn copied(alloc: Global, members: &Map<String, Value>) -> Result<Map<String, Value>, AllocError>
    ensures { IfOk result (λ m. members_view m.entries ≡ members_view members.now.entries) }
{
    let mut copies = Map::new(alloc);
    for (key, member) in members.iter() {
        serde_json::put(&mut copies, alloc, key.as_str(), member.clone()?)?;
    }
    Ok(copies)
}

/// A copy of the members with this value at a name.
fn putting(
    alloc: Global,
    members: &Map<String, Value>,
    name: &str,
    value: Value,
) -> Result<Map<String, Value>, AllocError>
    ensures { IfOk result (λ m. members_view m.entries ≡ put name.now (view value) (members_view members.now.entries)) }
{
    let mut copies = copied(alloc, members)?;
    serde_json::put(&mut copies, alloc, name, value)?;
    Ok(copies)
}

/// A copy of the members without that of this name.
fn without_member(
    alloc: Global,
    members: &Map<String, Value>,
    name: &str,
) -> Result<Map<String, Value>, AllocError>
    ensures { IfOk result (λ m. members_view m.entries ≡ without_member name.now (members_view members.now.entries)) }
{
    let mut copies = copied(alloc, members)?;
    drop(copies.remove(name));
    Ok(copies)
}

/// A copy of the value with another behind a step. An array ends there, and what has no such step stays.
pub fn with_step(alloc: Global, value: &Value, step: &Step, new: Value) -> Result<Value, AllocError>
    ensures { IfOk result (λ v. view v ≡ with_step step.now (view new) (view value.now)) }
{
    match step {
        Step::Key(name) => match value {
            Value::Object(members) => Ok(Value::Object(putting(
                alloc,
                members,
                name.as_str(),
                new,
            )?)),
            _ => value.clone(),
        },
        Step::Index(index) => match value {
            Value::Array(items) => Ok(Value::Array(ending(alloc, items, *index, new)?)),
            _ => value.clone(),
        },
    }
}

/// A copy of the value without what stands behind a step. Of an array the items before it are left, and what has no such
/// step stays.
pub fn without(alloc: Global, value: &Value, step: &Step) -> Result<Value, AllocError>
    ensures { IfOk result (λ v. view v ≡ without step.now (view value.now)) }
{
    match step {
        Step::Key(name) => match value {
            Value::Object(members) => Ok(Value::Object(without_member(
                alloc,
                members,
                name.as_str(),
            )?)),
            _ => value.clone(),
        },
        Step::Index(index) => match value {
            Value::Array(items) => Ok(Value::Array(front(alloc, items, *index)?)),
            _ => value.clone(),
        },
    }
}
