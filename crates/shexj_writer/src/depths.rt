//! How deep the lists and objects of a JSON value nest (RFC 8259, section 9).

ghost use Rattle.std.specs.Prelude.{◌≡◌, nat_le};
ghost use Rattle.serde_json.specs.Data.{depth, items_depth, members_depth};
ghost use Rattle.serde_json.specs.View.{items_view, members_view, view};

use serde_json::{Map, Value};

/// Whether at most so many lists and objects nest in one another in a value.
#[cycle(depths)]
pub(crate) fn is_within(value: &Value, levels: u32) -> bool
    ensures { result ≡ nat_le (depth (view value.now)) levels }
{
    match value {
        Value::Array(items) => levels > 0 && are_items_within(items, levels - 1),
        Value::Object(members) => levels > 0 && are_members_within(members, levels - 1),
        _ => true,
    }
}

#[cycle(depths)]
fn are_items_within(items: &Vec<Value>, levels: u32) -> bool
    ensures { result ≡ nat_le (items_depth (items_view items.now.items)) levels }
{
    for item in items {
        if !is_within(item, levels) {
            return false;
        }
    }
    true
}

#[cycle(depths)]
fn are_members_within(members: &Map<String, Value>, levels: u32) -> bool
    ensures { result ≡ nat_le (members_depth (members_view members.now.entries)) levels }
{
    for (_, member) in members.iter() {
        if !is_within(member, levels) {
            return false;
        }
    }
    true
}
