//! Objects of JSON that are put together, and what stands in them.

ghost use Rattle.std.specs.Prelude.{◌≡◌, IfOk, OnOk, map};
ghost use Rattle.schema_tree.specs.Targets.{target_text};
ghost use Rattle.serde_json.specs.Data.{boolean, no_members, object, put, string};
ghost use Rattle.serde_json.specs.View.{view};
ghost use Rattle.explanation_texts.specs.Data.{members_of, put_reason};
ghost use Rattle.explanation_texts.specs.Trees.{list_data, number_data, put_kind, text_data};

use schema_tree::schema::Target;
use serde_json::{Map, Value};
use std::alloc::{AllocError, Global};

/// Bytes as a string.
pub(crate) fn text_value(alloc: Global, bytes: &[u8]) -> Result<Value, AllocError>
    ensures { IfOk result (λ v. view v ≡ text_data bytes.now) }
{
    let text = String::from_utf8_lossy(alloc, bytes)?;
    Ok(Value::from(text))
}

/// The text of a target as a string.
fn target_value(alloc: Global, target: &Target) -> Result<Value, AllocError>
    ensures { IfOk result (λ v. view v ≡ string (target_text target.now)) }
{
    let text = target.text(alloc)?;
    Ok(Value::from(text))
}

/// An object that is put together.
#[derive(Drop)]
pub(crate) struct Object {
    alloc: Global,
    map: Map<String, Value>,
}

impl Object {
    /// The object without members.
    pub(crate) fn new(alloc: Global) -> Object
        ensures { members_of result ≡ no_members }
    {
        Object {
            alloc,
            map: Map::new(alloc),
        }
    }

    /// Puts a value at a key.
    pub(crate) fn put(&mut self, key: &str, value: Value) -> Result<(), AllocError>
        ensures { OnOk result (members_of self.new ≡ put key.now (view value) (members_of self.old)) }
    {
        serde_json::put(&mut self.map, self.alloc, key, value)
    }

    /// Puts a word at a key.
    pub(crate) fn put_word(&mut self, key: &str, word: &str) -> Result<(), AllocError>
        ensures { OnOk result (members_of self.new ≡ put key.now (string word.now) (members_of self.old)) }
    {
        let value = Value::try_from_str(self.alloc, word)?;
        self.put(key, value)
    }

    /// Puts the text of a target at a key.
    pub(crate) fn put_target(&mut self, key: &str, target: &Target) -> Result<(), AllocError>
        ensures { OnOk result (members_of self.new ≡ put key.now (string (target_text target.now)) (members_of self.old)) }
    {
        let value = target_value(self.alloc, target)?;
        self.put(key, value)
    }

    /// Puts bytes at a key, as a string.
    pub(crate) fn put_text(&mut self, key: &str, bytes: &[u8]) -> Result<(), AllocError>
        ensures { OnOk result (members_of self.new ≡ put key.now (text_data bytes.now) (members_of self.old)) }
    {
        let value = text_value(self.alloc, bytes)?;
        self.put(key, value)
    }

    /// Puts a reason, if there is a text of it.
    pub(crate) fn put_reason(&mut self, reason: &[u8]) -> Result<(), AllocError>
        ensures { OnOk result (members_of self.new ≡ put_reason reason.now (members_of self.old)) }
    {
        if reason.is_empty() {
            Ok(())
        } else {
            self.put_text("reason", reason)
        }
    }

    /// Puts a number at a key.
    pub(crate) fn put_number(&mut self, key: &str, number: u64) -> Result<(), AllocError>
        ensures { OnOk result (members_of self.new ≡ put key.now (number_data number) (members_of self.old)) }
    {
        self.put(key, Value::from(number))
    }

    /// Puts whether something is so at a key.
    pub(crate) fn put_flag(&mut self, key: &str, flag: bool) -> Result<(), AllocError>
        ensures { OnOk result (members_of self.new ≡ put key.now (boolean flag) (members_of self.old)) }
    {
        self.put(key, Value::from(flag))
    }

    /// Puts values at a key, as an array.
    pub(crate) fn put_list(&mut self, key: &str, values: Vec<Value>) -> Result<(), AllocError>
        ensures { OnOk result (members_of self.new ≡ put key.now (list_data (map view values.items)) (members_of self.old)) }
    {
        self.put(key, Value::from(values))
    }

    /// Puts the word of a kind.
    pub(crate) fn put_kind(&mut self, kind: &str) -> Result<(), AllocError>
        ensures { OnOk result (members_of self.new ≡ put_kind kind.now (members_of self.old)) }
    {
        self.put_word("kind", kind)
    }

    /// The object as a value.
    pub(crate) fn into_value(self) -> Value
        ensures { view result ≡ object (members_of self) }
    {
        Value::from(self.map)
    }
}
