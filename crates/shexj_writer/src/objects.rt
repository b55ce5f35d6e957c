//! Objects of JSON that are put together, and lists.

ghost use Rattle.std.specs.Prelude.{◌≡◌, OnOk, option_map, true};
ghost use Rattle.std.specs.Option.{option_copied};
ghost use Rattle.std.specs.Str.{all_scalars, chars};
ghost use Rattle.serde_json.specs.Data.{no_members, object, put, string};
ghost use Rattle.serde_json.specs.View.{items_view, view};
ghost use Rattle.shexj_writer.specs.Built.{members_of};
ghost use Rattle.shexj_writer.specs.Held.{IsTextIfAny};
ghost use Rattle.shexj_writer.specs.Objects.{list_if_any, put_if};
ghost use Rattle.shexj_writer.specs.Texts.{flag_data, text_data};

use crate::texts::text_value;
use rdf_terms::text::Text;
use serde_json::{Map, Value};
use std::alloc::{AllocError, Global};

/// An object that is put together.
#[derive(Drop)]
pub(crate) struct Object {
    alloc: Global,
    map: Map<String, Value>,
}

impl Object {
    /// The object without members.
    pub(crate) fn new(alloc: Global) -> Object
        ensures { members_of result ≡ no_members }
    {
        Object {
            alloc,
            map: Map::new(alloc),
        }
    }

    /// Puts a value at a key.
    pub(crate) fn put(&mut self, key: &str, value: Value) -> Result<(), AllocError>
        ensures { OnOk result (members_of self.new ≡ put key.now (view value) (members_of self.old)) }
    {
        serde_json::put(&mut self.map, self.alloc, key, value)
    }

    /// Puts a value at a key, if there is one.
    pub(crate) fn put_if(&mut self, key: &str, value: Option<Value>) -> Result<(), AllocError>
        ensures { OnOk result (members_of self.new ≡ put_if key.now (option_map view value) (members_of self.old)) }
    {
        match value {
            Some(value) => self.put(key, value),
            None => Ok(()),
        }
    }

    /// Puts a word at a key, as the name of a type.
    pub(crate) fn put_word(&mut self, key: &str, word: &str) -> Result<(), AllocError>
        ensures { OnOk result (members_of self.new ≡ put key.now (string word.now) (members_of self.old)) }
    {
        let value = Value::try_from_str(self.alloc, word)?;
        self.put(key, value)
    }

    /// Puts a text at a key.
    pub(crate) fn put_text(&mut self, key: &str, text: &Text) -> Result<(), AllocError>
        ensures put { OnOk result (members_of self.new ≡ put key.now (text_data text.now) (members_of self.old)) }
        ensures scalars { all_scalars text.now ≡ true }
    {
        let value = text_value(self.alloc, text)?;
        self.put(key, value)
    }

    /// Puts a text at a key, if there is one.
    pub(crate) fn put_text_if(&mut self, key: &str, text: Option<&Text>) -> Result<(), AllocError>
        ensures put { OnOk result (members_of self.new ≡ put_if key.now (option_map text_data (option_copied text.entry)) (members_of self.old)) }
        ensures scalars { IsTextIfAny (option_copied text.entry) }
    {
        match text {
            Some(text) => self.put_text(key, text),
            None => Ok(()),
        }
    }

    /// Puts the characters of a text at a key.
    pub(crate) fn put_characters(&mut self, key: &str, text: &str) -> Result<(), AllocError>
        ensures put { OnOk result (members_of self.new ≡ put key.now (text_data (chars text.now)) (members_of self.old)) }
        ensures scalars { all_scalars (chars text.now) ≡ true }
    {
        self.put_word(key, text)
    }

    /// Puts true at a key, if the flag is set.
    pub(crate) fn put_flag(&mut self, key: &str, is_set: bool) -> Result<(), AllocError>
        ensures { OnOk result (members_of self.new ≡ put_if key.now (flag_data is_set) (members_of self.old)) }
    {
        if is_set {
            self.put(key, Value::from(true))
        } else {
            Ok(())
        }
    }

    /// Puts a list at a key, if it is not empty.
    pub(crate) fn put_list(&mut self, key: &str, items: Vec<Value>) -> Result<(), AllocError>
        ensures { OnOk result (members_of self.new ≡ put_if key.now (list_if_any (items_view items.items)) (members_of self.old)) }
    {
        if items.is_empty() {
            Ok(())
        } else {
            self.put(key, Value::from(items))
        }
    }

    /// The object as a value.
    pub(crate) fn into_value(self) -> Value
        ensures { view result ≡ object (members_of self) }
    {
        Value::from(self.map)
    }
}
