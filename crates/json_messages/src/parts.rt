// The parts of a message, as the members of an object.
ghost use Rattle.std.specs.Prelude.{◌≡◌, OnOk, map};
ghost use Rattle.serde_json.specs.Data.{no_members, object, put};
ghost use Rattle.serde_json.specs.View.{view, members_view};
ghost use Rattle.base64.specs.GeneralPurpose.{IsBytes};
ghost use Rattle.json_messages.specs.Keys.{camel};
ghost use Rattle.json_messages.specs.Writing.{array_data, digest_data, flag_data, number_data, said, text_data};

use crate::keys::camel;
use base64::engine::general_purpose::STANDARD;
use plain_values::NoMemory;
use serde_json::{Map, Value};
use std::alloc::Global;
use wire_messages::JsonKey;

/// An object that is written part by part. A part at its default is left out.
#[derive(Drop)]
pub(crate) struct Parts {
    alloc: Global,
    map: Map<String, Value>,
}

impl Parts {
    pub(crate) fn new(alloc: Global) -> Parts
        ensures { members_view result.map.entries ≡ no_members }
    {
        Parts {
            alloc,
            map: Map::new(alloc),
        }
    }

    fn put(&mut self, key: JsonKey, value: Value) -> Result<(), NoMemory>
        ensures { OnOk result (members_view self.new.map.entries
            ≡ put (camel key) (view value) (members_view self.old.map.entries)) }
    {
        serde_json::put(&mut self.map, self.alloc, camel(key), value)?;
        Ok(())
    }

    pub(crate) fn number(&mut self, key: JsonKey, number: i32) -> Result<(), NoMemory>
        ensures { OnOk result (members_view self.new.map.entries
            ≡ said key (number_data number) (members_view self.old.map.entries)) }
    {
        if number == 0 {
            return Ok(());
        }
        self.put(key, Value::from(number))
    }

    pub(crate) fn flag(&mut self, key: JsonKey, flag: bool) -> Result<(), NoMemory>
        ensures { OnOk result (members_view self.new.map.entries
            ≡ said key (flag_data flag) (members_view self.old.map.entries)) }
    {
        if flag {
            self.put(key, Value::Bool(true))?;
        }
        Ok(())
    }

    pub(crate) fn text(&mut self, key: JsonKey, text: &str) -> Result<(), NoMemory>
        ensures { OnOk result (members_view self.new.map.entries
            ≡ said key (text_data text.now) (members_view self.old.map.entries)) }
    {
        if text.is_empty() {
            return Ok(());
        }
        let copy = String::from_str(self.alloc, text)?;
        self.put(key, Value::String(copy))
    }

    pub(crate) fn digest(&mut self, key: JsonKey, bytes: &[u8]) -> Result<(), NoMemory>
        ensures put { OnOk result (members_view self.new.map.entries
            ≡ said key (digest_data bytes.now) (members_view self.old.map.entries)) }
        ensures bytes { IsBytes bytes.now }
    {
        if bytes.is_empty() {
            return Ok(());
        }
        let text = STANDARD.encode(self.alloc, bytes)?;
        self.put(key, Value::String(text))
    }

    pub(crate) fn list(&mut self, key: JsonKey, values: Vec<Value>) -> Result<(), NoMemory>
        ensures { OnOk result (members_view self.new.map.entries
            ≡ said key (array_data (map view values.items)) (members_view self.old.map.entries)) }
    {
        if values.is_empty() {
            return Ok(());
        }
        self.put(key, Value::Array(values))
    }

    pub(crate) fn into_object(self) -> Value
        ensures { view result ≡ object (members_view self.map.entries) }
    {
        let Parts { map, .. } = self;
        Value::Object(map)
    }
}
