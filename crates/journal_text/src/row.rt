// A row that is written field by field.
ghost use Rattle.std.specs.Prelude.{◌≡◌, ◌++◌, ◌∷◌, [], OnOk, IfOk, map};
ghost use Rattle.serde_json.specs.Data.{boolean, string};
ghost use Rattle.serde_json.specs.View.{view};
ghost use Rattle.base64.specs.GeneralPurpose.{IsBytes};
ghost use Rattle.journal_text.specs.Fits.{IfCount, IsCount, IsSigned};
ghost use Rattle.journal_text.specs.Values.{content_data, count_data, maybe_data, row_data, signed_data};
ghost use Rattle.journal_text.specs.Words.{word_data};

use base64::engine::general_purpose::STANDARD;
use plain_values::{Blob, NoMemory};
use serde_json::Value;
use std::alloc::Global;

/// A row under construction.
#[derive(Drop)]
pub(crate) struct Row {
    alloc: Global,
    values: Vec<Value>,
}

impl Row {
    pub(crate) fn new(alloc: Global) -> Row
        ensures { map view result.values.items ≡ [] }
    {
        Row {
            alloc,
            values: Vec::new(alloc),
        }
    }

    /// Returns the row of a variant, with its name.
    pub(crate) fn variant(alloc: Global, name: &str) -> Result<Row, NoMemory>
        ensures { IfOk result (λ r. map view r.values.items ≡ string name.now ∷ []) }
    {
        let mut row = Row::new(alloc);
        row.text(name)?;
        Ok(row)
    }

    pub(crate) fn value(&mut self, value: Value) -> Result<(), NoMemory>
        ensures { OnOk result (map view self.new.values.items
            ≡ map view self.old.values.items ++ view value ∷ []) }
    {
        self.values.push(value)?;
        Ok(())
    }

    pub(crate) fn count(&mut self, number: u32) -> Result<(), NoMemory>
        ensures put { OnOk result (map view self.new.values.items
            ≡ map view self.old.values.items ++ count_data number ∷ []) }
        ensures fits { IsCount number }
    {
        self.value(Value::from(number))
    }

    pub(crate) fn signed(&mut self, number: i32) -> Result<(), NoMemory>
        ensures put { OnOk result (map view self.new.values.items
            ≡ map view self.old.values.items ++ signed_data number ∷ []) }
        ensures fits { IsSigned number }
    {
        self.value(Value::from(number))
    }

    pub(crate) fn flag(&mut self, flag: bool) -> Result<(), NoMemory>
        ensures { OnOk result (map view self.new.values.items
            ≡ map view self.old.values.items ++ boolean flag ∷ []) }
    {
        self.value(Value::Bool(flag))
    }

    pub(crate) fn text(&mut self, text: &str) -> Result<(), NoMemory>
        ensures { OnOk result (map view self.new.values.items
            ≡ map view self.old.values.items ++ string text.now ∷ []) }
    {
        let copy = String::from_str(self.alloc, text)?;
        self.value(Value::String(copy))
    }

    pub(crate) fn content(&mut self, content: &Blob) -> Result<(), NoMemory>
        ensures put { OnOk result (map view self.new.values.items
            ≡ map view self.old.values.items ++ content_data content.now ∷ []) }
        ensures fits { OnOk result (IsBytes content.now) }
    {
        self.bytes(content.bytes())
    }

    fn bytes(&mut self, bytes: &[u8]) -> Result<(), NoMemory>
        ensures put { OnOk result (map view self.new.values.items
            ≡ map view self.old.values.items ++ content_data bytes.now ∷ []) }
        ensures fits { IsBytes bytes.now }
    {
        let text = STANDARD.encode(self.alloc, bytes)?;
        self.value(Value::String(text))
    }

    pub(crate) fn maybe(&mut self, number: Option<u32>) -> Result<(), NoMemory>
        ensures put { OnOk result (map view self.new.values.items
            ≡ map view self.old.values.items ++ maybe_data number ∷ []) }
        ensures fits { IfCount number }
    {
        match number {
            Some(number) => self.count(number),
            None => self.value(Value::Null),
        }
    }

    pub(crate) fn into_value(self) -> Value
        ensures { view result ≡ row_data (map view self.values.items) }
    {
        let Row { values, .. } = self;
        Value::Array(values)
    }
}

/// Returns a variant without fields.
pub(crate) fn word_value(alloc: Global, name: &str) -> Result<Value, NoMemory>
    ensures { IfOk result (λ v. view v ≡ word_data name.now) }
{
    let row = Row::variant(alloc, name)?;
    Ok(row.into_value())
}
