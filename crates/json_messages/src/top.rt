// The object that a line spells.
ghost use Rattle.std.specs.Prelude.{◌≡◌, true, false, MatchOption};
ghost use Rattle.std.specs.Str.{is_utf8};
ghost use Rattle.serde_json.specs.Read.{read};
ghost use Rattle.serde_json.specs.View.{view};
ghost use Rattle.json_messages.specs.Answers.{AnswersAs};
ghost use Rattle.json_messages.specs.Top.{if_read, json_in, object_in};

use serde_json::Value;
use std::alloc::Global;
use wire_messages::MessageFault;

/// Returns the object that the line spells.
pub(crate) fn read_object(alloc: Global, line: &[u8]) -> Result<Value, MessageFault>
    ensures { AnswersAs view result (object_in line.now) }
{
    let value = read_json(alloc, line)?;
    if value.is_object() {
        Ok(value)
    } else {
        Err(MessageFault::NotObject)
    }
}

fn read_json(alloc: Global, line: &[u8]) -> Result<Value, MessageFault>
    ensures { AnswersAs view result (json_in line.now) }
{
    match as_text(line) {
        Some(text) => parse(alloc, text),
        None => Err(MessageFault::NotJson),
    }
}

fn as_text(bytes: &[u8]) -> Option<&str>
    ensures { MatchOption result
        (is_utf8 bytes.now ≡ false)
        (λ t. (is_utf8 bytes.now ≡ true) × (t.now ≡ bytes.now)) }
{
    match str::from_utf8(bytes) {
        Ok(text) => Some(text),
        Err(_) => None,
    }
}

fn parse(alloc: Global, text: &str) -> Result<Value, MessageFault>
    ensures { AnswersAs view result (if_read (read text.now)) }
{
    match Value::from_str(alloc, text) {
        Ok(value) => Ok(value),
        Err(error) => {
            if error.is_memory() {
                return Err(MessageFault::NoMemory);
            }
            Err(MessageFault::NotJson)
        }
    }
}
