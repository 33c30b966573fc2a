// Lines of messages.
ghost use Rattle.std.specs.Prelude.{◌≡◌, ◌++◌, ◌∷◌, ◌≤◌, [], true, false, IfOk, OnOk, Ok, map};
ghost use Rattle.std.specs.Str.{is_utf8};
ghost use Rattle.serde_json.specs.Data.{depth, string};
ghost use Rattle.serde_json.specs.Read.{read};
ghost use Rattle.serde_json.specs.View.{view};
ghost use Rattle.serde_json.specs.Written.{compact_text, has_float};
ghost use Rattle.json_messages.specs.Messages.{input_in, request_in, request_of, response_in, response_of};
ghost use Rattle.json_messages.specs.OneLine.{IsOneLine};
ghost use Rattle.json_messages.specs.Top.{json_in};
ghost use Rattle.json_messages.specs.Values.{each};
ghost use Rattle.json_messages.specs.Writing.{input_data, request_data, request_text, response_data, response_text};

use crate::parts::Parts;
use plain_values::{NoMemory, Text};
use serde_json::Value;
use std::alloc::Global;
use wire_messages::{Input, JsonKey, WorkRequest, WorkResponse};

/// Returns the line of a response. Its only line feed is at its end. If it is read without it, the result is the
/// response again.
///
/// # Errors
///
/// Returns `NoMemory` if memory runs out.
pub fn response_line(alloc: Global, m: &WorkResponse) -> Result<Vec<u8>, NoMemory>
    ensures written { IfOk result (λ v. v.items ≡ response_text m.now ++ 10 ∷ []) }
    ensures spelled { OnOk result (response_of (response_text m.now) ≡ Ok m.now) }
    ensures one_line { OnOk result (IsOneLine (response_text m.now)) }
{
    let object = response_object(alloc, m)?;
    line_of(alloc, &object)
}

fn response_object(alloc: Global, m: &WorkResponse) -> Result<Value, NoMemory>
    ensures written { IfOk result (λ v. view v ≡ response_data m.now) }
    ensures again { OnOk result (response_in (response_data m.now) ≡ Ok m.now) }
    ensures one_line { OnOk result (IsOneLine (response_text m.now)) }
{
    let mut parts = Parts::new(alloc);
    parts.number(JsonKey::ExitCode, m.exit_code)?;
    parts.text(JsonKey::Output, m.output.as_str())?;
    parts.number(JsonKey::RequestId, m.request_id)?;
    parts.flag(JsonKey::WasCancelled, m.was_cancelled)?;
    Ok(parts.into_object())
}

/// Returns the line of a request. Its only line feed is at its end. If it is read without it, the result is the request
/// again.
///
/// # Errors
///
/// Returns `NoMemory` if memory runs out.
pub fn request_line(alloc: Global, m: &WorkRequest) -> Result<Vec<u8>, NoMemory>
    ensures written { IfOk result (λ v. v.items ≡ request_text m.now ++ 10 ∷ []) }
    ensures spelled { OnOk result (request_of (request_text m.now) ≡ Ok m.now) }
    ensures one_line { OnOk result (IsOneLine (request_text m.now)) }
{
    let object = request_object(alloc, m)?;
    line_of(alloc, &object)
}

fn request_object(alloc: Global, m: &WorkRequest) -> Result<Value, NoMemory>
    ensures written { IfOk result (λ v. view v ≡ request_data m.now) }
    ensures again { OnOk result (request_in (request_data m.now) ≡ Ok m.now) }
    ensures one_line { OnOk result (IsOneLine (request_text m.now)) }
{
    let arguments = text_values(alloc, m.arguments.as_slice())?;
    let inputs = input_values(alloc, m.inputs.as_slice())?;
    let mut parts = Parts::new(alloc);
    parts.list(JsonKey::Arguments, arguments)?;
    parts.list(JsonKey::Inputs, inputs)?;
    parts.number(JsonKey::RequestId, m.request_id)?;
    parts.flag(JsonKey::Cancel, m.cancel)?;
    parts.number(JsonKey::Verbosity, m.verbosity)?;
    parts.text(JsonKey::SandboxDir, m.sandbox_dir.as_str())?;
    Ok(parts.into_object())
}

// Returns an object's text and a line feed.
fn line_of(alloc: Global, object: &Value) -> Result<Vec<u8>, NoMemory>
    requires plain { has_float (view object.now) ≡ false }
    requires shallow { depth (view object.now) ≤ 127 }
    ensures written { IfOk result (λ v. v.items ≡ compact_text (view object.now) ++ 10 ∷ []) }
    ensures again { OnOk result (json_in (compact_text (view object.now)) ≡ Ok (view object.now)) }
{
    let mut line = object.to_vec(alloc)?;
    line.push(b'\n')?;
    Ok(line)
}

fn text_values(alloc: Global, texts: &[Text]) -> Result<Vec<Value>, NoMemory>
    ensures { IfOk result (λ v. map view v.items ≡ map string texts.now) }
{
    let mut values = Vec::with_capacity(alloc, texts.len())?;
    for text in texts {
        values.push(Value::String(String::from_str(alloc, text.as_str())?))?;
    }
    Ok(values)
}

fn input_values(alloc: Global, inputs: &[Input]) -> Result<Vec<Value>, NoMemory>
    ensures written { IfOk result (λ v. map view v.items ≡ map input_data inputs.now) }
    ensures again { OnOk result (each input_in (map input_data inputs.now) ≡ Ok inputs.now) }
{
    let mut values = Vec::with_capacity(alloc, inputs.len())?;
    for input in inputs {
        values.push(input_value(alloc, input)?)?;
    }
    Ok(values)
}

fn input_value(alloc: Global, input: &Input) -> Result<Value, NoMemory>
    ensures written { IfOk result (λ v. view v ≡ input_data input.now) }
    ensures again { OnOk result (input_in (input_data input.now) ≡ Ok input.now) }
{
    let mut parts = Parts::new(alloc);
    parts.text(JsonKey::Path, input.path.as_str())?;
    parts.digest(JsonKey::Digest, input.digest.as_slice())?;
    Ok(parts.into_object())
}
