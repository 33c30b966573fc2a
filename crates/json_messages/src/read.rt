// Messages from lines.
ghost use Rattle.std.specs.Prelude.{◌≡◌, map};
ghost use Rattle.serde_json.specs.View.{view};
ghost use Rattle.json_messages.specs.Answers.{Answers};
ghost use Rattle.json_messages.specs.Values.{each};
ghost use Rattle.json_messages.specs.Messages.{input_in, inputs_at, request_in, request_of, response_in, response_of};

use crate::keys::value_at;
use crate::top::read_object;
use crate::values::{digest_at, elements, flag_at, number_at, text_at, texts_at};
use plain_values::Items;
use serde_json::Value;
use std::alloc::Global;
use wire_messages::{Input, JsonKey, MessageFault, WorkRequest, WorkResponse};

/// Returns the response that a line spells, without its line feed.
///
/// # Errors
///
/// Returns `NotJson`, `NotObject`, or the first `WrongKind` or `OutOfRange` in the order of the field numbers. Returns
/// `NoMemory` if memory runs out.
pub fn read_response_line(alloc: Global, line: &[u8]) -> Result<WorkResponse, MessageFault>
    ensures { Answers result (response_of line.now) }
{
    let object = read_object(alloc, line)?;
    response_in(alloc, &object)
}

fn response_in(alloc: Global, object: &Value) -> Result<WorkResponse, MessageFault>
    ensures { Answers result (response_in (view object.now)) }
{
    Ok(WorkResponse {
        exit_code: number_at(object, JsonKey::ExitCode)?,
        output: text_at(alloc, object, JsonKey::Output)?,
        request_id: number_at(object, JsonKey::RequestId)?,
        was_cancelled: flag_at(object, JsonKey::WasCancelled)?,
    })
}

/// Returns the request that a line spells, without its line feed.
///
/// # Errors
///
/// Returns `NotJson`, `NotObject`, or the first `WrongKind` or `OutOfRange` in the order of the field numbers. The
/// elements of a list are read from its front, and a path before its digest. Returns `NoMemory` if memory runs out.
pub fn read_request_line(alloc: Global, line: &[u8]) -> Result<WorkRequest, MessageFault>
    ensures { Answers result (request_of line.now) }
{
    let object = read_object(alloc, line)?;
    request_in(alloc, &object)
}

fn request_in(alloc: Global, object: &Value) -> Result<WorkRequest, MessageFault>
    ensures { Answers result (request_in (view object.now)) }
{
    Ok(WorkRequest {
        arguments: texts_at(alloc, object, JsonKey::Arguments)?,
        inputs: inputs_at(alloc, object)?,
        request_id: number_at(object, JsonKey::RequestId)?,
        cancel: flag_at(object, JsonKey::Cancel)?,
        verbosity: number_at(object, JsonKey::Verbosity)?,
        sandbox_dir: text_at(alloc, object, JsonKey::SandboxDir)?,
    })
}

fn inputs_at(alloc: Global, object: &Value) -> Result<Items<Input>, MessageFault>
    ensures { Answers result (inputs_at (view object.now)) }
{
    match value_at(object, JsonKey::Inputs) {
        None => Ok(Items::of(Vec::new(alloc))),
        Some(value) => inputs_in(alloc, elements(value, JsonKey::Inputs)?),
    }
}

fn inputs_in(alloc: Global, list: &[Value]) -> Result<Items<Input>, MessageFault>
    ensures { Answers result (each input_in (map view list.now)) }
{
    let mut inputs = Vec::new(alloc);
    for value in list {
        inputs.push(input_in(alloc, value)?)?;
    }
    Ok(Items::of(inputs))
}

fn input_in(alloc: Global, value: &Value) -> Result<Input, MessageFault>
    ensures { Answers result (input_in (view value.now)) }
{
    if !value.is_object() {
        return Err(MessageFault::WrongKind(JsonKey::Inputs));
    }
    Ok(Input {
        path: text_at(alloc, value, JsonKey::Path)?,
        digest: digest_at(alloc, value)?,
    })
}
