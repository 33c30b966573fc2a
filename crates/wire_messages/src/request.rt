// Work requests.
ghost use Rattle.std.specs.Prelude.{◌≡◌, IfOk, IfErr, Ok, Err};
ghost use Rattle.wire_fields.specs.Varint.{Fault};
ghost use Rattle.wire_messages.specs.Request.{SpellsRequest, FaultyRequest, request_spelling};
ghost use Rattle.wire_messages.specs.declared.request.WorkRequest.{WorkRequest};
ghost use Rattle.wire_messages.specs.Fault.{Fails, Answers};

use crate::fault::MessageFault;
use crate::input::Input;
use crate::measure::{bool_len, bytes_len, int32_len, messages_len, texts_len};
use crate::message::{Message, decode, encode};
use crate::push::{push_bool, push_bytes, push_int32, push_messages, push_texts};
use crate::value::Value;
use plain_values::{Items, NoMemory, Text};
use std::alloc::Global;

/// A request to a worker.
#[derive(Drop)]
pub struct WorkRequest {
    pub arguments: Items<Text>,
    pub inputs: Items<Input>,
    /// 0 for a worker that has one request at a time.
    pub request_id: i32,
    /// True if the request with this number should be cancelled. The other parts are then at their defaults.
    pub cancel: bool,
    /// The amount of output that the worker may print; 0 is the least.
    pub verbosity: i32,
    /// The directory in which a multiplex worker should work, or empty.
    pub sandbox_dir: Text,
}

impl Message for WorkRequest {
    ghost use Rattle.wire_messages.specs.Request.{IsRequest, request_refuses, request_fields, IsRequestValue};

    ghost means = { IsRequest };

    ghost refuses = { request_refuses };

    ghost fields = { request_fields };

    ghost has_form = { IsRequestValue };

    ghost use Rattle.wire_messages.specs.RequestLaws.{one_request, one_request_fault, request_again};

    ghost again = { request_again };

    ghost one_meaning = { one_request };

    ghost one_fault = { one_request_fault };

    #[tactic(auto, using(wire_fields::proofs::Values::field_starts))]
    fn empty(alloc: Global) -> Result<WorkRequest, MessageFault> {
        Ok(WorkRequest {
            arguments: Items::of(Vec::new(alloc)),
            inputs: Items::of(Vec::new(alloc)),
            request_id: 0,
            cancel: false,
            verbosity: 0,
            sandbox_dir: Text::of(String::new(alloc)),
        })
    }

    #[tactic(auto, using(wire_fields::proofs::Values::field_steps))]
    fn take(&mut self, alloc: Global, number: u32, value: Value<'_>) -> Result<(), MessageFault> {
        match number {
            1 => value.push_text(alloc, &mut self.arguments)?,
            2 => value.push_message(alloc, &mut self.inputs)?,
            3 => value.set_int32(&mut self.request_id),
            4 => value.set_bool(&mut self.cancel),
            5 => value.set_int32(&mut self.verbosity),
            6 => value.set_text(alloc, &mut self.sandbox_dir)?,
            _ => {}
        }
        Ok(())
    }

    fn encoded_len(&self) -> u64 {
        let arguments = texts_len(1, self.arguments.as_slice());
        let inputs = messages_len(2, self.inputs.as_slice());
        let request_id = int32_len(3, self.request_id);
        let cancel = bool_len(4, self.cancel);
        let verbosity = int32_len(5, self.verbosity);
        let sandbox_dir = bytes_len(6, self.sandbox_dir.as_str().as_bytes());
        arguments
            .saturating_add(inputs)
            .saturating_add(request_id)
            .saturating_add(cancel)
            .saturating_add(verbosity)
            .saturating_add(sandbox_dir)
    }

    fn put(&self, out: &mut Vec<u8>) -> Result<(), NoMemory> {
        push_texts(out, 1, self.arguments.as_slice())?;
        push_messages(out, 2, self.inputs.as_slice())?;
        push_int32(out, 3, self.request_id)?;
        push_bool(out, 4, self.cancel)?;
        push_int32(out, 5, self.verbosity)?;
        push_bytes(out, 6, self.sandbox_dir.as_str().as_bytes())?;
        Ok(())
    }
}

/// Returns the request that the bytes spell.
///
/// # Errors
///
/// Returns the first fault from the left, or `NoMemory` if memory runs out.
pub fn decode_request(alloc: Global, bytes: &[u8]) -> Result<WorkRequest, MessageFault>
    // The bytes spell the request that is returned.
    ensures found { IfOk result (SpellsRequest bytes.now) }
    // A fault that is returned is the first one.
    ensures fault { IfErr result (λ e. Fails e (FaultyRequest bytes.now)) }
    // A request that the bytes spell is returned, and so is the first fault, unless memory runs out.
    ensures only { (m : WorkRequest) → SpellsRequest bytes.now m → Answers result (Ok m) }
    ensures only_fault { (x : Fault) → FaultyRequest bytes.now x → Answers result (Err x) }
{
    decode::<WorkRequest>(alloc, bytes)
}

/// Returns the only spelling of the request.
///
/// # Errors
///
/// Returns `NoMemory` if memory runs out.
pub fn encode_request(alloc: Global, m: &WorkRequest) -> Result<Vec<u8>, NoMemory>
    ensures written { IfOk result (λ v. v.items ≡ request_spelling m.now) }
    ensures spelled { IfOk result (λ v. SpellsRequest v.items m.now) }
{
    encode(alloc, m)
}
