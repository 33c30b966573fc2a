// Work responses.
ghost use Rattle.std.specs.Prelude.{◌≡◌, IfOk, IfErr, Ok, Err};
ghost use Rattle.wire_fields.specs.Varint.{Fault};
ghost use Rattle.wire_messages.specs.Response.{SpellsResponse, FaultyResponse, response_spelling};
ghost use Rattle.wire_messages.specs.declared.response.WorkResponse.{WorkResponse};
ghost use Rattle.wire_messages.specs.Fault.{Fails, Answers};

use crate::fault::MessageFault;
use crate::measure::{bool_len, bytes_len, int32_len};
use crate::message::{Message, decode, encode};
use crate::push::{push_bool, push_bytes, push_int32};
use crate::value::Value;
use plain_values::{NoMemory, Text};
use std::alloc::Global;

/// A worker's response.
#[derive(Drop)]
pub struct WorkResponse {
    pub exit_code: i32,
    /// The worker's output, for people.
    pub output: Text,
    /// The number of the request.
    pub request_id: i32,
    /// True if the request was cancelled. Exit code and output then mean nothing.
    pub was_cancelled: bool,
}

impl Message for WorkResponse {
    ghost use Rattle.wire_messages.specs.Response.{IsResponse, response_refuses, response_fields, IsResponseValue};

    ghost means = { IsResponse };

    ghost refuses = { response_refuses };

    ghost fields = { response_fields };

    ghost has_form = { IsResponseValue };

    ghost use Rattle.wire_messages.specs.ResponseLaws.{one_response, one_response_fault, response_again};

    ghost again = { response_again };

    ghost one_meaning = { one_response };

    ghost one_fault = { one_response_fault };

    #[tactic(auto, using(wire_fields::proofs::Values::field_starts))]
    fn empty(alloc: Global) -> Result<WorkResponse, MessageFault> {
        Ok(WorkResponse {
            exit_code: 0,
            output: Text::of(String::new(alloc)),
            request_id: 0,
            was_cancelled: false,
        })
    }

    #[tactic(auto, using(wire_fields::proofs::Values::field_steps))]
    fn take(&mut self, alloc: Global, number: u32, value: Value<'_>) -> Result<(), MessageFault> {
        match number {
            1 => value.set_int32(&mut self.exit_code),
            2 => value.set_text(alloc, &mut self.output)?,
            3 => value.set_int32(&mut self.request_id),
            4 => value.set_bool(&mut self.was_cancelled),
            _ => {}
        }
        Ok(())
    }

    fn encoded_len(&self) -> u64 {
        let exit_code = int32_len(1, self.exit_code);
        let output = bytes_len(2, self.output.as_str().as_bytes());
        let request_id = int32_len(3, self.request_id);
        let was_cancelled = bool_len(4, self.was_cancelled);
        exit_code
            .saturating_add(output)
            .saturating_add(request_id)
            .saturating_add(was_cancelled)
    }

    fn put(&self, out: &mut Vec<u8>) -> Result<(), NoMemory> {
        push_int32(out, 1, self.exit_code)?;
        push_bytes(out, 2, self.output.as_str().as_bytes())?;
        push_int32(out, 3, self.request_id)?;
        push_bool(out, 4, self.was_cancelled)?;
        Ok(())
    }
}

/// Returns the response that the bytes spell.
///
/// # Errors
///
/// Returns the first fault from the left, or `NoMemory` if memory runs out.
pub fn decode_response(alloc: Global, bytes: &[u8]) -> Result<WorkResponse, MessageFault>
    // The bytes spell the response that is returned.
    ensures found { IfOk result (SpellsResponse bytes.now) }
    // A fault that is returned is the first one.
    ensures fault { IfErr result (λ e. Fails e (FaultyResponse bytes.now)) }
    // A response that the bytes spell is returned, and so is the first fault, unless memory runs out.
    ensures only { (m : WorkResponse) → SpellsResponse bytes.now m → Answers result (Ok m) }
    ensures only_fault { (x : Fault) → FaultyResponse bytes.now x → Answers result (Err x) }
{
    decode::<WorkResponse>(alloc, bytes)
}

/// Returns the only spelling of the response.
///
/// # Errors
///
/// Returns `NoMemory` if memory runs out.
pub fn encode_response(alloc: Global, m: &WorkResponse) -> Result<Vec<u8>, NoMemory>
    ensures written { IfOk result (λ v. v.items ≡ response_spelling m.now) }
    ensures spelled { IfOk result (λ v. SpellsResponse v.items m.now) }
{
    encode(alloc, m)
}
