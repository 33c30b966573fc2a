// Inputs of a request.
use crate::fault::MessageFault;
use crate::measure::bytes_len;
use crate::message::Message;
use crate::push::push_bytes;
use crate::value::Value;
use plain_values::{Items, NoMemory, Text};
use std::alloc::Global;

/// A file that a request may read, and the digest of its bytes.
#[derive(Drop)]
pub struct Input {
    pub path: Text,
    pub digest: Items<u8>,
}

impl Message for Input {
    ghost use Rattle.wire_messages.specs.Input.{IsInput, input_refuses, input_fields, IsInputValue};

    ghost means = { IsInput };

    ghost refuses = { input_refuses };

    ghost fields = { input_fields };

    ghost has_form = { IsInputValue };

    ghost use Rattle.wire_messages.specs.InputLaws.{one_input, one_input_fault, input_again};

    ghost again = { input_again };

    ghost one_meaning = { one_input };

    ghost one_fault = { one_input_fault };

    #[tactic(auto, using(wire_fields::proofs::Values::field_starts))]
    fn empty(alloc: Global) -> Result<Input, MessageFault> {
        Ok(Input {
            path: Text::of(String::new(alloc)),
            digest: Items::of(Vec::new(alloc)),
        })
    }

    #[tactic(auto, using(wire_fields::proofs::Values::field_steps))]
    fn take(&mut self, alloc: Global, number: u32, value: Value<'_>) -> Result<(), MessageFault> {
        match number {
            1 => value.set_text(alloc, &mut self.path)?,
            2 => value.set_bytes(alloc, &mut self.digest)?,
            _ => {}
        }
        Ok(())
    }

    fn encoded_len(&self) -> u64 {
        let path = bytes_len(1, self.path.as_str().as_bytes());
        path.saturating_add(bytes_len(2, self.digest.as_slice()))
    }

    fn put(&self, out: &mut Vec<u8>) -> Result<(), NoMemory> {
        push_bytes(out, 1, self.path.as_str().as_bytes())?;
        push_bytes(out, 2, self.digest.as_slice())?;
        Ok(())
    }
}
