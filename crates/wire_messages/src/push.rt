// Functions that append fields to bytes.
ghost use Rattle.std.specs.Prelude.{◌≡◌, ◌++◌, ◌+◌, ◌<◌, ◌≤◌, ◌^◌, length, map, All, OnOk};
ghost use Rattle.wire_fields.specs.Spelling.{spelling, number_field, int32_field, bool_field, bytes_field, one_bytes, repeated_field};
ghost use Rattle.wire_fields.specs.After.{IsText};

use crate::message::Message;
use plain_values::{NoMemory, Text};
use wire_fields::push_varint;

/// Appends a number, if it is not 0.
pub fn push_number(out: &mut Vec<u8>, number: u32, value: u64) -> Result<(), NoMemory>
    requires { number < 2 ^ 29 }
    ensures { OnOk result (out.new.items ≡ out.old.items ++ spelling (number_field number value)) }
{
    if value == 0 {
        return Ok(());
    }
    push_varint(8 * u64::from(number), out)?;
    push_varint(value, out)
}

/// Appends a signed number, if it is not 0. A negative one takes ten bytes.
pub fn push_int32(out: &mut Vec<u8>, number: u32, value: i32) -> Result<(), NoMemory>
    requires { number < 2 ^ 29 }
    ensures { OnOk result (out.new.items ≡ out.old.items ++ spelling (int32_field number value)) }
{
    push_number(out, number, i64::from(value).cast_unsigned())
}

/// Appends a flag, if it is set.
pub fn push_bool(out: &mut Vec<u8>, number: u32, value: bool) -> Result<(), NoMemory>
    requires { number < 2 ^ 29 }
    ensures { OnOk result (out.new.items ≡ out.old.items ++ spelling (bool_field number value)) }
{
    push_number(out, number, u64::from(value))
}

// Appends bytes, even if there are none.
fn push_one(out: &mut Vec<u8>, number: u32, bytes: &[u8]) -> Result<(), NoMemory>
    requires { number < 2 ^ 29 }
    ensures put { OnOk result (out.new.items ≡ out.old.items ++ spelling
        (one_bytes number bytes.now)) }
    ensures fits { length bytes.now < 2 ^ 64 }
{
    push_varint(8 * u64::from(number) + 2, out)?;
    push_varint(bytes.len() as u64, out)?;
    out.extend_from_slice(bytes)?;
    Ok(())
}

/// Appends bytes, if there are any.
pub fn push_bytes(out: &mut Vec<u8>, number: u32, bytes: &[u8]) -> Result<(), NoMemory>
    requires { number < 2 ^ 29 }
    ensures put { OnOk result (out.new.items ≡ out.old.items ++ spelling
        (bytes_field number bytes.now)) }
    ensures fits { length bytes.now < 2 ^ 64 }
{
    if bytes.is_empty() {
        return Ok(());
    }
    push_one(out, number, bytes)
}

/// Appends each string.
pub fn push_texts(out: &mut Vec<u8>, number: u32, texts: &[Text]) -> Result<(), NoMemory>
    requires { number < 2 ^ 29 }
    ensures put { OnOk result (out.new.items ≡ out.old.items ++ spelling
        (repeated_field number texts.now)) }
    ensures texts { OnOk result (All IsText texts.now) }
{
    for text in texts {
        push_one(out, number, text.as_str().as_bytes())?;
    }
    Ok(())
}

/// Appends a message, even if its form is empty. It is written directly to its place, after its length.
pub fn push_message<M: Message>(out: &mut Vec<u8>, number: u32, message: &M) -> Result<(), NoMemory>
    requires { number < 2 ^ 29 }
    ensures put { OnOk result (out.new.items ≡ out.old.items ++ spelling (one_bytes number
        (spelling (M.fields message.now)))) }
    ensures form { OnOk result (M.has_form message.now
        × (length (spelling (M.fields message.now)) < 2 ^ 64)) }
{
    push_varint(8 * u64::from(number) + 2, out)?;
    push_varint(message.encoded_len(), out)?;
    message.put(out)?;
    Ok(())
}

/// Appends each message.
pub fn push_messages<M: Message>(
    out: &mut Vec<u8>,
    number: u32,
    messages: &[M],
) -> Result<(), NoMemory>
    requires { number < 2 ^ 29 }
    ensures put { OnOk result (out.new.items ≡ out.old.items ++ spelling (repeated_field number
        (map (λ m. spelling (M.fields m)) messages.now))) }
    ensures forms { OnOk result (All (λ m. M.has_form m
        × (length (spelling (M.fields m)) < 2 ^ 64)) messages.now) }
{
    for message in messages {
        push_message(out, number, message)?;
    }
    Ok(())
}
