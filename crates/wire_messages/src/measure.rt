// The lengths of fields in bytes, without writing any. A length of more than 64 bits is returned as the largest one.
ghost use Rattle.std.specs.Prelude.{◌≡◌, ◌++◌, ◌+◌, ◌<◌, ◌≤◌, ◌^◌, List, ℕ, length, map};
ghost use Rattle.wire_fields.specs.Spelling.{spelling, capped, number_field, int32_field, bool_field, bytes_field, one_bytes, repeated_field};

use crate::message::Message;
use plain_values::Text;
use wire_fields::varint_length;

/// Returns the length of what `push_number` appends.
pub fn number_len(number: u32, value: u64) -> u64
    requires { number < 2 ^ 29 }
    ensures { result ≡ capped (length (spelling (number_field number value))) }
{
    if value == 0 {
        return 0;
    }
    varint_length(8 * u64::from(number)) + varint_length(value)
}

/// Returns the length of what `push_int32` appends.
pub fn int32_len(number: u32, value: i32) -> u64
    requires { number < 2 ^ 29 }
    ensures { result ≡ capped (length (spelling (int32_field number value))) }
{
    number_len(number, i64::from(value).cast_unsigned())
}

/// Returns the length of what `push_bool` appends.
pub fn bool_len(number: u32, value: bool) -> u64
    requires { number < 2 ^ 29 }
    ensures { result ≡ capped (length (spelling (bool_field number value))) }
{
    number_len(number, u64::from(value))
}

/// Returns the length of a field that holds `count` bytes.
pub fn span_len(number: u32, count: u64) -> u64
    requires { number < 2 ^ 29 }
    ensures { (s : List ℕ) → count ≡ capped (length s)
        → result ≡ capped (length (spelling (one_bytes number s))) }
{
    let head = varint_length(8 * u64::from(number) + 2) + varint_length(count);
    head.saturating_add(count)
}

// Returns the length of bytes in a field, even if there are none.
fn one_len(number: u32, bytes: &[u8]) -> u64
    requires { number < 2 ^ 29 }
    ensures { result ≡ capped (length (spelling (one_bytes number bytes.now))) }
{
    span_len(number, bytes.len() as u64)
}

/// Returns the length of what `push_bytes` appends.
pub fn bytes_len(number: u32, bytes: &[u8]) -> u64
    requires { number < 2 ^ 29 }
    ensures { result ≡ capped (length (spelling (bytes_field number bytes.now))) }
{
    if bytes.is_empty() {
        return 0;
    }
    one_len(number, bytes)
}

/// Returns the length of what `push_texts` appends.
pub fn texts_len(number: u32, texts: &[Text]) -> u64
    requires { number < 2 ^ 29 }
    ensures { result ≡ capped (length (spelling (repeated_field number texts.now))) }
{
    let mut total = 0u64;
    for text in texts {
        total = total.saturating_add(one_len(number, text.as_str().as_bytes()));
    }
    total
}

/// Returns the length of what `push_messages` appends.
pub fn messages_len<M: Message>(number: u32, messages: &[M]) -> u64
    requires { number < 2 ^ 29 }
    ensures { result ≡ capped (length (spelling (repeated_field number (map (λ m. spelling
        (M.fields m)) messages.now)))) }
{
    let mut total = 0u64;
    for message in messages {
        total = total.saturating_add(span_len(number, message.encoded_len()));
    }
    total
}
