// The value at a key, as a value of the key's kind.
ghost use Rattle.std.specs.Prelude.{◌≡◌, map, Some};
ghost use Rattle.serde_json.specs.View.{view};
ghost use Rattle.json_messages.specs.Answers.{Answers, AnswersAs};
ghost use Rattle.json_messages.specs.Values.{digest_at, digest_in, flag_at, flag_in, in_range, is_whole_text, number_at, number_in, text_at, text_in, texts_at, text_number, number_of, each, bytes_of, elements, are_digits, all_digits};

use crate::keys::value_at;
use base64::DecodeAllocError;
use base64::engine::general_purpose::STANDARD;
use plain_values::{Items, Text};
use serde_json::Value;
use std::alloc::Global;
use wire_messages::{JsonKey, MessageFault};

pub(crate) fn number_at(object: &Value, key: JsonKey) -> Result<i32, MessageFault>
    ensures { Answers result (number_at key (view object.now)) }
{
    match value_at(object, key) {
        None => Ok(0),
        Some(value) => number_in(value, key),
    }
}

// Returns a number, which may also be given as a string.
fn number_in(value: &Value, key: JsonKey) -> Result<i32, MessageFault>
    ensures { Answers result (number_in key (view value.now)) }
{
    match value.as_str() {
        Some(text) => number_of_text(text, key),
        None => number_of_number(value, key),
    }
}

fn number_of_number(value: &Value, key: JsonKey) -> Result<i32, MessageFault>
    ensures { Answers result (in_range key (number_of (view value.now))) }
{
    match value.as_i64() {
        Some(number) => small(number, key),
        None => match value.as_u64() {
            Some(_) => Err(MessageFault::OutOfRange(key)),
            None => Err(MessageFault::WrongKind(key)),
        },
    }
}

fn small(number: i64, key: JsonKey) -> Result<i32, MessageFault>
    ensures { result ≡ in_range key (Some number) }
{
    if number < i64::from(i32::MIN) || number > i64::from(i32::MAX) {
        return Err(MessageFault::OutOfRange(key));
    }
    Ok(number as i32)
}

fn number_of_text(text: &str, key: JsonKey) -> Result<i32, MessageFault>
    ensures { result ≡ in_range key (text_number text.now) }
{
    if !is_whole_text(text.as_bytes()) {
        return Err(MessageFault::WrongKind(key));
    }
    match text.parse::<i32>() {
        Ok(number) => Ok(number),
        Err(_) => Err(MessageFault::OutOfRange(key)),
    }
}

// Returns true for an optional minus and decimal digits. The first digit is 0 only if it is the only one.
fn is_whole_text(text: &[u8]) -> bool
    ensures { result ≡ is_whole_text text.now }
{
    match text {
        [b'-', digits @ ..] => are_digits(digits),
        digits => are_digits(digits),
    }
}

fn are_digits(digits: &[u8]) -> bool
    ensures { result ≡ are_digits digits.now }
{
    match digits {
        [] => false,
        [b'0', more @ ..] => more.is_empty(),
        _ => all_digits(digits),
    }
}

fn all_digits(digits: &[u8]) -> bool
    ensures { result ≡ all_digits digits.now }
{
    for digit in digits {
        if !digit.is_ascii_digit() {
            return false;
        }
    }
    true
}

pub(crate) fn flag_at(object: &Value, key: JsonKey) -> Result<bool, MessageFault>
    ensures { Answers result (flag_at key (view object.now)) }
{
    match value_at(object, key) {
        None => Ok(false),
        Some(value) => value.as_bool().ok_or(MessageFault::WrongKind(key)),
    }
}

pub(crate) fn text_at(alloc: Global, object: &Value, key: JsonKey) -> Result<Text, MessageFault>
    ensures { Answers result (text_at key (view object.now)) }
{
    match value_at(object, key) {
        None => Ok(Text::of(String::new(alloc))),
        Some(value) => text_in(alloc, value, key),
    }
}

fn text_in(alloc: Global, value: &Value, key: JsonKey) -> Result<Text, MessageFault>
    ensures { Answers result (text_in key (view value.now)) }
{
    match value.as_str() {
        None => Err(MessageFault::WrongKind(key)),
        Some(text) => Ok(Text::copy_of(alloc, text)?),
    }
}

pub(crate) fn digest_at(alloc: Global, object: &Value) -> Result<Items<u8>, MessageFault>
    ensures { Answers result (digest_at (view object.now)) }
{
    match value_at(object, JsonKey::Digest) {
        None => Ok(Items::of(Vec::new(alloc))),
        Some(value) => digest_in(alloc, value),
    }
}

// Returns bytes in padded base64.
fn digest_in(alloc: Global, value: &Value) -> Result<Items<u8>, MessageFault>
    ensures { Answers result (digest_in (view value.now)) }
{
    match value.as_str() {
        None => Err(MessageFault::WrongKind(JsonKey::Digest)),
        Some(text) => decode(alloc, text.as_bytes()),
    }
}

fn decode(alloc: Global, text: &[u8]) -> Result<Items<u8>, MessageFault>
    ensures { Answers result (bytes_of text.now) }
{
    match STANDARD.decode(alloc, text) {
        Ok(bytes) => Ok(Items::of(bytes)),
        Err(DecodeAllocError::OutOfMemory) => Err(MessageFault::NoMemory),
        Err(_) => Err(MessageFault::WrongKind(JsonKey::Digest)),
    }
}

pub(crate) fn texts_at(
    alloc: Global,
    object: &Value,
    key: JsonKey,
) -> Result<Items<Text>, MessageFault>
    ensures { Answers result (texts_at key (view object.now)) }
{
    match value_at(object, key) {
        None => Ok(Items::of(Vec::new(alloc))),
        Some(value) => texts_in(alloc, elements(value, key)?, key),
    }
}

/// Returns the elements of an array.
pub(crate) fn elements(value: &Value, key: JsonKey) -> Result<&[Value], MessageFault>
    ensures { AnswersAs (λ vs. map view vs.now) result (elements key (view value.now)) }
{
    match value.as_array() {
        None => Err(MessageFault::WrongKind(key)),
        Some(list) => Ok(list.as_slice()),
    }
}

fn texts_in(alloc: Global, list: &[Value], key: JsonKey) -> Result<Items<Text>, MessageFault>
    ensures { Answers result (each (text_in key) (map view list.now)) }
{
    let mut texts = Vec::new(alloc);
    for value in list {
        texts.push(text_in(alloc, value, key)?)?;
    }
    Ok(Items::of(texts))
}
