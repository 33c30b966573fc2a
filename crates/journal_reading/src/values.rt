// The parts of lines, read from the tokens of a JSON text.
ghost use Rattle.std.specs.Prelude.{◌≡◌};
ghost use Rattle.json.specs.Reads.{token_of};
ghost use Rattle.base64.specs.Engines.{standard};
ghost use Rattle.base64.specs.GeneralPurpose.{decode_of};
ghost use Rattle.journal_reading.specs.Pulls.{Ends, Names, Opens, Pulls, PullsAs, PullsRow, Takes, token_as};
ghost use Rattle.journal_reading.specs.Readings.{Reads, ReadsAs};
ghost use Rattle.journal_text.specs.Options.{each};
ghost use Rattle.journal_text.specs.Values.{content_in, count_in, decoded, flag_in, list_in, maybe_in, signed_in, text_in, word_in};

use crate::misread::Misread;
use crate::numbers::{count_of, signed_of};
use base64::DecodeAllocError;
use base64::engine::general_purpose::STANDARD;
use json::{Reader, Token};
use plain_values::{Blob, Items, Text};
use std::alloc::Global;

// ---- tokens

fn next_token<'a>(reader: &mut Reader<'a>) -> Result<Token<'a>, Misread>
    ensures { Takes result reader.old reader.new }
{
    match reader.next() {
        Some(token) => Ok(token),
        None => Err(Misread::Otherwise),
    }
}

/// Takes the bracket that opens an array.
pub(crate) fn open(reader: &mut Reader<'_>) -> Result<(), Misread>
    ensures { Opens result reader.old reader.new }
{
    match reader.next() {
        Some(Token::BeginArray) => Ok(()),
        _ => Err(Misread::Otherwise),
    }
}

/// Takes the bracket that closes an array.
pub(crate) fn end(reader: &mut Reader<'_>) -> Result<(), Misread>
    ensures { Ends result reader.old reader.new }
{
    if reader.take_end_array() {
        Ok(())
    } else {
        Err(Misread::Otherwise)
    }
}

/// Takes the bracket that opens a variant, and its name. Its fields follow.
pub(crate) fn variant<'a>(reader: &mut Reader<'a>) -> Result<&'a str, Misread>
    ensures { Names result reader.old reader.new }
{
    open(reader)?;
    match reader.next() {
        Some(Token::String(name)) => Ok(name),
        _ => Err(Misread::Otherwise),
    }
}

/// Reads a name that has no fields.
pub(crate) fn word<'a>(reader: &mut Reader<'a>) -> Result<&'a str, Misread>
    ensures { PullsAs (λ x. x.now) 1 word_in result reader.old reader.new }
{
    let name = variant(reader)?;
    end(reader)?;
    Ok(name)
}

// ---- values that aren't rows

pub(crate) fn next_count(reader: &mut Reader<'_>) -> Result<u32, Misread>
    ensures { Pulls 0 count_in result reader.old reader.new }
{
    let token = next_token(reader)?;
    count_in(token)
}

fn count_in(token: Token<'_>) -> Result<u32, Misread>
    ensures { Reads result (token_as count_in (token_of token.entry)) }
{
    match token {
        Token::Number(text) => count_of(text),
        _ => Err(Misread::Otherwise),
    }
}

pub(crate) fn next_signed(reader: &mut Reader<'_>) -> Result<i32, Misread>
    ensures { Pulls 0 signed_in result reader.old reader.new }
{
    let token = next_token(reader)?;
    signed_in(token)
}

fn signed_in(token: Token<'_>) -> Result<i32, Misread>
    ensures { Reads result (token_as signed_in (token_of token.entry)) }
{
    match token {
        Token::Number(text) => signed_of(text),
        _ => Err(Misread::Otherwise),
    }
}

pub(crate) fn next_flag(reader: &mut Reader<'_>) -> Result<bool, Misread>
    ensures { Pulls 0 flag_in result reader.old reader.new }
{
    let token = next_token(reader)?;
    flag_in(token)
}

fn flag_in(token: Token<'_>) -> Result<bool, Misread>
    ensures { Reads result (token_as flag_in (token_of token.entry)) }
{
    match token {
        Token::Bool(flag) => Ok(flag),
        _ => Err(Misread::Otherwise),
    }
}

pub(crate) fn next_maybe(reader: &mut Reader<'_>) -> Result<Option<u32>, Misread>
    ensures { Pulls 0 maybe_in result reader.old reader.new }
{
    let token = next_token(reader)?;
    maybe_in(token)
}

fn maybe_in(token: Token<'_>) -> Result<Option<u32>, Misread>
    ensures { Reads result (token_as maybe_in (token_of token.entry)) }
{
    if let Token::Null = token {
        return Ok(None);
    }
    Ok(Some(count_in(token)?))
}

pub(crate) fn next_text(alloc: Global, reader: &mut Reader<'_>) -> Result<Text, Misread>
    ensures { Pulls 0 text_in result reader.old reader.new }
{
    let token = next_token(reader)?;
    text_in(alloc, token)
}

fn text_in(alloc: Global, token: Token<'_>) -> Result<Text, Misread>
    ensures { Reads result (token_as text_in (token_of token.entry)) }
{
    match token {
        Token::String(text) => Ok(Text::copy_of(alloc, text)?),
        _ => Err(Misread::Otherwise),
    }
}

pub(crate) fn next_content(alloc: Global, reader: &mut Reader<'_>) -> Result<Blob, Misread>
    ensures { Pulls 0 content_in result reader.old reader.new }
{
    let token = next_token(reader)?;
    content_in(alloc, token)
}

fn content_in(alloc: Global, token: Token<'_>) -> Result<Blob, Misread>
    ensures { Reads result (token_as content_in (token_of token.entry)) }
{
    match token {
        Token::String(text) => decode(alloc, text.as_bytes()),
        _ => Err(Misread::Otherwise),
    }
}

fn decode(alloc: Global, text: &[u8]) -> Result<Blob, Misread>
    ensures { Reads result (decoded (decode_of standard text.now)) }
{
    match STANDARD.decode(alloc, text) {
        Ok(bytes) => Ok(Blob::of(alloc, bytes)?),
        Err(DecodeAllocError::OutOfMemory) => Err(Misread::NoMemory),
        Err(_) => Err(Misread::Otherwise),
    }
}

// ---- lists

pub(crate) fn next_texts(alloc: Global, reader: &mut Reader<'_>) -> Result<Items<Text>, Misread>
    ensures { Pulls 1 (list_in text_in) result reader.old reader.new }
{
    open(reader)?;
    each_text(alloc, reader)
}

fn each_text(alloc: Global, reader: &mut Reader<'_>) -> Result<Items<Text>, Misread>
    ensures { PullsRow 0 (each text_in) result reader.old reader.new }
{
    let mut texts = Vec::new(alloc);
    'row: while !reader.take_end_array() {
        let text = next_text(alloc, reader)?;
        texts.push(text)?;
    }
    Ok(Items::of(texts))
}

pub(crate) fn next_contents(alloc: Global, reader: &mut Reader<'_>) -> Result<Items<Blob>, Misread>
    ensures { Pulls 1 (list_in content_in) result reader.old reader.new }
{
    open(reader)?;
    each_content(alloc, reader)
}

fn each_content(alloc: Global, reader: &mut Reader<'_>) -> Result<Items<Blob>, Misread>
    ensures { PullsRow 0 (each content_in) result reader.old reader.new }
{
    let mut contents = Vec::new(alloc);
    'row: while !reader.take_end_array() {
        let content = next_content(alloc, reader)?;
        contents.push(content)?;
    }
    Ok(Items::of(contents))
}
