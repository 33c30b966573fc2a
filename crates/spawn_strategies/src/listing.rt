// The names that a string lists, and the strategies that a word gives.
ghost use Rattle.std.specs.Prelude.{◌≡◌, IfOk, filter_map, length, map, MatchOption};
ghost use Rattle.std.specs.Option.{option_copied};
ghost use Rattle.std.specs.List.{after_first, before_first, list_all, position_or_len};
ghost use Rattle.list_actions.specs.Order.{is_among};
ghost use Rattle.spawn_strategies.specs.SpawnWords.{are_names, common_in, executor_in, is_equals, is_name, is_taken, name_named, names_of, no_two_alike, pieces_of, rule_in, rule_of};

use crate::numbers::{Number, after_front, behind};
use crate::types::{Name, Rule};
use plain_values::{Items, NoMemory, Text};
use std::alloc::{AllocError, Global};

/// Returns the rule that `--strategy=M=LIST` gives.
///
/// # Errors
///
/// Returns `NoMemory` if memory runs out.
pub fn rule_in(alloc: Global, word: &str) -> Result<Option<Rule>, NoMemory>
    ensures { IfOk result (λ rule. rule ≡ rule_in word.now) }
{
    match after_front("--strategy=", word) {
        None => Ok(None),
        Some(text) => rule_of(alloc, text),
    }
}

/// Returns the list that `--spawn_strategy=LIST` gives.
///
/// # Errors
///
/// Returns `NoMemory` if memory runs out.
pub fn common_in(alloc: Global, word: &str) -> Result<Option<Items<Name>>, NoMemory>
    ensures { IfOk result (λ names. names ≡ common_in word.now) }
{
    match after_front("--spawn_strategy=", word) {
        None => Ok(None),
        Some(text) => names_of(alloc, text),
    }
}

/// Returns the string that `--sandbox_executor=TEXT` gives.
pub fn executor_in(word: &str) -> Option<&str>
    ensures { option_copied result ≡ executor_in word.now }
{
    behind("--sandbox_executor=", word)
}

/// Returns true if the word gives a strategy, a sandbox setting or the delay.
///
/// # Errors
///
/// Returns `NoMemory` if memory runs out.
pub fn is_taken(alloc: Global, word: &str) -> Result<bool, NoMemory>
    ensures { IfOk result (λ taken. taken ≡ is_taken word.now) }
{
    Ok(
        rule_in(alloc, word)?.is_some()
            || common_in(alloc, word)?.is_some()
            || executor_in(word).is_some()
            || Number::Sandboxed.number_in(word).is_some()
            || Number::Delay.number_in(word).is_some(),
    )
}

fn rule_of(alloc: Global, text: &str) -> Result<Option<Rule>, NoMemory>
    ensures { IfOk result (λ rule. rule ≡ rule_of text.now) }
{
    let Some((mnemonic, list)) = cut_at_equals(text) else {
        return Ok(None);
    };
    if mnemonic.is_empty() {
        return Ok(None);
    }
    match names_of(alloc, list)? {
        None => Ok(None),
        Some(names) => Ok(Some(Rule {
            mnemonic: Text::copy_of(alloc, mnemonic)?,
            names,
        })),
    }
}

// Returns the parts before and after the first `=`.
fn cut_at_equals(text: &str) -> Option<(&str, &str)>
    ensures { MatchOption result
        (position_or_len is_equals text.now ≡ length text.now)
        (λ x. (x.0.now ≡ before_first is_equals text.now)
        × (x.1.now ≡ after_first is_equals text.now)) }
{
    text.split_once('=')
}

fn names_of(alloc: Global, text: &str) -> Result<Option<Items<Name>>, NoMemory>
    ensures { IfOk result (λ names. names ≡ names_of text.now) }
{
    let pieces = pieces_of(alloc, text)?;
    if !are_names(pieces.as_slice()) {
        return Ok(None);
    }
    Ok(Some(names_in(alloc, pieces.as_slice())?))
}

// Returns the pieces between the commas.
fn pieces_of(alloc: Global, text: &str) -> Result<Vec<Text>, NoMemory>
    ensures { IfOk result (λ v. v.items ≡ pieces_of text.now) }
{
    let parts = parts_of(alloc, text)?;
    texts_of(alloc, parts.as_slice())
}

fn parts_of(alloc: Global, text: &str) -> Result<Vec<&str>, AllocError>
    ensures { IfOk result (λ v. map (λ x. x.now) v.items ≡ pieces_of text.now) }
{
    text.split(',').collect(alloc)
}

fn texts_of(alloc: Global, parts: &[&str]) -> Result<Vec<Text>, NoMemory>
    ensures { IfOk result (λ v. v.items ≡ map (λ x. x.now) parts.now) }
{
    let mut texts = Vec::with_capacity(alloc, parts.len())?;
    for part in parts {
        texts.push(Text::copy_of(alloc, part)?)?;
    }
    Ok(texts)
}

// Returns true if each piece is a name, and no two are the same.
fn are_names(pieces: &[Text]) -> bool
    ensures { result ≡ are_names pieces.now }
{
    are_all_names(pieces) && no_two_alike(pieces)
}

fn are_all_names(pieces: &[Text]) -> bool
    ensures { result ≡ list_all is_name pieces.now }
{
    pieces.iter().all(|piece| is_name(piece.as_str()))
}

fn is_name(text: &str) -> bool
    ensures { result ≡ is_name text.now }
{
    name_named(text).is_some()
}

fn no_two_alike(texts: &[Text]) -> bool
    ensures { result ≡ no_two_alike texts.now }
{
    match texts {
        [] => true,
        [text, rest @ ..] => !is_among(rest, text.as_str()) && no_two_alike(rest),
    }
}

// Returns true if this string is one of them.
fn is_among(texts: &[Text], text: &str) -> bool
    ensures { result ≡ is_among texts.now text.now }
{
    texts.iter().any(|one| one.as_str() == text)
}

fn names_in(alloc: Global, pieces: &[Text]) -> Result<Items<Name>, NoMemory>
    ensures { IfOk result (λ names. names ≡ filter_map name_named pieces.now) }
{
    let mut names = Vec::new(alloc);
    for piece in pieces {
        if let Some(name) = name_named(piece.as_str()) {
            names.push(name)?;
        }
    }
    Ok(Items::of(names))
}

// Returns the strategy of this name.
fn name_named(text: &str) -> Option<Name>
    ensures { result ≡ name_named text.now }
{
    match text {
        "worker" => Some(Name::Worker),
        "sandboxed" => Some(Name::Sandboxed),
        "remote" => Some(Name::Remote),
        "dynamic" => Some(Name::Dynamic),
        _ => None,
    }
}
