// The settings of strategies, sandboxes and the delay that the words of a command give.
ghost use Rattle.std.specs.Prelude.{◌≡◌, IfOk, filter_map, map, string_bytes};
ghost use Rattle.std.specs.List.{list_any};
ghost use Rattle.std.specs.Str.{bytes_eq};
ghost use Rattle.spawn_strategies.specs.Choices.{are_different};
ghost use Rattle.spawn_strategies.specs.SpawnOptions.{is_single, other_words, said_of};
ghost use Rattle.spawn_strategies.specs.SpawnWords.{common_in, executor_in, number_in, rule_in};

use crate::listing::{common_in, executor_in, is_taken, rule_in};
use crate::numbers::Number;
use crate::types::{Name, Rule};
use plain_values::{Items, NoMemory, Text};
use std::alloc::Global;

/// All settings of strategies, sandboxes and the delay that words give, in order.
#[derive(Drop)]
pub struct Said {
    pub rules: Items<Rule>,
    pub commons: Items<Items<Name>>,
    pub executors: Items<Text>,
    pub sandboxes: Items<u32>,
    pub delays: Items<u32>,
}

impl Said {
    /// Returns the settings that these words give.
    ///
    /// # Errors
    ///
    /// Returns `NoMemory` if memory runs out.
    pub fn of(alloc: Global, words: &[String]) -> Result<Said, NoMemory>
        ensures { IfOk result (λ said. said ≡ said_of (map string_bytes words.now)) }
    {
        Ok(Said {
            rules: rules(alloc, words)?,
            commons: commons(alloc, words)?,
            executors: executors(alloc, words)?,
            sandboxes: numbers(alloc, Number::Sandboxed, words)?,
            delays: numbers(alloc, Number::Delay, words)?,
        })
    }

    /// Returns true if no two rules have the same mnemonic, and each other setting is given at most once.
    pub fn is_single(&self) -> bool
        ensures { result ≡ is_single self.now }
    {
        are_different(self.rules.as_slice())
            && self.commons.as_slice().len() <= 1
            && self.executors.as_slice().len() <= 1
            && self.sandboxes.as_slice().len() <= 1
            && self.delays.as_slice().len() <= 1
    }
}

fn are_different(rules: &[Rule]) -> bool
    ensures { result ≡ are_different rules.now }
{
    match rules {
        [] => true,
        [rule, rest @ ..] => !has_rule(rest, rule.mnemonic.as_str()) && are_different(rest),
    }
}

// Returns true if one of the rules is of this mnemonic.
fn has_rule(rules: &[Rule], mnemonic: &str) -> bool
    ensures { result ≡ list_any (λ r. bytes_eq r.mnemonic mnemonic.now) rules.now }
{
    rules.iter().any(|rule| rule.mnemonic.as_str() == mnemonic)
}

fn rules(alloc: Global, words: &[String]) -> Result<Items<Rule>, NoMemory>
    ensures { IfOk result (λ l. l ≡ filter_map rule_in (map string_bytes words.now)) }
{
    let mut rules = Vec::new(alloc);
    for word in words {
        if let Some(rule) = rule_in(alloc, word.as_str())? {
            rules.push(rule)?;
        }
    }
    Ok(Items::of(rules))
}

fn commons(alloc: Global, words: &[String]) -> Result<Items<Items<Name>>, NoMemory>
    ensures { IfOk result (λ l. l ≡ filter_map common_in (map string_bytes words.now)) }
{
    let mut commons = Vec::new(alloc);
    for word in words {
        if let Some(names) = common_in(alloc, word.as_str())? {
            commons.push(names)?;
        }
    }
    Ok(Items::of(commons))
}

fn executors(alloc: Global, words: &[String]) -> Result<Items<Text>, NoMemory>
    ensures { IfOk result (λ l. l ≡ filter_map executor_in (map string_bytes words.now)) }
{
    let mut executors = Vec::new(alloc);
    for word in words {
        if let Some(text) = executor_in(word.as_str()) {
            executors.push(Text::copy_of(alloc, text)?)?;
        }
    }
    Ok(Items::of(executors))
}

fn numbers(alloc: Global, kind: Number, words: &[String]) -> Result<Items<u32>, NoMemory>
    ensures { IfOk result (λ l. l ≡ filter_map (number_in kind) (map string_bytes words.now)) }
{
    let mut numbers = Vec::new(alloc);
    for word in words {
        if let Some(number) = kind.number_in(word.as_str()) {
            numbers.push(number)?;
        }
    }
    Ok(Items::of(numbers))
}

/// Returns the words that give no strategy, sandbox setting or delay, in order. They are for `tool_words`.
///
/// # Errors
///
/// Returns `NoMemory` if memory runs out.
pub fn other_words(alloc: Global, words: &[String]) -> Result<Vec<String>, NoMemory>
    ensures { IfOk result
        (λ v. map string_bytes v.items ≡ other_words (map string_bytes words.now)) }
{
    let mut others = Vec::new(alloc);
    for word in words {
        if !is_taken(alloc, word.as_str())? {
            others.push(String::from_str(alloc, word.as_str())?)?;
        }
    }
    Ok(others)
}
