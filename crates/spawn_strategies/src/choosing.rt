// The strategy by which an action runs.
ghost use Rattle.std.specs.Prelude.{◌≡◌, find, IfOk};
ghost use Rattle.std.specs.Option.{option_copied};
ghost use Rattle.std.specs.Str.{bytes_eq};
ghost use Rattle.spawn_strategies.specs.Chosen.{IsChoice, can_work, chosen, common_names, names_for, own_name, supports};

use crate::types::{Name, Rule, Strategies};
use action_list::{ListAction, Strategy};
use flag_files::request_words;
use plain_values::NoMemory;
use std::alloc::Global;

/// Returns the first name of the action's list that supports the action, or `None` if no name does. The list is that of
/// its mnemonic. If its mnemonic has none, it is the common list, unless that is empty. If the action has no list, its
/// own strategy is returned.
///
/// `Worker` and `Dynamic` support an action if it may go to workers and one of its words names a flag file. The others
/// support every action.
///
/// # Errors
///
/// Returns `NoMemory` if memory runs out.
pub fn chosen(
    alloc: Global,
    words: &Strategies,
    action: &ListAction,
) -> Result<Option<Name>, NoMemory>
    ensures chosen { IfOk result (λ name. name ≡ chosen words.now action.now) }
    ensures first { IfOk result
        (λ name. IsChoice action.now (names_for words.now action.now.mnemonic) name) }
{
    match names_for(words, action.mnemonic.as_str()) {
        None => Ok(Some(own_name(action.strategy))),
        Some(names) => Ok(first_supporting(names, can_work(alloc, action)?)),
    }
}

fn names_for<'a>(words: &'a Strategies, mnemonic: &str) -> Option<&'a [Name]>
    ensures { option_copied result ≡ names_for words.now mnemonic.now }
{
    match rule_for(words.rules.as_slice(), mnemonic) {
        Some(rule) => Some(rule.names.as_slice()),
        None => common_names(words.common.as_slice()),
    }
}

// Returns the rule of this mnemonic.
fn rule_for<'a>(rules: &'a [Rule], mnemonic: &str) -> Option<&'a Rule>
    ensures { option_copied result ≡ find (λ r. bytes_eq r.mnemonic mnemonic.now) rules.now }
{
    rules.iter().find(|rule| rule.mnemonic.as_str() == mnemonic)
}

// Returns the common names, if there are any.
fn common_names(names: &[Name]) -> Option<&[Name]>
    ensures { option_copied result ≡ common_names names.now }
{
    match names {
        [] => None,
        [_, ..] => Some(names),
    }
}

fn own_name(strategy: Strategy) -> Name
    ensures { result ≡ own_name strategy }
{
    match strategy {
        Strategy::Worker => Name::Worker,
        Strategy::Remote => Name::Remote,
        Strategy::Dynamic => Name::Dynamic,
    }
}

// Returns true if the action may go to a worker and a flag file gives it the words of a request.
fn can_work(alloc: Global, action: &ListAction) -> Result<bool, NoMemory>
    ensures { IfOk result (λ works. works ≡ can_work action.now) }
{
    if !action.needs.workers {
        return Ok(false);
    }
    let words = request_words(alloc, action.argv.as_slice())?;
    Ok(!words.as_slice().is_empty())
}

fn first_supporting(names: &[Name], works: bool) -> Option<Name>
    ensures { result ≡ find (supports works) names.now }
{
    names.iter().copied().find(|name| name.supports(works))
}

impl Name {
    // Returns true if the strategy of this name supports an action. `works` is true if the action can run on a worker.
    fn supports(self, works: bool) -> bool
        ensures { result ≡ supports works self }
    {
        match self {
            Name::Worker | Name::Dynamic => works,
            Name::Sandboxed | Name::Remote => true,
        }
    }
}
