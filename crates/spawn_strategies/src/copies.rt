// The chosen names of a list's actions, and a copy of the list with these strategies instead of the actions' own.
ghost use Rattle.std.specs.Prelude.{◌≡◌, ◌<◌, ◌≤◌, IfOk, IfSome, Ok, is_some, length, map, not, position};
ghost use Rattle.std.specs.Option.{option_copied};
ghost use Rattle.run_plan.specs.Limits.{most_actions};
ghost use Rattle.spawn_strategies.specs.Chosen.{chosen};
ghost use Rattle.spawn_strategies.specs.Choices.{Answers, chosen_names, first_unsupported, name_in, strategy_by, unless_unsupported, with_name};
ghost use Rattle.spawn_strategies.specs.Placing.{all_named};

use crate::choosing::chosen;
use crate::types::{ChoiceFault, Name, Strategies};
use action_list::{ActionList, ListAction, Needs, Strategy};
use plain_values::{Items, NoMemory, Text, texts_again, variables_again};
use std::alloc::Global;

/// Returns the chosen name of each action.
///
/// # Errors
///
/// Returns `NoneSupports` with the first action that no name of its list supports, or `NoMemory` if memory runs out.
pub fn chosen_names(
    alloc: Global,
    words: &Strategies,
    actions: &[ListAction],
) -> Result<Items<Name>, ChoiceFault>
    requires { length actions.now ≤ most_actions }
    ensures { Answers result (unless_unsupported (first_unsupported words.now actions.now)
        (Ok (chosen_names words.now actions.now))) }
{
    let choices = all_chosen(alloc, words, actions)?;
    match first_without(choices.as_slice()) {
        Some(action) => Err(ChoiceFault::NoneSupports(action as u32)),
        None => Ok(names_in(alloc, choices.as_slice())?),
    }
}

fn all_chosen(
    alloc: Global,
    words: &Strategies,
    actions: &[ListAction],
) -> Result<Vec<Option<Name>>, NoMemory>
    ensures { IfOk result (λ v. v.items ≡ map (chosen words.now) actions.now) }
{
    let mut choices = Vec::with_capacity(alloc, actions.len())?;
    for action in actions {
        choices.push(chosen(alloc, words, action)?)?;
    }
    Ok(choices)
}

fn first_without(choices: &[Option<Name>]) -> Option<usize>
    ensures place { result ≡ position (λ choice. not (is_some choice)) choices.now }
    ensures within { IfSome result (λ i. i < length choices.now) }
{
    choices.iter().position(|choice| choice.is_none())
}

fn names_in(alloc: Global, choices: &[Option<Name>]) -> Result<Items<Name>, NoMemory>
    ensures { IfOk result (λ names. names ≡ map name_in choices.now) }
{
    let mut names = Vec::with_capacity(alloc, choices.len())?;
    for choice in choices {
        names.push(choice.unwrap_or(Name::Remote))?;
    }
    Ok(Items::of(names))
}

/// Returns the list with each action's own strategy replaced by the one of its name.
///
/// # Errors
///
/// Returns `NoMemory` if memory runs out.
pub fn with_names(
    alloc: Global,
    actions: &[ListAction],
    names: &[Name],
) -> Result<ActionList, NoMemory>
    requires { length names.now ≡ length actions.now }
    ensures { IfOk result (λ list. list.actions ≡ all_named names.now actions.now) }
{
    let mut copies = Vec::with_capacity(alloc, actions.len())?;
    for (number, action) in actions.iter().enumerate() {
        copies.push(with_name(alloc, action, names[number])?)?;
    }
    Ok(ActionList {
        actions: Items::of(copies),
    })
}

// Returns a copy of the action with the strategy of this name.
fn with_name(alloc: Global, action: &ListAction, name: Name) -> Result<ListAction, NoMemory>
    ensures { IfOk result (λ copy. copy ≡ with_name name action.now) }
{
    Ok(ListAction {
        name: Text::copy_of(alloc, action.name.as_str())?,
        mnemonic: Text::copy_of(alloc, action.mnemonic.as_str())?,
        argv: texts_again(alloc, action.argv.as_slice())?,
        env: variables_again(alloc, action.env.as_slice())?,
        tools: texts_again(alloc, action.tools.as_slice())?,
        inputs: texts_again(alloc, action.inputs.as_slice())?,
        outputs: texts_again(alloc, action.outputs.as_slice())?,
        needs: needs_again(alloc, &action.needs)?,
        strategy: name.strategy(),
    })
}

fn needs_again(alloc: Global, needs: &Needs) -> Result<Needs, NoMemory>
    ensures { IfOk result (λ copy. copy ≡ needs.now) }
{
    Ok(Needs {
        workers: needs.workers,
        multiplex: needs.multiplex,
        cancel: needs.cancel,
        sandboxing: needs.sandboxing,
        json: needs.json,
        key_mnemonic: mnemonic_again(alloc, &needs.key_mnemonic)?,
    })
}

fn mnemonic_again(alloc: Global, mnemonic: &Option<Text>) -> Result<Option<Text>, NoMemory>
    ensures { IfOk result (λ copy. copy ≡ mnemonic.now) }
{
    match mnemonic {
        None => Ok(None),
        Some(text) => Ok(Some(Text::copy_of(alloc, text.as_str())?)),
    }
}

impl Name {
    // Returns the strategy that counts for the worker keys. A sandboxed action has no key.
    fn strategy(self) -> Strategy
        ensures { result ≡ strategy_by self }
    {
        match self {
            Name::Worker => Strategy::Worker,
            Name::Sandboxed | Name::Remote => Strategy::Remote,
            Name::Dynamic => Strategy::Dynamic,
        }
    }
}
