// The settings that an action's requirements and its strategy give.
ghost use Rattle.std.specs.Prelude.{◌≡◌, ◌==◌, length, not, codes, option_map, IfOk};
ghost use Rattle.std.specs.Option.{option_copied};
ghost use Rattle.flag_files.specs.Split.{request_words};
ghost use Rattle.list_actions.specs.Answers.{Settles};
ghost use Rattle.action_list.specs.Checks.{has_local, is_set, known_strategy_check, list_in, local_check, optional, requirements_check, says, strategy_check, strategy_named, value_of, protocol_check, replacement_check};
ghost use Rattle.list_actions.specs.declared.faults.Key.TheVariants as key;

use crate::checks::{check_count, wrong_kind};
use crate::draft::{Draft, Slot};
use crate::{Key, ListFault, ListRefusal, Strategy, What};
use flag_files::{SplitFault, split_args};
use plain_values::{Items, NoMemory, Text, Variable};
use std::alloc::Global;

const MAX_REQUIREMENTS: usize = 64;

/// Returns the value of the variable with this name.
pub fn value_of<'a>(variables: &'a [Variable], name: &str) -> Option<&'a str>
    ensures { option_copied result ≡ value_of name.now variables.now }
{
    for variable in variables {
        if variable.name.as_str() == name {
            return Some(variable.value.as_str());
        }
    }
    None
}

/// Returns true if the requirement is set.
pub fn is_set(requirements: &[Variable], name: &str) -> bool
    ensures { result ≡ is_set name.now requirements.now }
{
    value_of(requirements, name) == Some("1")
}

pub fn check_requirements(action: u32, slot: &Slot<Items<Variable>>) -> Result<(), ListRefusal>
    ensures { Settles result
        (optional action key.Requirements (requirements_check action) slot.now) }
{
    match slot {
        Slot::Missing => Ok(()),
        Slot::Other => wrong_kind(action, Key::Requirements),
        Slot::Held(requirements) => check_held(action, requirements.as_slice()),
    }
}

fn check_held(action: u32, requirements: &[Variable]) -> Result<(), ListRefusal>
    ensures { Settles result (requirements_check action requirements.now) }
{
    check_count(What::Requirements, MAX_REQUIREMENTS, requirements.len())?;
    check_protocol(action, value_of(requirements, "requires-worker-protocol"))?;
    check_replacement(action, value_of(requirements, "worker-key-mnemonic"))
}

fn check_protocol(action: u32, protocol: Option<&str>) -> Result<(), ListRefusal>
    ensures { Settles result (protocol_check action (option_copied protocol.entry)) }
{
    match protocol {
        None => Ok(()),
        Some(text) => {
            if text == "json" || text == "proto" {
                Ok(())
            } else {
                Err(ListRefusal::Fault(ListFault::BadRequirement { action }))
            }
        }
    }
}

fn check_replacement(action: u32, mnemonic: Option<&str>) -> Result<(), ListRefusal>
    ensures { Settles result (replacement_check action (option_copied mnemonic.entry)) }
{
    match mnemonic {
        None => Ok(()),
        Some(text) => {
            if text.is_empty() {
                Err(ListRefusal::Fault(ListFault::BadRequirement { action }))
            } else {
                Ok(())
            }
        }
    }
}

pub fn check_strategy(alloc: Global, action: u32, draft: &Draft) -> Result<(), ListRefusal>
    ensures { Settles result (strategy_check action draft.now draft.now.strategy) }
{
    match &draft.strategy {
        Slot::Missing => check_local(alloc, action, draft),
        Slot::Other => wrong_kind(action, Key::Strategy),
        Slot::Held(text) => check_known(alloc, action, draft, text.as_str()),
    }
}

fn check_known(alloc: Global, action: u32, draft: &Draft, text: &str) -> Result<(), ListRefusal>
    ensures { Settles result (known_strategy_check action draft.now (strategy_named text.now)) }
{
    match strategy_named(text) {
        None => Err(ListRefusal::Fault(ListFault::NoStrategy { action })),
        Some(Strategy::Remote) => Ok(()),
        Some(Strategy::Worker | Strategy::Dynamic) => check_local(alloc, action, draft),
    }
}

/// Returns the strategy of this name.
pub fn strategy_named(text: &str) -> Option<Strategy>
    ensures { result ≡ strategy_named text.now }
{
    match text {
        "worker" => Some(Strategy::Worker),
        "remote" => Some(Strategy::Remote),
        "dynamic" => Some(Strategy::Dynamic),
        _ => None,
    }
}

fn check_local(alloc: Global, action: u32, draft: &Draft) -> Result<(), ListRefusal>
    ensures { Settles result (local_check action draft.now) }
{
    if !is_set(list_in(&draft.requirements), "supports-workers") {
        return Err(ListRefusal::Fault(ListFault::NoStrategy { action }));
    }
    if has_request_words(alloc, list_in(&draft.argv))? {
        Ok(())
    } else {
        Err(ListRefusal::Fault(ListFault::NoFlagFile { action }))
    }
}

/// Returns the list at a key, or nothing.
pub fn list_in<T>(slot: &Slot<Items<T>>) -> &[T]
    ensures { result.now ≡ list_in slot.now }
{
    match slot {
        Slot::Held(items) => items.as_slice(),
        Slot::Missing | Slot::Other => &[],
    }
}

fn has_request_words(alloc: Global, argv: &[Text]) -> Result<bool, NoMemory>
    ensures { IfOk result (λ b. b ≡ not (length (request_words argv.now) == 0)) }
{
    if argv.is_empty() {
        return Ok(false);
    }
    match split_args(alloc, argv, &[]) {
        Ok(_) => Ok(true),
        Err(SplitFault::NoFlagFile) => Ok(false),
        Err(SplitFault::NoMemory) => Err(NoMemory),
    }
}
