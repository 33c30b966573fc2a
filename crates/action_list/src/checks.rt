// The faults of one action: each key's, in the order in which the keys are checked.
ghost use Rattle.std.specs.Prelude.{◌≡◌, ◌==◌, ◌&&◌, not, nat_le, map, Some, Err};
ghost use Rattle.std.specs.List.{list_all};
ghost use Rattle.list_actions.specs.Answers.{Settles, Refuses, first};
ghost use Rattle.action_list.specs.Checks.{action_check, argv_check, key_check, known_strategy_check, local_check, mnemonic_check, name_check, is_name, optional, path_check, paths_check, has_program, count_check, protocol_check, replacement_check, required, requirements_check, strategy_check, too_many, value_of, says, is_set, list_in};
ghost use Rattle.list_actions.specs.declared.faults.Key.TheVariants as key;
ghost use Rattle.list_actions.specs.declared.faults.ListFault.TheVariants as fault;
ghost use Rattle.list_actions.specs.declared.faults.ListRefusal.TheVariants as refusal;
ghost use Rattle.list_actions.specs.declared.faults.What.TheVariants as what;

use crate::draft::{Draft, Slot};
use crate::{Key, ListFault, ListRefusal, What};
use path_rules::check_path;
use plain_values::{Items, Text, Variable};
use std::alloc::Global;

const KEYS_IN_ORDER: [Key; 10] = [
    Key::Action,
    Key::Name,
    Key::Mnemonic,
    Key::Argv,
    Key::Env,
    Key::Tools,
    Key::Inputs,
    Key::Outputs,
    Key::Requirements,
    Key::Strategy,
];

const MAX_NAME: usize = 256;

const MAX_ARGV: usize = 1024;

const MAX_ENV: usize = 256;

const MAX_TOOLS: usize = 256;

const MAX_INPUTS: usize = 4096;

const MAX_OUTPUTS: usize = 256;

/// Looks for the first fault of the action with this number.
#[tactic(auto, unfolding(crate::specs::Checks::action_check))]
pub fn check_action(alloc: Global, action: u32, draft: &Draft) -> Result<(), ListRefusal>
    ensures { Settles result (action_check action draft.now) }
{
    check_keys(alloc, action, draft, &KEYS_IN_ORDER)
}

fn check_keys(alloc: Global, action: u32, draft: &Draft, keys: &[Key]) -> Result<(), ListRefusal>
    ensures { Settles result (first (map (key_check action draft.now) keys.now)) }
{
    for key in keys {
        check_key(alloc, action, draft, *key)?;
    }
    Ok(())
}

fn check_key(alloc: Global, action: u32, draft: &Draft, key: Key) -> Result<(), ListRefusal>
    ensures { Settles result (key_check action draft.now key) }
{
    match key {
        Key::Top | Key::Actions => Ok(()),
        Key::Action => check_object(action, draft),
        Key::Name => check_name(action, &draft.name),
        Key::Mnemonic => check_mnemonic(action, &draft.mnemonic),
        Key::Argv => check_argv(action, &draft.argv),
        Key::Env => check_env(action, &draft.env),
        Key::Tools => check_paths(
            alloc,
            action,
            Key::Tools,
            What::Tools,
            MAX_TOOLS,
            &draft.tools,
        ),
        Key::Inputs => check_paths(
            alloc,
            action,
            Key::Inputs,
            What::Inputs,
            MAX_INPUTS,
            &draft.inputs,
        ),
        Key::Outputs => check_outputs(alloc, action, &draft.outputs),
        Key::Requirements => crate::needs::check_requirements(action, &draft.requirements),
        Key::Strategy => crate::needs::check_strategy(alloc, action, draft),
    }
}

pub fn wrong_kind(action: u32, key: Key) -> Result<(), ListRefusal>
    ensures { result ≡ Err (refusal.Fault (fault.WrongKind (Some action) key)) }
{
    Err(ListRefusal::Fault(ListFault::WrongKind {
        action: Some(action),
        key,
    }))
}

fn missing(action: u32, key: Key) -> Result<(), ListRefusal>
    ensures { result ≡ Err (refusal.Fault (fault.MissingKey (Some action) key)) }
{
    Err(ListRefusal::Fault(ListFault::MissingKey {
        action: Some(action),
        key,
    }))
}

pub fn check_count(what: What, limit: usize, count: usize) -> Result<(), ListRefusal>
    ensures { Settles result (count_check what limit count) }
{
    if count <= limit {
        Ok(())
    } else {
        Err(ListRefusal::Fault(ListFault::TooMany {
            what,
            count: count as u64,
        }))
    }
}

fn check_object(action: u32, draft: &Draft) -> Result<(), ListRefusal>
    ensures { Settles result (key_check action draft.now key.Action) }
{
    if draft.is_object {
        Ok(())
    } else {
        wrong_kind(action, Key::Action)
    }
}

fn check_name(action: u32, slot: &Slot<Text>) -> Result<(), ListRefusal>
    ensures { Settles result (required action key.Name (name_check action) slot.now) }
{
    match slot {
        Slot::Missing => missing(action, Key::Name),
        Slot::Other => wrong_kind(action, Key::Name),
        Slot::Held(name) => {
            if is_name(name.as_str().as_bytes()) {
                Ok(())
            } else {
                Err(ListRefusal::Fault(ListFault::BadName { action }))
            }
        }
    }
}

fn is_name(name: &[u8]) -> bool
    ensures { result ≡ is_name name.now }
{
    if name.is_empty() || name.len() > MAX_NAME {
        return false;
    }
    are_visible(name)
}

fn are_visible(bytes: &[u8]) -> bool
    ensures { result ≡ list_all (λ b. nat_le 33 b && not (b == 127)) bytes.now }
{
    bytes.iter().all(|b| 33 <= *b && *b != 127)
}

fn check_mnemonic(action: u32, slot: &Slot<Text>) -> Result<(), ListRefusal>
    ensures { Settles result (required action key.Mnemonic (mnemonic_check action) slot.now) }
{
    match slot {
        Slot::Missing => missing(action, Key::Mnemonic),
        Slot::Other => wrong_kind(action, Key::Mnemonic),
        Slot::Held(mnemonic) => {
            if mnemonic.as_str().is_empty() {
                wrong_kind(action, Key::Mnemonic)
            } else {
                Ok(())
            }
        }
    }
}

fn check_argv(action: u32, slot: &Slot<Items<Text>>) -> Result<(), ListRefusal>
    ensures { Settles result (required action key.Argv (argv_check action) slot.now) }
{
    match slot {
        Slot::Missing => missing(action, Key::Argv),
        Slot::Other => wrong_kind(action, Key::Argv),
        Slot::Held(words) => {
            if has_program(words.as_slice()) {
                check_count(What::Argv, MAX_ARGV, words.as_slice().len())
            } else {
                wrong_kind(action, Key::Argv)
            }
        }
    }
}

fn has_program(words: &[Text]) -> bool
    ensures { result ≡ has_program words.now }
{
    !words.is_empty() && !words[0].as_str().is_empty()
}

fn check_env(action: u32, slot: &Slot<Items<Variable>>) -> Result<(), ListRefusal>
    ensures { Settles result (optional action key.Env (too_many what.Env 256) slot.now) }
{
    match slot {
        Slot::Missing => Ok(()),
        Slot::Other => wrong_kind(action, Key::Env),
        Slot::Held(variables) => check_count(What::Env, MAX_ENV, variables.as_slice().len()),
    }
}

fn check_paths(
    alloc: Global,
    action: u32,
    key: Key,
    what: What,
    limit: usize,
    slot: &Slot<Items<Text>>,
) -> Result<(), ListRefusal>
    ensures { Settles result (optional action key (paths_check action what limit) slot.now) }
{
    match slot {
        Slot::Missing => Ok(()),
        Slot::Other => wrong_kind(action, key),
        Slot::Held(paths) => check_held_paths(alloc, action, what, limit, paths.as_slice()),
    }
}

fn check_outputs(alloc: Global, action: u32, slot: &Slot<Items<Text>>) -> Result<(), ListRefusal>
    ensures { Settles result
        (required action key.Outputs (paths_check action what.Outputs 256) slot.now) }
{
    match slot {
        Slot::Missing => missing(action, Key::Outputs),
        Slot::Other => wrong_kind(action, Key::Outputs),
        Slot::Held(paths) => {
            check_held_paths(alloc, action, What::Outputs, MAX_OUTPUTS, paths.as_slice())
        }
    }
}

fn check_held_paths(
    alloc: Global,
    action: u32,
    what: What,
    limit: usize,
    paths: &[Text],
) -> Result<(), ListRefusal>
    ensures { Settles result (paths_check action what limit paths.now) }
{
    check_count(what, limit, paths.len())?;
    check_each_path(alloc, action, paths)
}

fn check_each_path(alloc: Global, action: u32, paths: &[Text]) -> Result<(), ListRefusal>
    ensures { Settles result (first (map (path_check action) paths.now)) }
{
    for path in paths {
        check_one_path(alloc, action, path.as_str())?;
    }
    Ok(())
}

fn check_one_path(alloc: Global, action: u32, path: &str) -> Result<(), ListRefusal>
    ensures { Settles result (path_check action path.now) }
{
    match check_path(path) {
        Ok(()) => Ok(()),
        Err(fault) => Err(ListRefusal::Fault(ListFault::BadPath {
            action,
            path: Text::copy_of(alloc, path)?,
            fault,
        })),
    }
}
