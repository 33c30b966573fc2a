// The worker keys that actions share, as far as the list gives them.
ghost use Rattle.std.specs.Prelude.{◌≡◌, ◌≤◌, [], Some, is_some, length, map, position, IfOk, OnOk};
ghost use Rattle.std.specs.Str.{bytes_eq};
ghost use Rattle.list_actions.specs.Answers.{Settles};
ghost use Rattle.action_list.specs.Checks.{has_local, has_remote};
ghost use Rattle.action_list.specs.Keys.{key_bytes, keys_among, keys_check, keys_of, list_key, mode_of, named_variable, unread_tool, with_bytes, with_held, worker_words};
ghost use Rattle.action_list.specs.Plans.{local_key, local_of, number_of};

use crate::checks::check_count;
use crate::table::KeyTable;
use crate::{ListAction, ListRefusal, Strategy, What};
use flag_files::{SplitFault, split_args};
use plain_values::{Blob, Items, NoMemory, Text, Variable};
use std::alloc::Global;
use worker_key::{Mode, Named, WorkerKey};

/// The keys of the actions with a local branch. Each key is known only by the bytes that represent it.
#[derive(Drop)]
pub struct Keys {
    /// The key of each action, if it has a local branch.
    pub held: Items<Option<Blob>>,
    /// The different keys, in the order of their first actions.
    pub keys: Items<Blob>,
    /// The place of each action's key among the different keys.
    pub numbers: Items<Option<usize>>,
}

/// Checks that the actions with a local branch have at most `limit` keys.
pub fn check_keys(alloc: Global, limit: usize, actions: &[ListAction]) -> Result<(), ListRefusal>
    ensures { Settles result (keys_check limit actions.now) }
{
    let made = keys_of(alloc, actions)?;
    check_count(What::Keys, limit, made.keys.as_slice().len())
}

/// Returns the keys of these actions. Each action's key is computed once, and looked up once.
///
/// # Errors
///
/// Returns `NoMemory` if memory runs out.
pub fn keys_of(alloc: Global, actions: &[ListAction]) -> Result<Keys, NoMemory>
    ensures held { IfOk result (λ made. made.held ≡ map local_key actions.now) }
    ensures keys { IfOk result (λ made. made.keys ≡ keys_of actions.now) }
    ensures few { IfOk result (λ made. length made.keys ≤ length actions.now) }
    ensures numbers { IfOk result (λ made. made.numbers ≡ map (local_of made.keys) actions.now) }
{
    let held = Items::of(local_keys(alloc, actions)?);
    let (keys, numbers) = number_all(alloc, held.as_slice())?;
    Ok(Keys {
        held,
        keys: Items::of(keys),
        numbers: Items::of(numbers),
    })
}

fn local_keys(alloc: Global, actions: &[ListAction]) -> Result<Vec<Option<Blob>>, NoMemory>
    ensures { IfOk result (λ v. v.items ≡ map local_key actions.now) }
{
    let mut held = Vec::with_capacity(alloc, actions.len())?;
    for action in actions {
        held.push(local_key(alloc, action)?)?;
    }
    Ok(held)
}

// Returns the key of the action, if it has a local branch.
fn local_key(alloc: Global, action: &ListAction) -> Result<Option<Blob>, NoMemory>
    ensures { IfOk result (λ key. key ≡ local_key action.now) }
{
    if has_local(action.strategy) {
        Ok(Some(Blob::of(alloc, key_bytes(alloc, action)?)?))
    } else {
        Ok(None)
    }
}

// Returns the different keys, and the place of each of these keys among them.
fn number_all(
    alloc: Global,
    held: &[Option<Blob>],
) -> Result<(Vec<Blob>, Vec<Option<usize>>), NoMemory>
    ensures keys { IfOk result (λ r. r.0.items ≡ keys_among [] held.now) }
    ensures numbers { IfOk result
        (λ r. r.1.items ≡ map (number_of (keys_among [] held.now)) held.now) }
{
    let mut table = KeyTable::new(alloc);
    let mut keys = Vec::new(alloc);
    let mut numbers = Vec::with_capacity(alloc, held.len())?;
    for key in held {
        numbers.push(number(&mut table, &mut keys, key)?)?;
    }
    Ok((keys, numbers))
}

// Returns the place of the key among the different keys. The key is added, unless it is there.
fn number<'a>(
    table: &mut KeyTable<'a>,
    keys: &mut Vec<Blob>,
    held: &'a Option<Blob>,
) -> Result<Option<usize>, NoMemory>
    ensures number { IfOk result (λ n. n ≡ number_of table.new held.now) }
    ensures found { IfOk result (λ n. is_some n ≡ is_some held.now) }
    ensures added { OnOk result (table.new ≡ with_held table.old held.now) }
    ensures same { keys.old.items ≡ table.old → OnOk result (keys.new.items ≡ table.new) }
{
    match held {
        None => Ok(None),
        Some(key) => Ok(Some(number_key(table, keys, key)?)),
    }
}

fn number_key<'a>(
    table: &mut KeyTable<'a>,
    keys: &mut Vec<Blob>,
    key: &'a Blob,
) -> Result<usize, NoMemory>
    ensures number { IfOk result (λ n. position (λ k. bytes_eq k key.now) table.new ≡ Some n) }
    ensures added { OnOk result (table.new ≡ with_bytes table.old key.now) }
    ensures same { keys.old.items ≡ table.old → OnOk result (keys.new.items ≡ table.new) }
{
    let (number, is_new) = table.number(key.bytes())?;
    if is_new {
        keys.push(key.again()?)?;
    }
    Ok(number)
}

/// Returns true if the action may run on a worker.
pub fn has_local(strategy: Strategy) -> bool
    ensures { result ≡ has_local strategy }
{
    match strategy {
        Strategy::Worker | Strategy::Dynamic => true,
        Strategy::Remote => false,
    }
}

/// Returns true if the action may run on the executor.
pub fn has_remote(strategy: Strategy) -> bool
    ensures { result ≡ has_remote strategy }
{
    match strategy {
        Strategy::Remote | Strategy::Dynamic => true,
        Strategy::Worker => false,
    }
}

/// Returns the bytes that represent the key of an action's worker.
#[tactic(auto, unfolding(crate::specs::Keys::key_bytes))]
fn key_bytes(alloc: Global, action: &ListAction) -> Result<Vec<u8>, NoMemory>
    ensures { IfOk result (λ v. v.items ≡ key_bytes action.now) }
{
    list_key(alloc, action)?.canonical_bytes(alloc)
}

fn list_key(alloc: Global, action: &ListAction) -> Result<WorkerKey, NoMemory>
    ensures { IfOk result (λ k. k ≡ list_key action.now) }
{
    let mnemonic = match &action.needs.key_mnemonic {
        Some(replacement) => replacement,
        None => &action.mnemonic,
    };
    Ok(WorkerKey {
        mnemonic: Text::copy_of(alloc, mnemonic.as_str())?,
        startup: worker_words(alloc, action.argv.as_slice(), &[])?,
        env: named_variables(alloc, action.env.as_slice())?,
        tools: unread_tools(alloc, action.tools.as_slice())?,
        json: action.needs.json,
        mode: mode_of(action),
        cancel: action.needs.cancel,
    })
}

/// Returns how the requests of an action's worker run.
pub fn mode_of(action: &ListAction) -> Mode
    ensures { result ≡ mode_of action.now }
{
    let needs = &action.needs;
    if needs.multiplex && needs.sandboxing {
        Mode::Boxed
    } else if needs.multiplex && !has_remote(action.strategy) {
        Mode::Multi
    } else {
        Mode::Single
    }
}

fn named_variables(alloc: Global, variables: &[Variable]) -> Result<Items<Named>, NoMemory>
    ensures { IfOk result (λ l. l ≡ map named_variable variables.now) }
{
    let mut named = Vec::new(alloc);
    for variable in variables {
        named.push(named_variable(alloc, variable)?)?;
    }
    Ok(Items::of(named))
}

fn named_variable(alloc: Global, variable: &Variable) -> Result<Named, NoMemory>
    ensures { IfOk result (λ n. n ≡ named_variable variable.now) }
{
    Ok(Named {
        name: Text::copy_of(alloc, variable.name.as_str())?,
        value: Text::copy_of(alloc, variable.value.as_str())?,
    })
}

fn unread_tools(alloc: Global, paths: &[Text]) -> Result<Items<Named>, NoMemory>
    ensures { IfOk result (λ l. l ≡ map unread_tool paths.now) }
{
    let mut named = Vec::new(alloc);
    for path in paths {
        named.push(Named {
            name: Text::copy_of(alloc, path.as_str())?,
            value: Text::of(String::new(alloc)),
        })?;
    }
    Ok(Items::of(named))
}

/// Returns the words that an action's worker is started with, or none if no flag file gives it requests.
pub fn worker_words(alloc: Global, argv: &[Text], extra: &[Text]) -> Result<Items<Text>, NoMemory>
    ensures { IfOk result (λ l. l ≡ worker_words argv.now extra.now) }
{
    if argv.is_empty() {
        return Ok(Items::of(Vec::new(alloc)));
    }
    match split_args(alloc, argv, extra) {
        Ok(split) => Ok(split.startup),
        Err(SplitFault::NoFlagFile) => Ok(Items::of(Vec::new(alloc))),
        Err(SplitFault::NoMemory) => Err(NoMemory),
    }
}
