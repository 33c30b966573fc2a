// The plan of a list.
ghost use Rattle.std.specs.Prelude.{◌≡◌, ◌≤◌, ◌++◌, ◌∷◌, [], ℕ, List, length, map, replicate, slice_get, slice_index_or, option_and_then, Some, IfOk, IfSome, OnOk, ◌<◌};
ghost use Rattle.std.specs.Option.{option_copied};
ghost use Rattle.list_actions.specs.declared.types.ListAction.{ListAction};
ghost use Rattle.action_list.specs.Keys.{keys_of};
ghost use Rattle.action_list.specs.Plans.{AreFew, IsGreatest, berths_at, executor_groups, groups_of, kind_by, kind_of, local_key, local_of, plan_action, plan_actions, plan_of, remote_of, remote_users, share};
ghost use Rattle.action_list.specs.Uses.{no_use, one_more, used_group, uses_of, with_use};
ghost use Rattle.list_actions.specs.Whole.{IsWhole, KnowsProducers};
ghost use Rattle.run_plan.specs.Sound.{Sound};
ghost use Rattle.run_plan.specs.Limits.{most_actions, most_local_berths, most_remote_berths};

use crate::keys::{Keys, has_remote, keys_of, mode_of};
use crate::{ActionList, ListAction, Producers};
use plain_values::{Blob, Items, NoMemory, Text, texts_again};
use run_plan::{Group, Kind, MOST_LOCAL_BERTHS, Plan, PlanAction};
use std::alloc::Global;
use worker_key::Mode;

/// Returns the greatest number of berths per key, at most `instances`, with which all keys have at most 48.
fn share(counts: &[u32], instances: u32) -> u32
    requires few { length counts.now ≤ most_actions }
    requires instances { instances ≤ most_local_berths }
    ensures is { result ≡ share counts.now instances }
    ensures greatest { IsGreatest (AreFew counts.now) instances result }
{
    let mut each = instances;
    while each > 0 && berths_at(counts, each) > MOST_LOCAL_BERTHS {
        each -= 1;
    }
    each
}

fn berths_at(counts: &[u32], each: u32) -> u32
    requires few { length counts.now ≤ most_actions }
    requires each { each ≤ most_local_berths }
    ensures { result ≡ berths_at counts.now each }
{
    counts.iter().map(|count| each.min(*count)).sum()
}

// How many actions have a key, and which of them is first.
#[derive(Clone, Copy)]
struct KeyUse {
    users: u32,
    first: Option<usize>,
}

// Returns how each of `count` keys is used. It takes one pass over the actions' numbers.
fn uses_of(alloc: Global, numbers: &[Option<usize>], count: usize) -> Result<Vec<KeyUse>, NoMemory>
    requires { length numbers.now ≤ most_actions }
    ensures { IfOk result (λ v. v.items ≡ uses_of count numbers.now) }
{
    let mut uses = no_uses(alloc, count)?;
    let mut index = 0;
    for number in numbers {
        note_use(&mut uses, *number, index);
        index += 1;
    }
    Ok(uses)
}

fn no_uses(alloc: Global, count: usize) -> Result<Vec<KeyUse>, NoMemory>
    ensures { IfOk result (λ v. v.items ≡ replicate count no_use) }
{
    let mut uses = Vec::with_capacity(alloc, count)?;
    for _key in 0..count {
        uses.push(KeyUse {
            users: 0,
            first: None,
        })?;
    }
    Ok(uses)
}

// Notes that the action with this index has the key with this number.
fn note_use(uses: &mut [KeyUse], number: Option<usize>, index: usize)
    requires few { (n : ℕ) → (slice_index_or uses.old n no_use).users < most_actions }
    ensures { uses.new ≡ with_use uses.old number index }
{
    if let Some(number) = number
        && number < uses.len()
    {
        uses[number] = one_more(uses[number], index);
    }
}

fn one_more(one: KeyUse, index: usize) -> KeyUse
    requires { one.users < most_actions }
    ensures { result ≡ one_more one index }
{
    KeyUse {
        users: one.users + 1,
        first: match one.first {
            Some(first) => Some(first),
            None => Some(index),
        },
    }
}

fn all_users(alloc: Global, uses: &[KeyUse]) -> Result<Vec<u32>, NoMemory>
    ensures { IfOk result (λ v. v.items ≡ map (λ u. u.users) uses.now) }
{
    let mut counts = Vec::new(alloc);
    for one in uses {
        counts.push(one.users)?;
    }
    Ok(counts)
}

fn remote_users(actions: &[ListAction]) -> u32
    requires { length actions.now ≤ most_actions }
    ensures { result ≡ remote_users actions.now }
{
    let mut count = 0;
    for action in actions {
        if has_remote(action.strategy) {
            count += 1;
        }
    }
    count
}

fn first_user<'a>(actions: &'a [ListAction], one: &KeyUse) -> Option<&'a ListAction>
    ensures { option_copied result ≡ option_and_then (slice_get actions.now) one.now.first }
{
    match one.first {
        None => None,
        Some(index) => actions.get(index),
    }
}

fn key_group(actions: &[ListAction], each: u32, one: &KeyUse) -> Group
    ensures { result ≡ used_group actions.now each one.now }
{
    let berths = each.min(one.users);
    match first_user(actions, one) {
        None => Group {
            kind: Kind::Single,
            cancel: false,
            berths,
        },
        Some(action) => Group {
            kind: kind_of(action),
            cancel: action.needs.cancel,
            berths,
        },
    }
}

fn kind_of(action: &ListAction) -> Kind
    ensures { result ≡ kind_of action.now }
{
    kind_by(mode_of(action))
}

fn kind_by(mode: Mode) -> Kind
    ensures { result ≡ kind_by mode }
{
    match mode {
        Mode::Single => Kind::Single,
        Mode::Multi => Kind::Multi,
        Mode::Boxed => Kind::Boxed,
    }
}

fn groups_of(
    alloc: Global,
    actions: &[ListAction],
    made: &Keys,
    instances: u32,
    remote: u32,
) -> Result<Items<Group>, NoMemory>
    requires whole { IsWhole actions.now }
    requires keys { made.now.keys ≡ keys_of actions.now }
    requires numbers { made.now.numbers ≡ map (local_of made.now.keys) actions.now }
    requires few { length made.now.keys ≤ length actions.now }
    requires instances { instances ≤ most_local_berths }
    ensures { IfOk result (λ g.
        g ≡ groups_of actions.now (map local_key actions.now) made.now.keys instances remote) }
{
    let uses = uses_of(alloc, made.numbers.as_slice(), made.keys.as_slice().len())?;
    let counts = all_users(alloc, uses.as_slice())?;
    let each = share(counts.as_slice(), instances);
    let mut groups = Vec::new(alloc);
    push_key_groups(&mut groups, actions, uses.as_slice(), each)?;
    push_executor(&mut groups, remote.min(remote_users(actions)))?;
    Ok(Items::of(groups))
}

fn push_key_groups(
    groups: &mut Vec<Group>,
    actions: &[ListAction],
    uses: &[KeyUse],
    each: u32,
) -> Result<(), NoMemory>
    ensures { OnOk result
        (groups.new.items ≡ groups.old.items ++ map (used_group actions.now each) uses.now) }
{
    for one in uses {
        groups.push(key_group(actions, each, one))?;
    }
    Ok(())
}

fn push_executor(groups: &mut Vec<Group>, berths: u32) -> Result<(), NoMemory>
    ensures { OnOk result (groups.new.items ≡ groups.old.items ++ executor_groups berths) }
{
    if berths > 0 {
        groups.push(Group {
            kind: Kind::Remote,
            cancel: false,
            berths,
        })?;
    }
    Ok(())
}

fn plan_actions(
    alloc: Global,
    actions: &[ListAction],
    made: &Keys,
) -> Result<Items<PlanAction>, NoMemory>
    requires numbers { made.now.numbers ≡ map (local_of made.now.keys) actions.now }
    requires keys { length made.now.keys ≤ most_actions }
    requires whole { IsWhole actions.now }
    ensures { IfOk result (λ p. p ≡ plan_actions made.now.keys [] actions.now) }
{
    let keys = made.keys.as_slice();
    let numbers = made.numbers.as_slice();
    let mut producers = Producers::new(alloc);
    let mut planned = Vec::new(alloc);
    let mut number = 0;
    for action in actions {
        let key = number_at(numbers, number);
        planned.push(plan_action(alloc, keys, &producers, action, key)?)?;
        note_outputs(alloc, &mut producers, number, action)?;
        number += 1;
    }
    Ok(Items::of(planned))
}

// Returns the number of the key of the action with this number.
fn number_at(numbers: &[Option<usize>], number: u32) -> Option<usize>
    requires { number < length numbers.now }
    ensures { slice_get numbers.now number ≡ Some result }
{
    match numbers.get(number as usize) {
        Some(key) => *key,
        None => unreachable!(),
    }
}

fn note_outputs(
    alloc: Global,
    producers: &mut Producers,
    number: u32,
    action: &ListAction,
) -> Result<(), NoMemory>
    requires { length action.now.outputs ≤ 256 }
    ensures { (before : List ListAction)
        → KnowsProducers producers.old before → number ≡ length before
        → OnOk result (KnowsProducers producers.new (before ++ action.now ∷ [])) }
{
    producers.note_all(alloc, number, action.outputs.as_slice())
}

fn plan_action(
    alloc: Global,
    keys: &[Blob],
    producers: &Producers,
    action: &ListAction,
    key: Option<usize>,
) -> Result<PlanAction, NoMemory>
    requires key { key ≡ local_of keys.now action.now }
    requires keys { length keys.now ≤ most_actions }
    ensures { (before : List ListAction) → KnowsProducers producers.now before
        → IfOk result (λ p. p ≡ plan_action keys.now before action.now) }
{
    Ok(PlanAction {
        name: Text::copy_of(alloc, action.name.as_str())?,
        outputs: texts_again(alloc, action.outputs.as_slice())?,
        makers: producers.makers_of(alloc, action.inputs.as_slice())?,
        local: group_number(key),
        remote: remote_of(keys, action),
    })
}

fn group_number(key: Option<usize>) -> Option<u32>
    requires { IfSome key (λ n. n < most_actions) }
    ensures { result ≡ key }
{
    match key {
        None => None,
        Some(number) => Some(number as u32),
    }
}

fn remote_of(keys: &[Blob], action: &ListAction) -> Option<u32>
    requires { length keys.now ≤ most_actions }
    ensures { result ≡ remote_of keys.now action.now }
{
    if has_remote(action.strategy) {
        Some(keys.len() as u32)
    } else {
        None
    }
}

/// Returns the plan of a list: its groups of workers with their berths, and the branches of each action.
///
/// Each worker key is a group, in the order of the keys' first actions. The executor is a group if an action has a
/// remote branch. A key has at most `instances` berths, and at most as many as it has actions. If all keys together
/// would then have more than 48 berths, the number for each is lowered until they don't. The executor has at most
/// `remote` berths, and at most as many as there are actions with a remote branch. A branch has `1 + retries` attempts.
///
/// # Errors
///
/// Returns `NoMemory` if memory runs out.
#[tactic(auto, unfolding(crate::specs::Plans::plan_of))]
pub fn plan(
    alloc: Global,
    list: &ActionList,
    instances: u32,
    remote: u32,
    retries: u32,
) -> Result<Plan, NoMemory>
    requires whole { IsWhole list.now.actions }
    requires instances { instances ≤ most_local_berths }
    requires some_remote { 1 ≤ remote }
    requires few_remote { remote ≤ most_remote_berths }
    requires retries { retries ≤ 9 }
    ensures plan { IfOk result (λ p. p ≡ plan_of list.now.actions instances remote retries) }
    ensures sound { IfOk result Sound }
{
    let actions = list.actions.as_slice();
    let made = keys_of(alloc, actions)?;
    Ok(Plan {
        actions: plan_actions(alloc, actions, &made)?,
        groups: groups_of(alloc, actions, &made, instances, remote)?,
        limit: retries + 1,
    })
}
