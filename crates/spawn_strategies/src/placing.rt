// The plan of the chosen strategies.
ghost use Rattle.std.specs.Prelude.{◌≡◌, ◌+◌, ◌<◌, ◌≤◌, ◌^◌, ◌++◌, IfOk, OnOk, count_by, length, true};
ghost use Rattle.std.specs.List.{list_any};
ghost use Rattle.list_actions.specs.Whole.{IsWhole};
ghost use Rattle.run_plan.specs.Groups.{is_remote};
ghost use Rattle.run_plan.specs.Sound.{Sound};
ghost use Rattle.run_plan.specs.Limits.{most_actions, most_remote_berths};
ghost use Rattle.action_list.specs.Plans.{executor_groups};
ghost use Rattle.spawn_strategies.specs.Choices.{Answers, AreLimits, all_placed, are_different, choice_of, groups_by, is_sandboxed, placed, sandbox_groups, sandboxes, says_sandboxed, uses_executor};
ghost use Rattle.spawn_strategies.specs.Placing.{keyed, placing};

use crate::copies::{chosen_names, with_names};
use crate::types::{ChoiceFault, Name, PlanLimits, Rule, Strategies};
use action_list::{ActionList, plan};
use plain_values::{Items, NoMemory};
use run_plan::{Group, Kind, Plan, PlanAction};
use std::alloc::Global;

/// Returns the plan of a list whose actions run by their chosen strategies.
///
/// It is the plan that `action_list::plan` makes if each action has its chosen strategy, except for the sandboxed
/// actions. Such an action has only a local branch, on a group of kind `Remote`. If there is such an action, that group
/// comes after the groups of the worker keys and before the executor's. It has at most `words.sandboxed` berths, and at
/// most as many as it has actions.
///
/// # Errors
///
/// Returns `NoneSupports` exactly if no name of an action's list supports it, with the first such action. Otherwise
/// returns `TooManyKeys` exactly if the actions whose chosen strategy is `Worker` or `Dynamic` have more than
/// `limits.keys` keys. Returns `NoMemory` if memory runs out.
pub fn chosen_plan(
    alloc: Global,
    list: &ActionList,
    words: &Strategies,
    limits: PlanLimits,
) -> Result<Plan, ChoiceFault>
    requires whole { IsWhole list.now.actions }
    requires rules { are_different words.now.rules ≡ true }
    requires limits { AreLimits limits }
    requires some_sandboxed { 1 ≤ words.now.sandboxed }
    requires few { sandboxes words.now + limits.remote ≤ most_remote_berths }
    ensures plan { Answers result (choice_of list.now.actions words.now limits) }
    ensures sound { IfOk result Sound }
{
    let actions = list.actions.as_slice();
    let names = chosen_names(alloc, words, actions)?;
    let chosen = with_names(alloc, actions, names.as_slice())?;
    let planned = plan(
        alloc,
        &chosen,
        limits.instances,
        limits.remote,
        limits.retries,
    )?;
    placed_plan(alloc, planned, names.as_slice(), words.sandboxed, limits)
}

// Returns the plan with its actions placed by their names, unless it has too many keys.
fn placed_plan(
    alloc: Global,
    plan: Plan,
    names: &[Name],
    sandboxed: u32,
    limits: PlanLimits,
) -> Result<Plan, ChoiceFault>
    requires named { length names.now ≡ length plan.actions }
    requires few { length names.now ≤ most_actions }
    requires groups { length plan.groups < 2 ^ 32 }
    requires limits { AreLimits limits }
    ensures { Answers result (placing plan names.now sandboxed limits) }
{
    let mut groups = keyed(alloc, plan.groups.as_slice())?;
    let sandbox = groups.len() as u32;
    if sandbox > limits.keys {
        return Err(ChoiceFault::TooManyKeys(sandbox));
    }
    push_remote(&mut groups, sandboxed.min(sandbox_users(names)))?;
    let executor = groups.len() as u32;
    push_remote(&mut groups, limits.remote.min(executor_users(names)))?;
    Ok(Plan {
        actions: all_placed(plan.actions, names, sandbox, executor),
        groups: Items::of(groups),
        limit: plan.limit,
    })
}

// Returns the groups of the keys.
fn keyed(alloc: Global, groups: &[Group]) -> Result<Vec<Group>, NoMemory>
    ensures keyed { IfOk result (λ v. v.items ≡ keyed groups.now) }
    ensures few { IfOk result (λ v. length v.items ≤ length groups.now) }
{
    let mut kept = Vec::new(alloc);
    for group in groups {
        if !is_remote(group.kind) {
            kept.push(*group)?;
        }
    }
    Ok(kept)
}

fn is_remote(kind: Kind) -> bool
    ensures { result ≡ is_remote kind }
{
    match kind {
        Kind::Remote => true,
        Kind::Single | Kind::Multi | Kind::Boxed => false,
    }
}

// Appends a group of executors if `berths` isn't 0.
fn push_remote(groups: &mut Vec<Group>, berths: u32) -> Result<(), NoMemory>
    ensures { OnOk result (groups.new.items ≡ groups.old.items ++ executor_groups berths) }
{
    if berths > 0 {
        groups.push(Group {
            kind: Kind::Remote,
            cancel: false,
            berths,
        })?;
    }
    Ok(())
}

fn sandbox_users(names: &[Name]) -> u32
    requires { length names.now ≤ most_actions }
    ensures { result ≡ count_by is_sandboxed names.now }
{
    names.iter().filter(|name| name.is_sandboxed()).count() as u32
}

fn executor_users(names: &[Name]) -> u32
    requires { length names.now ≤ most_actions }
    ensures { result ≡ count_by uses_executor names.now }
{
    names.iter().filter(|name| name.uses_executor()).count() as u32
}

impl Strategies {
    /// Returns the largest number of sandboxes, which is 0 if no list of names has `Sandboxed`.
    pub fn sandboxes(&self) -> u32
        ensures { result ≡ sandboxes self.now }
    {
        if self.says_sandboxed() {
            self.sandboxed
        } else {
            0
        }
    }

    fn says_sandboxed(&self) -> bool
        ensures { result ≡ says_sandboxed self.now }
    {
        has_sandboxed(self.common.as_slice()) || rules_have_sandboxed(self.rules.as_slice())
    }
}

fn rules_have_sandboxed(rules: &[Rule]) -> bool
    ensures { result ≡ list_any (λ rule. list_any is_sandboxed rule.names) rules.now }
{
    rules
        .iter()
        .any(|rule| has_sandboxed(rule.names.as_slice()))
}

fn has_sandboxed(names: &[Name]) -> bool
    ensures { result ≡ list_any is_sandboxed names.now }
{
    names.iter().any(|name| name.is_sandboxed())
}

impl Name {
    /// Returns true if this is `Sandboxed`.
    pub fn is_sandboxed(self) -> bool
        ensures { result ≡ is_sandboxed self }
    {
        match self {
            Name::Sandboxed => true,
            Name::Worker | Name::Remote | Name::Dynamic => false,
        }
    }

    fn uses_executor(self) -> bool
        ensures { result ≡ uses_executor self }
    {
        match self {
            Name::Remote | Name::Dynamic => true,
            Name::Worker | Name::Sandboxed => false,
        }
    }
}

// Returns the actions, placed by their names.
fn all_placed(
    actions: Items<PlanAction>,
    names: &[Name],
    sandbox: u32,
    executor: u32,
) -> Items<PlanAction>
    requires { length names.now ≡ length actions }
    ensures { result ≡ all_placed sandbox executor names.now actions }
{
    let mut actions = actions.into_vec();
    place_all(actions.as_mut_slice(), names, sandbox, executor);
    Items::of(actions)
}

fn place_all(actions: &mut [PlanAction], names: &[Name], sandbox: u32, executor: u32)
    requires { length names.now ≡ length actions.old }
    ensures { actions.new ≡ all_placed sandbox executor names.now actions.old }
{
    for (number, action) in actions.iter_mut().enumerate() {
        place(action, names[number], sandbox, executor);
    }
}

// Gives the action the branches of its name. `sandbox` and `executor` are the numbers of the groups of the sandboxed
// actions and of the executor.
fn place(action: &mut PlanAction, name: Name, sandbox: u32, executor: u32)
    ensures { action.new ≡ placed sandbox executor name action.old }
{
    match name {
        Name::Worker => {}
        Name::Sandboxed => {
            action.local = Some(sandbox);
            action.remote = None;
        }
        Name::Remote | Name::Dynamic => {
            action.remote = Some(executor);
        }
    }
}
