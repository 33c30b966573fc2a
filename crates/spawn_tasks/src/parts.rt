// The part of each group, with a separate executor for the sandboxed actions.
ghost use Rattle.std.specs.Prelude.{◌≡◌, ◌<◌, IfOk, IfSome, length, position};
ghost use Rattle.std.specs.List.{list_any};
ghost use Rattle.action_list.specs.Parts.{executor_part};
ghost use Rattle.run_plan.specs.Groups.{is_remote};
ghost use Rattle.run_plan.specs.Sound.{Sound};
ghost use Rattle.spawn_strategies.specs.Choices.{chosen_names, is_sandboxed};
ghost use Rattle.spawn_tasks.specs.Tasks.{parts_by, sandbox_group};

use action_list::{ActionList, GroupPart, group_parts};
use plain_values::{Command, Items, NoMemory, Text};
use run_plan::{Group, Kind, Plan, Speech};
use spawn_strategies::{Name, SpawnOptions};
use std::alloc::Global;

/// Returns the part of each group of the plan, in order, for these chosen names.
///
/// # Errors
///
/// Returns `NoMemory` if memory runs out.
pub fn parts_by(
    alloc: Global,
    options: &SpawnOptions,
    list: &ActionList,
    plan: &Plan,
    names: &[Name],
) -> Result<Vec<GroupPart>, NoMemory>
    requires sound { Sound plan.now }
    requires names { names.now ≡ chosen_names options.now.strategies list.now.actions }
    ensures { IfOk result (λ v. v.items ≡ parts_by options.now list.now.actions plan.now) }
{
    let own = &options.options;
    let mut parts = group_parts(
        alloc,
        list,
        plan,
        own.extra.as_slice(),
        own.executor.as_str(),
    )?;
    if let Some(group) = sandbox_group(plan.groups.as_slice(), names) {
        parts[group] = executor_part(alloc, options.sandbox_executor.as_str())?;
    }
    Ok(parts)
}

// Returns the group of the sandboxed actions, if there are any.
fn sandbox_group(groups: &[Group], names: &[Name]) -> Option<usize>
    ensures group { result ≡ sandbox_group groups.now names.now }
    ensures within { IfSome result (λ g. g < length groups.now) }
{
    if any_sandboxed(names) {
        first_remote(groups)
    } else {
        None
    }
}

fn first_remote(groups: &[Group]) -> Option<usize>
    ensures place { result ≡ position (λ g. is_remote g.kind) groups.now }
    ensures within { IfSome result (λ g. g < length groups.now) }
{
    groups.iter().position(|group| is_remote(group.kind))
}

fn any_sandboxed(names: &[Name]) -> bool
    ensures { result ≡ list_any is_sandboxed names.now }
{
    names.iter().any(|name| name.is_sandboxed())
}

fn is_remote(kind: Kind) -> bool
    ensures { result ≡ is_remote kind }
{
    match kind {
        Kind::Remote => true,
        Kind::Single | Kind::Multi | Kind::Boxed => false,
    }
}

fn executor_part(alloc: Global, executor: &str) -> Result<GroupPart, NoMemory>
    ensures { IfOk result (λ part. part ≡ executor_part executor.now) }
{
    let mut words = Vec::new(alloc);
    words.push(Text::copy_of(alloc, "--serve")?)?;
    Ok(GroupPart {
        command: Command {
            program: Text::copy_of(alloc, executor)?,
            words: Items::of(words),
            env: Items::of(Vec::new(alloc)),
        },
        speech: Speech::Remote,
    })
}
