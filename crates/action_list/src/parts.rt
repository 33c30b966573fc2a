// The commands that the workers of each group run, and the protocol with them.
ghost use Rattle.std.specs.Prelude.{◌≡◌, IfOk, position, slice_get};
ghost use Rattle.std.specs.Option.{option_copied};
ghost use Rattle.run_plan.specs.Groups.{is_remote};
ghost use Rattle.run_plan.specs.Sound.{Sound};
ghost use Rattle.action_list.specs.Parts.{command_of, executor_part, is_of, part_of, parts_from, parts_of, unused_part, user_of, user_part, worker_part};

use crate::keys::worker_words;
use crate::{ActionList, ListAction};
use plain_values::{Command, Items, NoMemory, Text, Variable, texts_again, variables_again};
use run_plan::{Group, Kind, Plan, PlanAction, Speech};
use std::alloc::Global;

/// The command that the workers of a group run, and the protocol with them.
#[derive(Drop)]
pub struct GroupPart {
    pub command: Command,
    pub speech: Speech,
}

/// Returns the part of each group of the plan, in order.
///
/// The executor's command is the `executor` with the word `--serve` and an empty environment. Every other group takes
/// its command from the first action whose local branch is the group's. It has that action's start-up words, with the
/// extra flags, and that action's environment.
///
/// # Errors
///
/// Returns `NoMemory` if memory runs out.
pub fn group_parts(
    alloc: Global,
    list: &ActionList,
    plan: &Plan,
    extra: &[Text],
    executor: &str,
) -> Result<Vec<GroupPart>, NoMemory>
    requires { Sound plan.now }
    ensures { IfOk result
        (λ v. v.items ≡ parts_of list.now.actions plan.now extra.now executor.now) }
{
    let mut parts = Vec::new(alloc);
    let mut number = 0;
    for group in plan.groups.as_slice() {
        let user = user_of(list.actions.as_slice(), plan.actions.as_slice(), number);
        parts.push(part_of(alloc, group, user, extra, executor)?)?;
        number += 1;
    }
    Ok(parts)
}

// Returns the part of a group. This action is the first to use the group.
fn part_of(
    alloc: Global,
    group: &Group,
    user: Option<&ListAction>,
    extra: &[Text],
    executor: &str,
) -> Result<GroupPart, NoMemory>
    ensures { IfOk result
        (λ p. p ≡ part_of group.now (option_copied user.entry) extra.now executor.now) }
{
    if is_remote(group.kind) {
        return executor_part(alloc, executor);
    }
    match user {
        None => Ok(unused_part(alloc)),
        Some(action) => worker_part(alloc, extra, action),
    }
}

fn is_remote(kind: Kind) -> bool
    ensures { result ≡ is_remote kind }
{
    match kind {
        Kind::Remote => true,
        Kind::Single | Kind::Multi | Kind::Boxed => false,
    }
}

fn user_of<'a>(
    actions: &'a [ListAction],
    planned: &[PlanAction],
    number: u32,
) -> Option<&'a ListAction>
    ensures { option_copied result ≡ user_of actions.now planned.now number }
{
    match first_of(planned, number) {
        None => None,
        Some(index) => actions.get(index),
    }
}

fn first_of(planned: &[PlanAction], number: u32) -> Option<usize>
    ensures { result ≡ position (λ y. is_of number y.local) planned.now }
{
    planned
        .iter()
        .position(|action| is_of(number, action.local))
}

fn is_of(number: u32, branch: Option<u32>) -> bool
    ensures { result ≡ is_of number branch }
{
    match branch {
        None => false,
        Some(group) => group == number,
    }
}

fn executor_part(alloc: Global, executor: &str) -> Result<GroupPart, NoMemory>
    ensures { IfOk result (λ p. p ≡ executor_part executor.now) }
{
    let mut words = Vec::new(alloc);
    words.push(Text::copy_of(alloc, "--serve")?)?;
    Ok(GroupPart {
        command: Command {
            program: Text::copy_of(alloc, executor)?,
            words: Items::of(words),
            env: Items::of(Vec::new(alloc)),
        },
        speech: Speech::Remote,
    })
}

fn unused_part(alloc: Global) -> GroupPart
    ensures { result ≡ unused_part }
{
    GroupPart {
        command: Command {
            program: Text::of(String::new(alloc)),
            words: Items::of(Vec::new(alloc)),
            env: Items::of(Vec::new(alloc)),
        },
        speech: Speech::Proto,
    }
}

fn worker_part(alloc: Global, extra: &[Text], action: &ListAction) -> Result<GroupPart, NoMemory>
    ensures { IfOk result (λ p. p ≡ worker_part extra.now action.now) }
{
    let words = worker_words(alloc, action.argv.as_slice(), extra)?;
    Ok(GroupPart {
        command: command_of(alloc, words.as_slice(), action.env.as_slice())?,
        speech: if action.needs.json {
            Speech::Json
        } else {
            Speech::Proto
        },
    })
}

fn command_of(alloc: Global, words: &[Text], env: &[Variable]) -> Result<Command, NoMemory>
    ensures { IfOk result (λ c. c ≡ command_of words.now env.now) }
{
    match words.split_first() {
        None => Ok(Command {
            program: Text::of(String::new(alloc)),
            words: Items::of(Vec::new(alloc)),
            env: variables_again(alloc, env)?,
        }),
        Some((program, rest)) => Ok(Command {
            program: Text::copy_of(alloc, program.as_str())?,
            words: texts_again(alloc, rest)?,
            env: variables_again(alloc, env)?,
        }),
    }
}
