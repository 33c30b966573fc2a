// The task of a list, computed from the list, its work and the options.
ghost use Rattle.std.specs.Prelude.{◌≡◌, IfOk};
ghost use Rattle.run_plan.specs.Sound.{Sound};
ghost use Rattle.list_actions.specs.Whole.{IsWhole};
ghost use Rattle.tool_words.specs.Options.{AreInLimits};
ghost use Rattle.run_tasks.specs.Tasks.{HasSettings, HasSoundPlans, IsTaskOf, plan_by};

use crate::setup::{commands_of, speeches_of};
use action_list::{ActionList, group_parts, plan, plan_again};
use plain_values::{Command, NoMemory};
use remote_messages::Work;
use run_plan::{Plan, Speech};
use std::alloc::Global;
use tool_words::Options;

/// The task that a list yields, before its lanes are started.
#[derive(Drop)]
pub struct Task {
    /// The plan of the list.
    pub plan: Plan,
    /// The command that starts the lines of each group, by the groups' numbers.
    pub commands: Vec<Command>,
    /// The speech of each berth, by the berths' numbers.
    pub speeches: Vec<Speech>,
    /// True if workers are asked for more output.
    pub verbose: bool,
    /// The work of its actions.
    pub work: Work,
    /// True if the report is only the line of totals, because the list was generated.
    pub short: bool,
}

/// Returns the task of a list that has this work, and a second copy of its plan.
///
/// # Errors
///
/// Returns `NoMemory` if memory runs out.
pub fn task_of(
    alloc: Global,
    options: &Options,
    list: &ActionList,
    work: Work,
    short: bool,
) -> Result<(Task, Plan), NoMemory>
    requires options { AreInLimits options.now }
    requires list { IsWhole list.now.actions }
    ensures task { IfOk result (IsTaskOf options.now list.now.actions short) }
    ensures work { IfOk result (λ made. made.0.work ≡ work) }
    ensures sound { IfOk result HasSoundPlans }
    ensures settings { IfOk result (λ made. HasSettings made.0) }
{
    let plan = plan_of(alloc, options, list)?;
    let parts = group_parts(
        alloc,
        list,
        &plan,
        options.extra.as_slice(),
        options.executor.as_str(),
    )?;
    let commands = commands_of(alloc, parts.as_slice())?;
    let speeches = speeches_of(alloc, &plan, parts.as_slice())?;
    let twin = plan_again(alloc, &plan)?;
    let task = Task {
        plan,
        commands,
        speeches,
        verbose: options.verbose,
        work,
        short,
    };
    Ok((task, twin))
}

// Returns the plan of the list with these options.
fn plan_of(alloc: Global, options: &Options, list: &ActionList) -> Result<Plan, NoMemory>
    requires options { AreInLimits options.now }
    requires list { IsWhole list.now.actions }
    ensures plan { IfOk result (λ p. p ≡ plan_by options.now list.now.actions) }
    ensures sound { IfOk result Sound }
{
    plan(
        alloc,
        list,
        options.instances,
        options.remote,
        options.retries,
    )
}
