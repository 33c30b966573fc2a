// The task that a list yields under the chosen strategies, computed from the list, its work and the options.
ghost use Rattle.std.specs.Prelude.{◌≡◌, IfOk, length};
ghost use Rattle.list_actions.specs.Whole.{IsWhole};
ghost use Rattle.run_plan.specs.Sound.{Sound};
ghost use Rattle.spawn_strategies.specs.Choices.{Answers, chosen_names};
ghost use Rattle.spawn_strategies.specs.SpawnOptions.{AreFitting};
ghost use Rattle.spawn_tasks.specs.Course.{ListLeads, UnlessMemory};
ghost use Rattle.spawn_tasks.specs.Tasks.{IsSpawnTask, choice_by};

use crate::faults::NoSpawn;
use crate::parts::parts_by;
use crate::wording::reworded;
use action_list::{ActionList, ListAction, plan_again};
use plain_values::NoMemory;
use remote_messages::Work;
use run_plan::{MOST_LOCAL_BERTHS, Plan};
use run_tasks::{Task, commands_of, speeches_of};
use spawn_strategies::{
    ChoiceFault, Name, PlanLimits, SpawnOptions, Strategies, chosen, chosen_plan,
};
use std::alloc::Global;

/// The task that a list yields under the chosen strategies, before its lanes are started.
#[derive(Drop)]
pub struct SpawnTask {
    pub task: Task,
    /// A second copy of the plan, for the scheduler.
    pub twin: Plan,
    /// The milliseconds that a local branch waits while a remote one runs, 0 to 9999.
    pub delay: u32,
}

/// Returns the task of a list that has this work with its own strategies.
///
/// # Errors
///
/// Returns `NoStrategy` of the first action that no name of its strategy list supports. Otherwise returns
/// a `Fault`: `List` with `TooMany` keys if the chosen strategies have more than 48, and otherwise `Flags`
/// of the first action whose request arguments can't be expanded. Returns `NoMemory` with `Before` if
/// memory runs out at any time.
pub fn spawn_task_of(
    alloc: Global,
    options: &SpawnOptions,
    list: &ActionList,
    work: Work,
) -> Result<SpawnTask, NoSpawn>
    requires options { AreFitting options.now }
    requires list { IsWhole list.now.actions }
    requires worked { length work.actions ≡ length list.now.actions }
    ensures { UnlessMemory result (ListLeads options.now list.now.actions work.actions result) }
{
    let plan = plan_by(alloc, options, list)?;
    let actions = list.actions.as_slice();
    let names = chosen_names(alloc, &options.strategies, actions)?;
    let work = reworded(alloc, actions, names.as_slice(), work)?;
    Ok(task_with(alloc, options, list, plan, names.as_slice(), work)?)
}

// Returns the plan of the chosen strategies.
fn plan_by(alloc: Global, options: &SpawnOptions, list: &ActionList) -> Result<Plan, ChoiceFault>
    requires options { AreFitting options.now }
    requires list { IsWhole list.now.actions }
    ensures plan { Answers result (choice_by options.now list.now.actions) }
    ensures sound { IfOk result Sound }
{
    let own = &options.options;
    let limits = PlanLimits {
        keys: MOST_LOCAL_BERTHS,
        instances: own.instances,
        remote: own.remote,
        retries: own.retries,
    };
    chosen_plan(alloc, list, &options.strategies, limits)
}

/// Returns the chosen name of each action. If there is a plan, each action has one, and the default is unused.
///
/// # Errors
///
/// Returns `NoMemory` if memory runs out.
pub fn chosen_names(
    alloc: Global,
    words: &Strategies,
    actions: &[ListAction],
) -> Result<Vec<Name>, NoMemory>
    ensures { IfOk result (λ v. v.items ≡ chosen_names words.now actions.now) }
{
    let mut names = Vec::with_capacity(alloc, actions.len())?;
    for action in actions {
        names.push(chosen(alloc, words, action)?.unwrap_or(Name::Remote))?;
    }
    Ok(names)
}

// Returns the task with this plan, these chosen names and this work.
fn task_with(
    alloc: Global,
    options: &SpawnOptions,
    list: &ActionList,
    plan: Plan,
    names: &[Name],
    work: Work,
) -> Result<SpawnTask, NoMemory>
    requires sound { Sound plan }
    requires names { names.now ≡ chosen_names options.now.strategies list.now.actions }
    ensures task { IfOk result (IsSpawnTask options.now list.now.actions plan) }
    ensures work { IfOk result (λ made. made.task.work ≡ work) }
{
    let parts = parts_by(alloc, options, list, &plan, names)?;
    let commands = commands_of(alloc, parts.as_slice())?;
    let speeches = speeches_of(alloc, &plan, parts.as_slice())?;
    let twin = plan_again(alloc, &plan)?;
    let task = Task {
        plan,
        commands,
        speeches,
        verbose: options.options.verbose,
        work,
        short: false,
    };
    Ok(SpawnTask {
        task,
        twin,
        delay: options.local_delay,
    })
}
