// The task of a list, computed from the list, its work and the options.
ghost use Rattle.std.specs.Prelude.{◌≡◌, IfOk, map};
ghost use Rattle.list_actions.specs.Whole.{IsWhole};
ghost use Rattle.shared_tasks.specs.Words.{AreShared};
ghost use Rattle.shared_tasks.specs.Tasks.{IsSharedTask, without_berths};

use crate::pools::pools_of;
use crate::reading::SharedTask;
use crate::words::SharedOptions;
use action_list::{ActionList, group_parts, plan, plan_again};
use placed_rules::SharedPlan;
use plain_values::{Items, NoMemory};
use remote_messages::Work;
use run_plan::{Group, Plan};
use run_tasks::{Task, commands_of};
use std::alloc::Global;
use std::mem::replace;

/// Returns the task of a list that has this work, and the plan of its core.
///
/// # Errors
///
/// Returns `NoMemory` if memory runs out.
pub fn shared_task_of(
    alloc: Global,
    options: &SharedOptions,
    list: &ActionList,
    work: Work,
) -> Result<SharedTask, NoMemory>
    requires options { AreShared options.now }
    requires list { IsWhole list.now.actions }
    ensures task { IfOk result (IsSharedTask options.now list.now.actions) }
    ensures work { IfOk result (λ made. made.task.work ≡ work) }
{
    let own = &options.options;
    let mut plan = plan(alloc, list, 0, own.remote, own.retries)?;
    let groups = bare_groups(alloc, plan.groups.as_slice())?;
    let drawn = replace(&mut plan.groups, groups);
    let parts = group_parts(
        alloc,
        list,
        &plan,
        own.extra.as_slice(),
        own.executor.as_str(),
    )?;
    let laid = pools_of(alloc, drawn.as_slice(), parts.as_slice(), options.workers)?;
    let commands = commands_of(alloc, parts.as_slice())?;
    let twin = plan_again(alloc, &plan)?;
    let task = Task {
        plan,
        commands,
        speeches: laid.speeches,
        verbose: own.verbose,
        work,
        short: false,
    };
    let shared = SharedPlan {
        plan: twin,
        pools: Items::of(laid.pools),
        instances: own.instances,
    };
    Ok(SharedTask { task, shared })
}

/// Returns the groups without berths.
///
/// # Errors
///
/// Returns `NoMemory` if memory runs out.
pub fn bare_groups(alloc: Global, groups: &[Group]) -> Result<Items<Group>, NoMemory>
    ensures { IfOk result (λ v. v ≡ map without_berths groups.now) }
{
    let mut bare = Vec::with_capacity(alloc, groups.len())?;
    for group in groups {
        bare.push(Group {
            kind: group.kind,
            cancel: group.cancel,
            berths: 0,
        })?;
    }
    Ok(Items::of(bare))
}
