// The reads before anything is started.
ghost use Rattle.std.specs.Prelude.{◌≡◌, IfOk, Some, map, string_bytes};
ghost use Rattle.list_actions.specs.Whole.{IsWhole};
ghost use Rattle.outside.specs.Causes.{Counts};
ghost use Rattle.outside.specs.Told.{SameFloor};
ghost use Rattle.run_loading.specs.Reads.{IsFloorFailed, Leads, end_of};
ghost use Rattle.shared_tasks.specs.Words.{AreShared, shared_options_of};
ghost use Rattle.shared_tasks.specs.Course.{ListRead, SharedCourse, TaskRead};
ghost use Rattle.shared_tasks.specs.Tasks.{MayBeShared};

use crate::plans::shared_task_of;
use crate::words::{SharedOptions, read_shared_words};
use action_list::ActionList;
use outside::Floor;
use placed_rules::SharedPlan;
use run_loading::{RunFault, load_work, read_actions};
use run_tasks::Task;
use std::alloc::Global;

/// The maximum number of worker keys of a list.
pub const MOST_KEYS: u32 = 4096;

/// The task of a list, and the plan of the core that runs the task.
#[derive(Drop)]
pub struct SharedTask {
    pub task: Task,
    pub shared: SharedPlan,
}

/// Returns the task that the arguments of a command yield, before its lanes are started.
///
/// First the arguments are read. Then the list is read at its path. It may have at most 4,096 worker keys. Then
/// its actions' tools and source inputs are read. Last, the plan is made, with its pools, its commands
/// and its protocols.
///
/// # Errors
///
/// Returns the first of these: `Words` if the arguments aren't accepted, and then nothing is read; `Absent`
/// or `FloorFailed` for the list, `List` with its first fault, `Absent` or `FloorFailed` for a tool or an
/// input, `Flags` of the first action that has such a fault. Returns `NoMemory` with `Before` if memory
/// runs out at any time.
pub fn read_shared_task<F: Floor>(
    alloc: Global,
    words: &[String],
    floor: &mut F,
) -> Result<SharedTask, RunFault>
    ensures course { Leads (F.told floor.old) (F.told floor.new) result
        (SharedCourse (shared_options_of (map string_bytes words.now))) }
    ensures runs { IfOk result MayBeShared }
    ensures floor { Counts (F.told floor.old).faults (F.told floor.new).faults
        (IsFloorFailed (end_of result)) }
    ensures files { SameFloor (F.told floor.old) (F.told floor.new) }
{
    match read_shared_words(alloc, words)? {
        Some(options) => read_by_options(alloc, floor, &options),
        None => Err(RunFault::Words),
    }
}

fn read_by_options<F: Floor>(
    alloc: Global,
    floor: &mut F,
    options: &SharedOptions,
) -> Result<SharedTask, RunFault>
    requires { AreShared options.now }
    ensures course { Leads (F.told floor.old) (F.told floor.new) result
        (ListRead options.now options.now.options.list) }
    ensures runs { IfOk result MayBeShared }
    ensures floor { Counts (F.told floor.old).faults (F.told floor.new).faults
        (IsFloorFailed (end_of result)) }
    ensures files { SameFloor (F.told floor.old) (F.told floor.new) }
{
    match &options.options.list {
        Some(path) => read_at(alloc, floor, options, path.as_str()),
        None => unreachable!(),
    }
}

// Reads the list at this path, and continues with it.
fn read_at<F: Floor>(
    alloc: Global,
    floor: &mut F,
    options: &SharedOptions,
    path: &str,
) -> Result<SharedTask, RunFault>
    requires { AreShared options.now }
    ensures course { Leads (F.told floor.old) (F.told floor.new) result
        (ListRead options.now (Some path.now)) }
    ensures runs { IfOk result MayBeShared }
    ensures floor { Counts (F.told floor.old).faults (F.told floor.new).faults
        (IsFloorFailed (end_of result)) }
    ensures files { SameFloor (F.told floor.old) (F.told floor.new) }
{
    let list = read_actions(alloc, path, MOST_KEYS, floor)?;
    read_by_list(alloc, floor, options, &list)
}

// Reads the files that the list's actions read, and returns the task of both.
fn read_by_list<F: Floor>(
    alloc: Global,
    floor: &mut F,
    options: &SharedOptions,
    list: &ActionList,
) -> Result<SharedTask, RunFault>
    requires options { AreShared options.now }
    requires list { IsWhole list.now.actions }
    ensures course { Leads (F.told floor.old) (F.told floor.new) result
        (TaskRead options.now list.now) }
    ensures runs { IfOk result MayBeShared }
    ensures floor { Counts (F.told floor.old).faults (F.told floor.new).faults
        (IsFloorFailed (end_of result)) }
    ensures files { SameFloor (F.told floor.old) (F.told floor.new) }
{
    let work = load_work(alloc, list, floor)?;
    Ok(shared_task_of(alloc, options, list, work)?)
}
