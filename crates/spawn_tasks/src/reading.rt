// The reads before anything is started: the arguments, the list, and the files that its actions read.
ghost use Rattle.std.specs.Prelude.{◌≡◌, IfOk, Some, map, string_bytes};
ghost use Rattle.outside.specs.Causes.{Counts};
ghost use Rattle.outside.specs.Told.{SameFloor};
ghost use Rattle.run_loading.specs.Reads.{IsFloorFailed};
ghost use Rattle.spawn_strategies.specs.SpawnOptions.{AreSpawnLimits, spawn_options_of};
ghost use Rattle.spawn_tasks.specs.Course.{PathRead, SpawnCourse, SpawnLeads};
ghost use Rattle.spawn_tasks.specs.Faults.{fault_of};
ghost use Rattle.spawn_tasks.specs.Tasks.{MayBeSpawned};

use crate::faults::NoSpawn;
use crate::tasks::{SpawnTask, spawn_task_of};
use outside::Floor;
use run_loading::{Loaded, RunFault, load};
use spawn_strategies::{SpawnOptions, read_spawn_words};
use std::alloc::Global;

// The maximum number of worker keys of the list with its own strategies.
const MOST_KEYS: u32 = 4096;

/// Returns the task that the arguments of a command yield, before its lanes are started.
///
/// First the arguments are read. Then the list is read at its path. It may have at most 4,096 worker keys. Then
/// its actions' tools and source inputs are read, and each action's strategy is chosen. Then request
/// arguments are expanded, for the actions that only their chosen strategy brings to a worker. Last, the
/// commands and the protocols are made. The group of the sandboxed actions has the command of the
/// sandbox executor with the argument `--serve`.
///
/// # Errors
///
/// Returns the first of these, each in `Fault` except for `NoStrategy`:
///
/// - `Words` if the arguments aren't accepted. In that case nothing is read.
/// - `Absent` or `FloorFailed` for the list.
/// - `List` with the list's first fault.
/// - `Absent` or `FloorFailed` for a tool or an input.
/// - `Flags` of the first action whose own strategy has a worker and whose request arguments can't be
///   expanded.
/// - `NoStrategy` of the first action that no name of its strategy list supports.
/// - `List` with `TooMany` keys if the chosen strategies have more than 48.
/// - `Flags` of the first other action with such a fault.
///
/// Returns `NoMemory` with `Before` in `Fault` if memory runs out at any time.
pub fn read_spawn_task<F: Floor>(
    alloc: Global,
    words: &[String],
    floor: &mut F,
) -> Result<SpawnTask, NoSpawn>
    ensures course { SpawnLeads (F.told floor.old) (F.told floor.new) result
        (SpawnCourse (spawn_options_of (map string_bytes words.now))) }
    ensures runs { IfOk result MayBeSpawned }
    ensures floor { Counts (F.told floor.old).faults (F.told floor.new).faults
        (IsFloorFailed (fault_of result)) }
    ensures files { SameFloor (F.told floor.old) (F.told floor.new) }
{
    match read_spawn_words(alloc, words)? {
        Some(options) => read_by_options(alloc, floor, &options),
        None => Err(NoSpawn::Fault(RunFault::Words)),
    }
}

fn read_by_options<F: Floor>(
    alloc: Global,
    floor: &mut F,
    options: &SpawnOptions,
) -> Result<SpawnTask, NoSpawn>
    requires { AreSpawnLimits options.now }
    ensures course { SpawnLeads (F.told floor.old) (F.told floor.new) result
        (PathRead options.now options.now.options.list) }
    ensures runs { IfOk result MayBeSpawned }
    ensures floor { Counts (F.told floor.old).faults (F.told floor.new).faults
        (IsFloorFailed (fault_of result)) }
    ensures files { SameFloor (F.told floor.old) (F.told floor.new) }
{
    match &options.options.list {
        Some(path) => read_at(alloc, floor, options, path.as_str()),
        None => unreachable!(),
    }
}

// Reads the list at this path with its work, and returns the task of both.
fn read_at<F: Floor>(
    alloc: Global,
    floor: &mut F,
    options: &SpawnOptions,
    path: &str,
) -> Result<SpawnTask, NoSpawn>
    requires { AreSpawnLimits options.now }
    ensures course { SpawnLeads (F.told floor.old) (F.told floor.new) result
        (PathRead options.now (Some path.now)) }
    ensures runs { IfOk result MayBeSpawned }
    ensures floor { Counts (F.told floor.old).faults (F.told floor.new).faults
        (IsFloorFailed (fault_of result)) }
    ensures files { SameFloor (F.told floor.old) (F.told floor.new) }
{
    let Loaded { list, work } = load(alloc, path, MOST_KEYS, floor)?;
    spawn_task_of(alloc, options, &list, work)
}
