// The reads before anything is started: the arguments, the list, and the files that its actions read.
ghost use Rattle.std.specs.Prelude.{◌≡◌, IfOk, map, string_bytes};
ghost use Rattle.action_list.specs.Lists.{list_of};
ghost use Rattle.generated_list.specs.Generated.{generated_text};
ghost use Rattle.list_actions.specs.Whole.{IsWhole};
ghost use Rattle.outside.specs.Causes.{Counts};
ghost use Rattle.outside.specs.Told.{SameFloor};
ghost use Rattle.run_loading.specs.Course.{BytesRead, Loads};
ghost use Rattle.run_loading.specs.Reads.{IsFloorFailed, Leads, end_of};
ghost use Rattle.run_tasks.specs.Course.{ListGives};
ghost use Rattle.shared_tasks.specs.Course.{most_keys};
ghost use Rattle.spawn_tasks.specs.Course.{SpawnLeads};
ghost use Rattle.spawn_tasks.specs.Faults.{fault_of};
ghost use Rattle.tool_words.specs.Options.{AreInLimits};
ghost use Rattle.placed_tasks.specs.Course.{OptionsRead, PlacedCourse, Sourced};
ghost use Rattle.placed_tasks.specs.Tasks.{MayBePlaced};
ghost use Rattle.placed_tasks.specs.Words.{AreRunOptions, run_options_of};

use crate::tasks::{PlacedTask, placed_task_of};
use crate::words::{RunOptions, read_run_words};
use action_list::{ActionList, ListRefusal, read_list_with};
use generated_list::generated_list;
use outside::Floor;
use run_loading::{Loaded, RunFault, Stage, load, load_work};
use shared_tasks::MOST_KEYS;
use spawn_tasks::NoSpawn;
use std::alloc::Global;
use tool_words::Options;

/// Returns the task that the arguments of a command yield, before its lanes are started.
///
/// First the arguments are read. Then the list is read at its path, or generated. It may have at most 4,096 worker
/// keys. Then its actions' tools and source inputs are read, and each action's strategy is chosen. Then request
/// arguments are expanded, for the actions that only their chosen strategy brings to a worker. Last, the berths, the
/// commands and the protocols are made. The group of the sandboxed actions has the command of the sandbox executor
/// with the argument `--serve`.
///
/// # Errors
///
/// Returns the first of these, each in `Fault` except for `NoStrategy`:
///
/// - `Words` if the arguments aren't accepted. In that case nothing is read.
/// - `Absent` or `FloorFailed` for the list.
/// - `List` with the list's first fault.
/// - `Absent` or `FloorFailed` for a tool or an input.
/// - `Flags` of the first action whose own strategy has a worker and whose request arguments can't be
///   expanded.
/// - `NoStrategy` of the first action that no name of its strategy list supports.
/// - `List` with `TooMany` keys if the chosen strategies have more than 48, unless keys share berths.
/// - `Flags` of the first other action with such a fault.
///
/// Returns `NoMemory` with `Before` in `Fault` if memory runs out at any time.
pub fn read_placed_task<F: Floor>(
    alloc: Global,
    words: &[String],
    floor: &mut F,
) -> Result<PlacedTask, NoSpawn>
    ensures course { SpawnLeads (F.told floor.old) (F.told floor.new) result
        (PlacedCourse (run_options_of (map string_bytes words.now))) }
    ensures runs { IfOk result MayBePlaced }
    ensures floor { Counts (F.told floor.old).faults (F.told floor.new).faults
        (IsFloorFailed (fault_of result)) }
    ensures files { SameFloor (F.told floor.old) (F.told floor.new) }
{
    match read_run_words(alloc, words)? {
        Some(options) => read_by_options(alloc, floor, &options),
        None => Err(NoSpawn::Fault(RunFault::Words)),
    }
}

// Reads the list with its work, and returns the task of both.
fn read_by_options<F: Floor>(
    alloc: Global,
    floor: &mut F,
    options: &RunOptions,
) -> Result<PlacedTask, NoSpawn>
    requires { AreRunOptions options.now }
    ensures course { SpawnLeads (F.told floor.old) (F.told floor.new) result
        (OptionsRead options.now) }
    ensures runs { IfOk result MayBePlaced }
    ensures floor { Counts (F.told floor.old).faults (F.told floor.new).faults
        (IsFloorFailed (fault_of result)) }
    ensures files { SameFloor (F.told floor.old) (F.told floor.new) }
{
    let Loaded { list, work } = loaded(alloc, floor, &options.given.options)?;
    placed_task_of(alloc, options, &list, work)
}

// Reads the list with its work, at its path or generated.
fn loaded<F: Floor>(alloc: Global, floor: &mut F, options: &Options) -> Result<Loaded, RunFault>
    requires { AreInLimits options.now }
    ensures course { Leads (F.told floor.old) (F.told floor.new) result
        (Sourced options.now.list options.now.generate) }
    ensures whole { IfOk result (λ loaded. IsWhole loaded.list.actions) }
    ensures floor { Counts (F.told floor.old).faults (F.told floor.new).faults
        (IsFloorFailed (end_of result)) }
    ensures files { SameFloor (F.told floor.old) (F.told floor.new) }
{
    if let Some(actions) = options.generate {
        return load_generated(alloc, floor, actions);
    }
    match &options.list {
        Some(path) => load(alloc, path.as_str(), MOST_KEYS, floor),
        // The options name either a list or a number of actions to generate.
        None => unreachable!(),
    }
}

// Generates the list of `actions` actions, and reads the files that they read.
fn load_generated<F: Floor>(alloc: Global, floor: &mut F, actions: u32) -> Result<Loaded, RunFault>
    ensures course { Leads (F.told floor.old) (F.told floor.new) result
        (BytesRead Loads (list_of most_keys (generated_text actions))) }
    ensures whole { IfOk result (λ loaded. IsWhole loaded.list.actions) }
    ensures floor { Counts (F.told floor.old).faults (F.told floor.new).faults
        (IsFloorFailed (end_of result)) }
    ensures files { SameFloor (F.told floor.old) (F.told floor.new) }
{
    let list = list_generated(alloc, actions)?;
    let work = load_work(alloc, &list, floor)?;
    Ok(Loaded { list, work })
}

// Returns the generated list of `actions` actions, which is read from its bytes like any list.
fn list_generated(alloc: Global, actions: u32) -> Result<ActionList, RunFault>
    ensures list { ListGives (list_of most_keys (generated_text actions)) result }
    ensures whole { IfOk result (λ list. IsWhole list.actions) }
{
    let bytes = generated_list(alloc, actions)?;
    match read_list_with(alloc, bytes.as_slice(), MOST_KEYS) {
        Ok(list) => Ok(list),
        Err(ListRefusal::Fault(fault)) => Err(RunFault::List(fault)),
        Err(ListRefusal::NoMemory) => Err(RunFault::NoMemory(Stage::Before)),
    }
}
