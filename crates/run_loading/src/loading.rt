//! The public calls, which read a list, its work, or both.
ghost use Rattle.std.specs.Prelude.{◌≡◌, IfOk};
ghost use Rattle.list_actions.specs.Producers.{producer_of};
ghost use Rattle.list_actions.specs.Made.{maker_of};
ghost use Rattle.list_actions.specs.Whole.{IsWhole};
ghost use Rattle.outside.specs.Causes.{Counts};
ghost use Rattle.outside.specs.Told.{SameFloor};
ghost use Rattle.run_loading.specs.Course.{IsList, ListFirst, Loads, WorkRead};
ghost use Rattle.run_loading.specs.Reads.{IsFloorFailed, Leads, end_of};

use crate::reading::read_found;
use crate::sources::read_sources;
use crate::works::work_of;
use crate::{RunFault, Stage};
use action_list::{ActionList, ListAction, ListRefusal, Producers, read_list_with};
use outside::Floor;
use plain_values::NoMemory;
use remote_messages::Work;
use std::alloc::Global;

/// A list of actions, and their work.
#[derive(Drop)]
pub struct Loaded {
    pub list: ActionList,
    /// The work of each action, in order.
    pub work: Work,
}

/// Reads the list at this path, which may have at most `keys` worker keys, and all files that its actions read.
///
/// The list is read first. Then each action's tools are read, followed by its inputs that no action
/// makes. They are read in order, each path once, up to the first path that isn't found. Then the
/// arguments of each action's request are expanded over the action's own source inputs. File contents
/// are shared, not copied.
///
/// # Errors
///
/// Returns the first of these faults: `Absent` or `FloorFailed` for the list, `List` with its first
/// fault, `Absent` or `FloorFailed` for a tool or an input, `Flags` of the first action that has such a
/// fault. Returns `NoMemory` with `Before` if memory runs out at any time.
pub fn load<F: Floor>(
    alloc: Global,
    path: &str,
    keys: u32,
    floor: &mut F,
) -> Result<Loaded, RunFault>
    ensures course { Leads (F.told floor.old) (F.told floor.new) result
        (ListFirst Loads keys path.now) }
    ensures whole { IfOk result (λ loaded. IsWhole loaded.list.actions) }
    ensures floor { Counts (F.told floor.old).faults (F.told floor.new).faults
        (IsFloorFailed (end_of result)) }
    ensures files { SameFloor (F.told floor.old) (F.told floor.new) }
{
    let list = read_actions(alloc, path, keys, floor)?;
    let work = load_work(alloc, &list, floor)?;
    Ok(Loaded { list, work })
}

/// Reads the list at this path, which may have at most `keys` worker keys.
///
/// # Errors
///
/// Returns `Absent` or `FloorFailed` for the list, and `List` with the list's first fault.
/// Returns `NoMemory` with `Before` if memory runs out.
pub fn read_actions<F: Floor>(
    alloc: Global,
    path: &str,
    keys: u32,
    floor: &mut F,
) -> Result<ActionList, RunFault>
    ensures course { Leads (F.told floor.old) (F.told floor.new) result
        (ListFirst IsList keys path.now) }
    ensures whole { IfOk result (λ list. IsWhole list.actions) }
    ensures floor { Counts (F.told floor.old).faults (F.told floor.new).faults
        (IsFloorFailed (end_of result)) }
    ensures files { SameFloor (F.told floor.old) (F.told floor.new) }
{
    let bytes = read_found(alloc, floor, path)?;
    match read_list_with(alloc, bytes.bytes(), keys) {
        Ok(list) => Ok(list),
        Err(ListRefusal::Fault(fault)) => Err(RunFault::List(fault)),
        Err(ListRefusal::NoMemory) => Err(RunFault::NoMemory(Stage::Before)),
    }
}

/// Reads the files that the actions of a list read, and returns the work of the actions.
///
/// # Errors
///
/// Returns `Absent` or `FloorFailed` for the first path that isn't found, and `Flags` of the first action
/// whose request arguments can't be expanded. Returns `NoMemory` with `Before` if memory runs out.
pub fn load_work<F: Floor>(
    alloc: Global,
    list: &ActionList,
    floor: &mut F,
) -> Result<Work, RunFault>
    requires { IsWhole list.now.actions }
    ensures course { Leads (F.told floor.old) (F.told floor.new) result
        (WorkRead list.now.actions) }
    ensures floor { Counts (F.told floor.old).faults (F.told floor.new).faults
        (IsFloorFailed (end_of result)) }
    ensures files { SameFloor (F.told floor.old) (F.told floor.new) }
{
    let actions = list.actions.as_slice();
    let producers = producers_of(alloc, actions)?;
    let sources = read_sources(alloc, floor, actions, &producers)?;
    work_of(alloc, actions, &producers, &sources)
}

/// Returns the table of the files that the actions make.
fn producers_of(alloc: Global, actions: &[ListAction]) -> Result<Producers, NoMemory>
    requires { IsWhole actions.now }
    ensures { IfOk result (λ producers. producer_of producers ≡ maker_of actions.now) }
{
    let mut producers = Producers::new(alloc);
    let mut number = 0;
    for action in actions {
        producers.note_all(alloc, number, action.outputs.as_slice())?;
        number += 1;
    }
    Ok(producers)
}
