// The reads before anything is started: the arguments, the list, and the files that its actions read.
ghost use Rattle.std.specs.Prelude.{◌≡◌, IfOk, map, string_bytes};
ghost use Rattle.action_list.specs.Lists.{list_of};
ghost use Rattle.list_actions.specs.Whole.{IsWhole};
ghost use Rattle.generated_list.specs.Generated.{generated_text};
ghost use Rattle.run_values.specs.Runnable.{EachHasBerth};
ghost use Rattle.outside.specs.Causes.{Counts};
ghost use Rattle.outside.specs.Told.{SameFloor};
ghost use Rattle.run_loading.specs.Reads.{IsFloorFailed, Leads, end_of};
ghost use Rattle.tool_words.specs.Options.{AreInLimits, options_of};
ghost use Rattle.run_tasks.specs.Course.{Course, GeneratedRead, ListGives, ListRead, OptionsRead, TaskRead};
ghost use Rattle.run_tasks.specs.Tasks.{HasBerths, HasSettings, HasSoundPlans, HasWork};
ghost use Rattle.run_plan.specs.Limits.{most_local_berths};

use crate::task::{Task, task_of};
use action_list::{ActionList, ListRefusal, read_list_with};
use generated_list::generated_list;
use outside::Floor;
use run_loading::{RunFault, Stage, load_work, read_actions};
use run_plan::{MOST_LOCAL_BERTHS, Plan};
use std::alloc::Global;
use tool_words::{Options, read_words};

/// Returns the task that the arguments of a command yield, before its lanes are started, and a second
/// copy of the plan. The scheduler takes one copy, and the report is made from the other.
///
/// First the arguments are read. Then the list is read at its path, or generated. Then its actions'
/// tools and source inputs are read. Last, the plan is made, with its commands and its speeches.
///
/// # Errors
///
/// Returns the first of these: `Words` if the arguments aren't accepted, and then nothing is read;
/// `Absent` or `FloorFailed` for the list, `List` with its first fault, `Absent` or `FloorFailed` for a
/// tool or an input, `Flags` of the first action that has such a fault. Returns `NoMemory` with `Before`
/// if memory runs out at any time.
pub fn read_task<F: Floor>(
    alloc: Global,
    words: &[String],
    floor: &mut F,
) -> Result<(Task, Plan), RunFault>
    ensures course { Leads (F.told floor.old) (F.told floor.new) result
        (Course (options_of (map string_bytes words.now))) }
    ensures sound { IfOk result HasSoundPlans }
    ensures berths { IfOk result (λ made. HasBerths made.0.plan) }
    ensures runnable { IfOk result (λ made. EachHasBerth made.0.plan) }
    ensures work { IfOk result (λ made. HasWork made.0) }
    ensures settings { IfOk result (λ made. HasSettings made.0) }
    ensures floor { Counts (F.told floor.old).faults (F.told floor.new).faults
        (IsFloorFailed (end_of result)) }
    ensures files { SameFloor (F.told floor.old) (F.told floor.new) }
{
    match read_words(alloc, words)? {
        Some(options) => read_by_options(alloc, floor, &options),
        None => Err(RunFault::Words),
    }
}

fn read_by_options<F: Floor>(
    alloc: Global,
    floor: &mut F,
    options: &Options,
) -> Result<(Task, Plan), RunFault>
    requires { AreInLimits options.now }
    ensures course { Leads (F.told floor.old) (F.told floor.new) result
        (OptionsRead options.now options.now.list options.now.generate) }
    ensures sound { IfOk result HasSoundPlans }
    ensures berths { IfOk result (λ made. HasBerths made.0.plan) }
    ensures runnable { IfOk result (λ made. EachHasBerth made.0.plan) }
    ensures work { IfOk result (λ made. HasWork made.0) }
    ensures settings { IfOk result (λ made. HasSettings made.0) }
    ensures floor { Counts (F.told floor.old).faults (F.told floor.new).faults
        (IsFloorFailed (end_of result)) }
    ensures files { SameFloor (F.told floor.old) (F.told floor.new) }
{
    if let Some(actions) = options.generate {
        return read_generated(alloc, floor, options, actions);
    }
    match &options.list {
        Some(path) => read_at(alloc, floor, options, path.as_str()),
        // The options name either a list or a number of actions to generate.
        None => unreachable!(),
    }
}

// Reads the list at this path, and continues with it.
fn read_at<F: Floor>(
    alloc: Global,
    floor: &mut F,
    options: &Options,
    path: &str,
) -> Result<(Task, Plan), RunFault>
    requires { AreInLimits options.now }
    ensures course { Leads (F.told floor.old) (F.told floor.new) result
        (ListRead options.now path.now) }
    ensures sound { IfOk result HasSoundPlans }
    ensures work { IfOk result (λ made. HasWork made.0) }
    ensures settings { IfOk result (λ made. HasSettings made.0) }
    ensures floor { Counts (F.told floor.old).faults (F.told floor.new).faults
        (IsFloorFailed (end_of result)) }
    ensures files { SameFloor (F.told floor.old) (F.told floor.new) }
{
    let list = read_actions(alloc, path, MOST_LOCAL_BERTHS, floor)?;
    read_by_list(alloc, floor, options, &list, false)
}

// Generates the list of `actions` actions, and continues with it.
fn read_generated<F: Floor>(
    alloc: Global,
    floor: &mut F,
    options: &Options,
    actions: u32,
) -> Result<(Task, Plan), RunFault>
    requires { AreInLimits options.now }
    ensures course { Leads (F.told floor.old) (F.told floor.new) result
        (GeneratedRead options.now actions) }
    ensures sound { IfOk result HasSoundPlans }
    ensures work { IfOk result (λ made. HasWork made.0) }
    ensures settings { IfOk result (λ made. HasSettings made.0) }
    ensures floor { Counts (F.told floor.old).faults (F.told floor.new).faults
        (IsFloorFailed (end_of result)) }
    ensures files { SameFloor (F.told floor.old) (F.told floor.new) }
{
    let list = list_generated(alloc, actions)?;
    read_by_list(alloc, floor, options, &list, true)
}

// Returns the generated list of `actions` actions, which is read from its bytes like any list.
fn list_generated(alloc: Global, actions: u32) -> Result<ActionList, RunFault>
    ensures list { ListGives (list_of most_local_berths (generated_text actions)) result }
    ensures whole { IfOk result (λ list. IsWhole list.actions) }
{
    let bytes = generated_list(alloc, actions)?;
    match read_list_with(alloc, bytes.as_slice(), MOST_LOCAL_BERTHS) {
        Ok(list) => Ok(list),
        Err(ListRefusal::Fault(fault)) => Err(RunFault::List(fault)),
        Err(ListRefusal::NoMemory) => Err(RunFault::NoMemory(Stage::Before)),
    }
}

// Reads the files that the list's actions read, and returns the task of both.
fn read_by_list<F: Floor>(
    alloc: Global,
    floor: &mut F,
    options: &Options,
    list: &ActionList,
    short: bool,
) -> Result<(Task, Plan), RunFault>
    requires options { AreInLimits options.now }
    requires list { IsWhole list.now.actions }
    ensures course { Leads (F.told floor.old) (F.told floor.new) result
        (TaskRead options.now short list.now) }
    ensures sound { IfOk result HasSoundPlans }
    ensures work { IfOk result (λ made. HasWork made.0) }
    ensures settings { IfOk result (λ made. HasSettings made.0) }
    ensures floor { Counts (F.told floor.old).faults (F.told floor.new).faults
        (IsFloorFailed (end_of result)) }
    ensures files { SameFloor (F.told floor.old) (F.told floor.new) }
{
    let work = load_work(alloc, list, floor)?;
    Ok(task_of(alloc, options, list, work, short)?)
}
