//! The speech of each berth and the command of each group, taken from the groups' parts.
ghost use Rattle.std.specs.Prelude.{◌≡◌, ◌++◌, IfOk, OnOk, length};
ghost use Rattle.run_tasks.specs.Setup.{commands_for, group_speeches, speeches_for};

use action_list::GroupPart;
use plain_values::{Command, NoMemory};
use run_plan::{Group, Plan, Speech};
use std::alloc::Global;

/// Returns the speech of each berth, in the order of the berths. It is the speech of its group's part.
///
/// # Errors
///
/// Returns `NoMemory` if memory runs out.
pub fn speeches_of(alloc: Global, plan: &Plan, parts: &[GroupPart]) -> Result<Vec<Speech>, NoMemory>
    requires { length parts.now ≡ length plan.now.groups }
    ensures { IfOk result (λ v. v.items ≡ speeches_for plan.now parts.now) }
{
    let mut speeches = Vec::new(alloc);
    for (group, part) in plan.groups.as_slice().iter().zip(parts) {
        add_speeches(&mut speeches, group, part)?;
    }
    Ok(speeches)
}

// Adds a speech for each berth of the group.
fn add_speeches(speeches: &mut Vec<Speech>, group: &Group, part: &GroupPart) -> Result<(), NoMemory>
    ensures { OnOk result
        (speeches.new.items ≡ speeches.old.items ++ group_speeches (group.now, part.now)) }
{
    for _berth in 0..group.berths {
        speeches.push(part.speech)?;
    }
    Ok(())
}

/// Returns the command that starts the lines of each group, in the order of the groups. It is the
/// command of the group's part.
///
/// # Errors
///
/// Returns `NoMemory` if memory runs out.
pub fn commands_of(alloc: Global, parts: &[GroupPart]) -> Result<Vec<Command>, NoMemory>
    ensures { IfOk result (λ v. v.items ≡ commands_for parts.now) }
{
    let mut commands = Vec::new(alloc);
    for part in parts {
        commands.push(part.command.again(alloc)?)?;
    }
    Ok(commands)
}
