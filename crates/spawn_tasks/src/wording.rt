// The request arguments that the chosen strategies need in the work of the list.
ghost use Rattle.std.specs.Prelude.{◌≡◌, ◌≤◌, length};
ghost use Rattle.run_loading.specs.Works.{Gives, Works};
ghost use Rattle.run_plan.specs.Limits.{most_actions};
ghost use Rattle.spawn_tasks.specs.Wording.{Rewords, RewordsOne, all_worded, lacks_words, own_words, uses_worker, worded};

use action_list::{ListAction, has_local};
use flag_files::{FlagFault, expand, request_words};
use plain_values::{Items, Text};
use remote_messages::{Work, WorkAction, WorkInput};
use run_loading::{RunFault, Stage, source_files};
use spawn_strategies::Name;
use std::alloc::Global;

/// Returns the work of the list's actions with additional request arguments. They are added for the
/// actions that their chosen names bring to a worker and their own strategies don't.
///
/// # Errors
///
/// Returns `Flags` of the first action whose request arguments can't be expanded. Returns `NoMemory`
/// with `Before` if memory runs out.
pub fn reworded(
    alloc: Global,
    actions: &[ListAction],
    names: &[Name],
    work: Work,
) -> Result<Work, RunFault>
    requires few { length actions.now ≤ most_actions }
    requires named { length names.now ≡ length actions.now }
    requires worked { length work.actions ≡ length actions.now }
    ensures { Works (all_worded names.now actions.now work.actions) result }
{
    let mut works = work.actions.into_vec();
    reword_all(alloc, actions, names, works.as_mut_slice())?;
    Ok(Work {
        actions: Items::of(works),
    })
}

fn reword_all(
    alloc: Global,
    actions: &[ListAction],
    names: &[Name],
    works: &mut [WorkAction],
) -> Result<(), RunFault>
    requires few { length actions.now ≤ most_actions }
    requires named { length names.now ≡ length actions.now }
    requires worked { length works.old ≡ length actions.now }
    ensures { Rewords (all_worded names.now actions.now works.old) works.new result }
{
    for (number, work) in works.iter_mut().enumerate() {
        reword(alloc, number as u32, &actions[number], names[number], work)?;
    }
    Ok(())
}

// Adds the request arguments to the work of the action with this number, if they are missing.
fn reword(
    alloc: Global,
    number: u32,
    action: &ListAction,
    name: Name,
    work: &mut WorkAction,
) -> Result<(), RunFault>
    ensures { RewordsOne number (worded name action.now work.old) work.new result }
{
    if lacks_words(name, action) {
        work.request_words = own_words(alloc, number, action, work.inputs.as_slice())?;
    }
    Ok(())
}

fn lacks_words(name: Name, action: &ListAction) -> bool
    ensures { result ≡ lacks_words name action.now }
{
    uses_worker(name) && !has_local(action.strategy)
}

fn uses_worker(name: Name) -> bool
    ensures { result ≡ uses_worker name }
{
    match name {
        Name::Worker | Name::Dynamic => true,
        Name::Sandboxed | Name::Remote => false,
    }
}

// Returns the request arguments of the action with this number, which has these inputs.
fn own_words(
    alloc: Global,
    number: u32,
    action: &ListAction,
    inputs: &[WorkInput],
) -> Result<Items<Text>, RunFault>
    ensures { Gives number (own_words action.now inputs.now) result }
{
    let words = request_words(alloc, action.argv.as_slice())?;
    let files = source_files(alloc, inputs)?;
    match expand(alloc, words.as_slice(), files.as_slice()) {
        Ok(words) => Ok(Items::of(words)),
        Err(FlagFault::NoMemory) => Err(RunFault::NoMemory(Stage::Before)),
        Err(fault) => Err(RunFault::Flags {
            action: number,
            fault,
        }),
    }
}
