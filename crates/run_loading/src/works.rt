// The work of each action, computed from the list and the files that were found.
ghost use Rattle.std.specs.Prelude.{◌≡◌, ◌≤◌, ◌++◌, ◌∷◌, [], IfOk, OnOk, None, length, map};
ghost use Rattle.std.specs.Option.{IsSome};
ghost use Rattle.list_actions.specs.Producers.{producer_of};
ghost use Rattle.outside.specs.Floor.{file_at};
ghost use Rattle.run_loading.specs.Sources.{HasAll, held};
ghost use Rattle.run_loading.specs.Wanted.{paths_of_action, paths_of_actions};
ghost use Rattle.run_loading.specs.Works.{Gives, Works, bytes_at, due_words, due_work, origin_of, source_files, work_by, work_input, work_inputs};
ghost use Rattle.run_plan.specs.Limits.{most_actions};

use crate::sources::Sources;
use crate::{RunFault, Stage};
use action_list::{ListAction, Producers, has_local};
use flag_files::{FlagFault, expand, request_words};
use outside::{SourceFile, variables_again};
use plain_values::{Items, NoMemory, Text, texts_again};
use remote_messages::{Origin, Work, WorkAction, WorkInput};
use std::alloc::Global;

/// Returns the work of the actions, which have these sources.
pub fn work_of(
    alloc: Global,
    actions: &[ListAction],
    producers: &Producers,
    sources: &Sources,
) -> Result<Work, RunFault>
    requires few { length actions.now ≤ most_actions }
    requires files { HasAll (held sources.now)
        (paths_of_actions (producer_of producers.now) actions.now) }
    ensures { Works (map (due_work (producer_of producers.now) (held sources.now)) actions.now)
        result }
{
    let mut works = Vec::new(alloc);
    let mut number = 0;
    for action in actions {
        let inputs = inputs_of(alloc, action, producers, sources)?;
        push_work(&mut works, work_with(alloc, number, action, inputs)?)?;
        number += 1;
    }
    Ok(Work {
        actions: Items::of(works),
    })
}

fn push_work(works: &mut Vec<WorkAction>, work: WorkAction) -> Result<(), NoMemory>
    ensures { OnOk result (works.new.items ≡ works.old.items ++ work ∷ []) }
{
    works.push(work)?;
    Ok(())
}

// Returns the work of the action with this number, which has these inputs.
fn work_with(
    alloc: Global,
    number: u32,
    action: &ListAction,
    inputs: Items<WorkInput>,
) -> Result<WorkAction, RunFault>
    ensures { Gives number (work_by action.now inputs) result }
{
    let request_words = words_of(alloc, number, action, inputs.as_slice())?;
    Ok(WorkAction {
        request_words,
        arguments: texts_again(alloc, action.argv.as_slice())?,
        env: variables_again(alloc, action.env.as_slice())?,
        outputs: texts_again(alloc, action.outputs.as_slice())?,
        inputs,
    })
}

// Returns the request arguments of the action with this number, or none if it has no local branch.
fn words_of(
    alloc: Global,
    number: u32,
    action: &ListAction,
    inputs: &[WorkInput],
) -> Result<Items<Text>, RunFault>
    ensures { Gives number (due_words action.now inputs.now) result }
{
    if !has_local(action.strategy) {
        return Ok(Items::of(Vec::new(alloc)));
    }
    let words = request_words(alloc, action.argv.as_slice())?;
    let files = source_files(alloc, inputs)?;
    match expand(alloc, words.as_slice(), files.as_slice()) {
        Ok(words) => Ok(Items::of(words)),
        Err(FlagFault::NoMemory) => Err(RunFault::NoMemory(Stage::Before)),
        Err(fault) => Err(RunFault::Flags {
            action: number,
            fault,
        }),
    }
}

/// Returns the source files among an action's inputs. They share the bytes.
///
/// # Errors
///
/// Returns `NoMemory` if memory runs out.
pub fn source_files(alloc: Global, inputs: &[WorkInput]) -> Result<Items<SourceFile>, NoMemory>
    ensures { IfOk result (λ files. files ≡ source_files inputs.now) }
{
    let mut files = Vec::new(alloc);
    for input in inputs {
        push_source(alloc, &mut files, input)?;
    }
    Ok(Items::of(files))
}

fn push_source(
    alloc: Global,
    files: &mut Vec<SourceFile>,
    input: &WorkInput,
) -> Result<(), NoMemory>
    ensures { OnOk result (files.new.items ≡ files.old.items ++ source_files (input.now ∷ [])) }
{
    if let Origin::Source(source) = &input.origin {
        files.push(SourceFile {
            path: Text::copy_of(alloc, input.path.as_str())?,
            bytes: source.again()?,
        })?;
    }
    Ok(())
}

fn inputs_of(
    alloc: Global,
    action: &ListAction,
    producers: &Producers,
    sources: &Sources,
) -> Result<Items<WorkInput>, NoMemory>
    requires { HasAll (held sources.now) (paths_of_action (producer_of producers.now) action.now) }
    ensures { IfOk result (λ inputs. inputs ≡
        work_inputs (producer_of producers.now) (held sources.now) action.now) }
{
    let mut inputs = Vec::new(alloc);
    for path in action.inputs.as_slice() {
        inputs.push(WorkInput {
            path: Text::copy_of(alloc, path.as_str())?,
            origin: origin_of(path.as_str(), producers, sources)?,
        })?;
    }
    Ok(Items::of(inputs))
}

// Returns the origin of this input's bytes: the action that makes them, or the source file.
fn origin_of(path: &str, producers: &Producers, sources: &Sources) -> Result<Origin, NoMemory>
    requires { producer_of producers.now path.now ≡ None
        → IsSome (file_at (held sources.now) path.now) }
    ensures { IfOk result (λ origin. origin ≡
        origin_of (producer_of producers.now path.now) (bytes_at (held sources.now) path.now)) }
{
    match producers.get(path) {
        Some(maker) => Ok(Origin::Made {
            action: maker.action,
            output: maker.output,
        }),
        None => Ok(Origin::Source(sources.bytes_at(path).again()?)),
    }
}
