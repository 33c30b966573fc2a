ghost use Rattle.std.specs.Prelude.{◌≡◌, IfOk};
ghost use Rattle.remote_branch.specs.Jobs.{job_for, cancel_for};

use plain_values::{Items, NoMemory, Text, texts_again, variables_again};
use remote_messages::{Job, NamedFile, WorkAction};
use std::alloc::Global;

/// Returns the job of an action, for a request with this number. It has the action's own arguments,
/// as they were written, its outputs, its environment, and these inputs. The inputs' contents are
/// shared.
///
/// # Errors
///
/// Returns `NoMemory` if memory runs out.
pub fn job_of(
    alloc: Global,
    number: i32,
    action: &WorkAction,
    inputs: &[NamedFile],
) -> Result<Job, NoMemory>
    ensures { IfOk result (λ job. job ≡ job_for number action.now inputs.now) }
{
    Ok(Job {
        id: number,
        arguments: texts_again(alloc, action.arguments.as_slice())?,
        inputs: files_again(alloc, inputs)?,
        outputs: texts_again(alloc, action.outputs.as_slice())?,
        env: variables_again(alloc, action.env.as_slice())?,
        cancel: false,
    })
}

/// Returns the job that cancels the one with this number. The function takes no memory.
pub fn cancel_of(alloc: Global, number: i32) -> Job
    ensures { result ≡ cancel_for number }
{
    Job {
        id: number,
        arguments: Items::of(Vec::new(alloc)),
        inputs: Items::of(Vec::new(alloc)),
        outputs: Items::of(Vec::new(alloc)),
        env: Items::of(Vec::new(alloc)),
        cancel: true,
    }
}

fn files_again(alloc: Global, files: &[NamedFile]) -> Result<Items<NamedFile>, NoMemory>
    ensures { IfOk result (λ l. l ≡ files.now) }
{
    let mut copies = Vec::new(alloc);
    for file in files {
        copies.push(NamedFile {
            path: Text::copy_of(alloc, file.path.as_str())?,
            content: file.content.again()?,
        })?;
    }
    Ok(Items::of(copies))
}
