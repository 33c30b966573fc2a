ghost use Rattle.std.specs.Prelude.{◌≡◌, ◌++◌, IfOk};
ghost use Rattle.remote_branch.specs.Answers.{answer_with, answer_for, files_for};

use exec_journal::Answer;
use plain_values::{Items, NoMemory, Text};
use remote_messages::JobResult;
use std::alloc::Global;

/// Returns the answer of a result that comes in one part.
///
/// # Errors
///
/// Returns `NoMemory` if memory runs out.
pub fn answer_of(alloc: Global, part: JobResult) -> Result<Answer, NoMemory>
    ensures { IfOk result (λ answer. answer ≡ answer_for part) }
{
    let files = push_files(alloc, Vec::new(alloc), part.files.as_slice())?;
    Ok(answer_with(part, files))
}

// Returns the result's answer with these files. The function takes no memory.
pub(crate) fn answer_with(part: JobResult, files: Vec<exec_journal::NamedFile>) -> Answer
    ensures { result ≡ answer_with part files.items }
{
    Answer {
        number: part.id,
        exit: part.exit_code,
        cancelled: part.cancelled,
        text: part.text,
        refusal: part.refusal,
        files: Items::of(files),
        version: part.version,
    }
}

// Appends files to those that are there. Their contents are shared.
pub(crate) fn push_files(
    alloc: Global,
    before: Vec<exec_journal::NamedFile>,
    files: &[remote_messages::NamedFile],
) -> Result<Vec<exec_journal::NamedFile>, NoMemory>
    ensures { IfOk result (λ v. v.items ≡ before.items ++ files_for files.now) }
{
    let mut all = before;
    for file in files {
        all.push(exec_journal::NamedFile {
            path: Text::copy_of(alloc, file.path.as_str())?,
            content: file.content.again()?,
        })?;
    }
    Ok(all)
}
