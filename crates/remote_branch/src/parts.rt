ghost use Rattle.std.specs.Prelude.{◌≡◌, List, [], ◌∷◌, not, filter, map, IfOk, OnOk, OnErr, true, false};
ghost use Rattle.remote_messages.specs.declared.job_result.JobResult.{JobResult};
ghost use Rattle.remote_branch.specs.Answers.{files_for};
ghost use Rattle.remote_branch.specs.Parts.{StandsFor, answer_at, answer_by, waiting_after, waiting_for, files_of, is_of};

use crate::answers::{answer_with, push_files};
use exec_journal::{Answer, NamedFile};
use plain_values::{NoMemory, Text};
use remote_messages::JobResult;
use std::alloc::Global;
use std::marker::Model;

/// A file that came with a result of this job that wasn't the job's last.
#[derive(Drop)]
pub struct Waiting {
    pub id: i32,
    pub file: NamedFile,
}

/// The parts that have come so far, of the jobs of one line that aren't answered yet. A contract
/// sees the waiting files, in the order of their arrival.
#[derive(Drop)]
pub struct Parts {
    waiting: Vec<Waiting>,
}

impl Model for Parts {
    ghost use Rattle.std.specs.Prelude.{List};
    ghost use Rattle.remote_branch.specs.declared.parts.Waiting.{Waiting};

    ghost Value = { List Waiting };

    ghost view = { λ p. p.waiting.items };
}

impl Parts {
    /// Creates the value for a line from which nothing has come.
    pub fn new(alloc: Global) -> Parts
        ensures { StandsFor result [] }
    {
        Parts {
            waiting: Vec::new(alloc),
        }
    }

    /// Takes the next result of the line. If the result is its job's last, returns the job's answer
    /// with all files of its parts. Otherwise returns `None`.
    ///
    /// # Errors
    ///
    /// Returns `NoMemory` if memory runs out. Then `self` is unchanged.
    pub fn add(&mut self, alloc: Global, part: JobResult) -> Result<Option<Answer>, NoMemory>
        ensures answer { (rs : List JobResult) → StandsFor self.old rs
            → IfOk result (λ answer. answer ≡ answer_at part rs) }
        ensures stands { (rs : List JobResult) → StandsFor self.old rs
            → OnOk result (StandsFor self.new (part ∷ rs)) }
        ensures err { OnErr result (self.new ≡ self.old) }
    {
        if part.more {
            self.keep(alloc, &part)?;
            Ok(None)
        } else {
            let answer = self.close(alloc, part)?;
            Ok(Some(answer))
        }
    }

    fn keep(&mut self, alloc: Global, part: &JobResult) -> Result<(), NoMemory>
        ensures kept { OnOk result
            (self.new ≡ waiting_after self.old (record part.now { more = true })) }
        ensures err { OnErr result (self.new ≡ self.old) }
    {
        let mut fresh = waiting_for(alloc, part)?;
        self.waiting.append(&mut fresh)?;
        Ok(())
    }

    fn close(&mut self, alloc: Global, part: JobResult) -> Result<Answer, NoMemory>
        ensures answer { IfOk result
            (λ answer. Some answer ≡ answer_by self.old (record part { more = false })) }
        ensures kept { OnOk result
            (self.new ≡ waiting_after self.old (record part { more = false })) }
        ensures err { OnErr result (self.new ≡ self.old) }
    {
        let id = part.id;
        let waited = files_of(alloc, self.waiting.as_slice(), id)?;
        let files = push_files(alloc, waited, part.files.as_slice())?;
        drop_of(&mut self.waiting, id);
        Ok(answer_with(part, files))
    }
}

fn waiting_for(alloc: Global, part: &JobResult) -> Result<Vec<Waiting>, NoMemory>
    ensures { IfOk result (λ v. v.items ≡ waiting_for part.now.id (files_for part.now.files)) }
{
    let mut waiting = Vec::new(alloc);
    for file in part.files.as_slice() {
        let file = NamedFile {
            path: Text::copy_of(alloc, file.path.as_str())?,
            content: file.content.again()?,
        };
        waiting.push(Waiting { id: part.id, file })?;
    }
    Ok(waiting)
}

fn files_of(alloc: Global, waiting: &[Waiting], id: i32) -> Result<Vec<NamedFile>, NoMemory>
    ensures { IfOk result (λ v. v.items ≡ files_of id waiting.now) }
{
    let mut files = Vec::new(alloc);
    for one in waiting {
        if one.id == id {
            files.push(NamedFile {
                path: Text::copy_of(alloc, one.file.path.as_str())?,
                content: one.file.content.again()?,
            })?;
        }
    }
    Ok(files)
}

// Drops the files of this job.
fn drop_of(waiting: &mut Vec<Waiting>, id: i32)
    ensures { waiting.new.items ≡ filter (λ w. not (is_of id w)) waiting.old.items }
{
    waiting.retain(|w| w.id != id);
}
