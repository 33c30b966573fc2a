// The files that actions were granted, and the files of matched answers for the outputs of their
// actions. Contents are shared, and never copied.
ghost use Rattle.std.specs.Prelude.{◌≡◌, IfOk, slice_get};
ghost use Rattle.core_tables.specs.Slots.{AreNew, FoundFiles, Follows, Granted, IsNewFiles, Matched, Told, outputs_at, rows_of, slot_at};

use crate::file_rows::{Row, fill_answered, fill_made, new_rows, reply_of};
use exec_journal::{Answer, Branch, Call, Found, Plan, Reply};
use plain_values::{Blob, Items, NoMemory, Text};
use std::alloc::Global;
use std::marker::Model;

/// The record of one output.
#[derive(Drop)]
pub enum Slot {
    Absent,
    Here(Blob),
    /// There was a content, but it couldn't be shared once more.
    Short,
}

/// The files by action, each in the order of its outputs. For each action, the table has the files
/// that it was granted, and those in the newest matched answer of each of its branches.
#[derive(Drop)]
pub struct Files {
    made: Vec<Row>,
    local: Vec<Row>,
    remote: Vec<Row>,
}

impl Model for Files {
    ghost use Rattle.core_tables.specs.Slots.{Facts};

    ghost Value = { Facts };

    ghost view = { λ a. record {
      made = a.made.items;
      local = a.local.items;
      remote = a.remote.items;
    } };
}

impl Files {
    /// Creates the table of a run before any call, with room for each output. No other call takes
    /// memory.
    ///
    /// # Errors
    ///
    /// Returns `NoMemory` if memory runs out.
    pub fn new(alloc: Global, plan: &Plan) -> Result<Files, NoMemory>
        ensures { IfOk result (λ t. IsNewFiles plan.now.actions t) }
    {
        let works = plan.actions.as_slice();
        Ok(Files {
            made: new_rows(alloc, works)?,
            local: new_rows(alloc, works)?,
            remote: new_rows(alloc, works)?,
        })
    }

    /// Records the files of an entry: those of a granted Claim, or those of a matched Answer.
    pub fn keep(&mut self, plan: &Plan, call: &Call, reply: &Reply)
        ensures { Follows plan.now call.now reply.now self.old self.new }
    {
        match call {
            Call::Claim { action, found, .. } => {
                if let Reply::Granted = reply {
                    self.keep_found(*action, found);
                }
            }
            Call::Answer { answer, .. } => {
                if let Reply::Matched { action, branch, .. } = reply {
                    self.keep_answer(plan, *action, *branch, answer);
                }
            }
            _ => {}
        }
    }

    fn keep_found(&mut self, action: u32, found: &Found)
        ensures { FoundFiles action found.now self.old self.new }
    {
        if let Found::Files(files) = found {
            self.keep_made(action, files);
        }
    }

    fn keep_made(&mut self, action: u32, files: &Items<Blob>)
        ensures { Granted action files.now self.old self.new }
    {
        fill_made(self.made.as_mut_slice(), action, files.as_slice());
    }

    fn keep_answer(&mut self, plan: &Plan, action: u32, branch: Branch, answer: &Answer)
        ensures { Matched plan.now action branch answer.now self.old self.new }
    {
        let outputs = outputs_of(plan, action);
        let files = answer.files.as_slice();
        match branch {
            Branch::Local => fill_answered(self.local.as_mut_slice(), action, outputs, files),
            Branch::Remote => fill_answered(self.remote.as_mut_slice(), action, outputs, files),
        }
    }

    /// Returns the reply to a Look of an output that the action made.
    pub fn made(&self, action: u32, output: u32) -> Reply
        ensures { Told (slot_at self.now.made action output) result }
    {
        reply_of(self.made.as_slice(), action, output)
    }

    /// Returns the reply to a Look of this output in the newest matched answer of the branch.
    pub fn answered(&self, action: u32, branch: Branch, output: u32) -> Reply
        ensures { Told (slot_at (rows_of branch self.now) action output) result }
    {
        match branch {
            Branch::Local => reply_of(self.local.as_slice(), action, output),
            Branch::Remote => reply_of(self.remote.as_slice(), action, output),
        }
    }
}

fn outputs_of(plan: &Plan, action: u32) -> &[Text]
    ensures { result.now ≡ outputs_at plan.now action }
{
    match plan.actions.as_slice().get(action as usize) {
        Some(work) => work.outputs.as_slice(),
        None => &[],
    }
}
