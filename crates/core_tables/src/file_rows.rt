// The slots of each action's outputs.
ghost use Rattle.std.specs.Prelude.{IfOk, None, Option, Some, List, length, slice_get, ℕ};
ghost use Rattle.exec_journal.specs.Rules.{last_file};
ghost use Rattle.core_tables.specs.Slots.{AreNew, Filled, RowFilled, Tells, Told, file_for, newer, slot_at, slot_in};

use crate::files::Slot;
use exec_journal::{NamedFile, PlanAction, Reply};
use plain_values::{Blob, NoMemory, Text};
use std::alloc::Global;
use std::marker::Model;

/// The row of an action: a slot for each of its outputs.
#[derive(Drop)]
pub struct Row {
    slots: Vec<Slot>,
}

impl Model for Row {
    ghost use Rattle.std.specs.Prelude.{List};
    ghost use Rattle.core_tables.specs.declared.files.Slot.{Slot};

    ghost Value = { List Slot };

    ghost view = { λ r. r.slots.items };
}

/// Creates a row of empty slots for each action.
pub fn new_rows(alloc: Global, works: &[PlanAction]) -> Result<Vec<Row>, NoMemory>
    ensures { IfOk result (λ rows. AreNew works.now rows.items) }
{
    let mut rows = Vec::with_capacity(alloc, works.len())?;
    for work in works {
        rows.push(Row::new(alloc, work.outputs.as_slice().len())?)?;
    }
    Ok(rows)
}

/// Fills the row of the action with the files that it was granted.
pub fn fill_made(rows: &mut [Row], action: u32, files: &[Blob])
    ensures { RowFilled action (λ o. slice_get files.now o) rows.old rows.new }
{
    let place = action as usize;
    if place < rows.len() {
        rows[place].fill_made(files);
    }
}

/// Fills the row of the action with these outputs from an answer that was matched for it and has
/// these files.
pub fn fill_answered(rows: &mut [Row], action: u32, outputs: &[Text], files: &[NamedFile])
    ensures { RowFilled action (file_for files.now outputs.now) rows.old rows.new }
{
    let place = action as usize;
    if place < rows.len() {
        rows[place].fill_answered(outputs, files);
    }
}

/// Returns the reply to a Look of this output.
pub fn reply_of(rows: &[Row], action: u32, output: u32) -> Reply
    ensures { Told (slot_at rows.now action output) result }
{
    match rows.get(action as usize) {
        Some(row) => row.reply(output),
        None => Reply::NoFile,
    }
}

impl Row {
    fn new(alloc: Global, outputs: usize) -> Result<Row, NoMemory>
        ensures { IfOk result (λ r. Filled r outputs (λ o. None)) }
    {
        let mut slots = Vec::with_capacity(alloc, outputs)?;
        for _ in 0..outputs {
            slots.push(Slot::Absent)?;
        }
        Ok(Row { slots })
    }

    fn fill_made(&mut self, files: &[Blob])
        ensures { Filled self.new (length self.old) (λ o. slice_get files.now o) }
    {
        share_each(self.slots.as_mut_slice(), files);
    }

    fn fill_answered(&mut self, outputs: &[Text], files: &[NamedFile])
        ensures { Filled self.new (length self.old) (file_for files.now outputs.now) }
    {
        find_each(self.slots.as_mut_slice(), outputs, files);
    }

    fn reply(&self, output: u32) -> Reply
        ensures { Told (slice_get self.now output) result }
    {
        match self.slots.get(output as usize) {
            Some(slot) => slot.reply(),
            None => Reply::NoFile,
        }
    }
}

fn share_each(slots: &mut [Slot], files: &[Blob])
    ensures { Filled slots.new (length slots.old) (λ o. slice_get files.now o) }
{
    for output in 0..slots.len() {
        slots[output] = share_at(files, output);
    }
}

fn find_each(slots: &mut [Slot], outputs: &[Text], files: &[NamedFile])
    ensures { Filled slots.new (length slots.old) (file_for files.now outputs.now) }
{
    for output in 0..slots.len() {
        slots[output] = find_at(outputs, files, output);
    }
}

fn share_at(files: &[Blob], output: usize) -> Slot
    ensures { Tells result (slice_get files.now output) }
{
    match files.get(output) {
        Some(content) => Slot::of(content),
        None => Slot::Absent,
    }
}

fn find_at(outputs: &[Text], files: &[NamedFile], output: usize) -> Slot
    ensures { Tells result (file_for files.now outputs.now output) }
{
    match outputs.get(output) {
        Some(path) => last_with(files, path),
        None => Slot::Absent,
    }
}

// Returns the last of the files with this path.
fn last_with(files: &[NamedFile], path: &Text) -> Slot
    ensures { Tells result (last_file files.now path.now) }
{
    let mut slot = Slot::Absent;
    for file in files {
        slot = slot.or_of(file, path);
    }
    slot
}

impl Slot {
    fn of(content: &Blob) -> Slot
        ensures { Tells result (Some content.now) }
    {
        match content.again() {
            Ok(shared) => Slot::Here(shared),
            Err(_) => Slot::Short,
        }
    }

    // Returns the content of this file instead, if it has the path.
    fn or_of(self, file: &NamedFile, path: &Text) -> Slot
        ensures { (o : Option (List ℕ)) → Tells self o → Tells result (newer file.now path.now o) }
    {
        if file.path.as_str() == path.as_str() {
            Slot::of(&file.content)
        } else {
            self
        }
    }

    fn reply(&self) -> Reply
        ensures { Told (Some self.now) result }
    {
        match self {
            Slot::Absent => Reply::NoFile,
            Slot::Here(content) => match content.again() {
                Ok(shared) => Reply::File(shared),
                Err(_) => Reply::NoMemory,
            },
            Slot::Short => Reply::NoMemory,
        }
    }
}
