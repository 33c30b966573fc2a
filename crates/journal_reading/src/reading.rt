// The plan or the entry that a line spells.
ghost use Rattle.std.specs.Prelude.{◌≡◌, true, false, MatchOption};
ghost use Rattle.std.specs.Str.{is_utf8};
ghost use Rattle.journal_reading.specs.Pulls.{IsOver, Pulls, text_as};
ghost use Rattle.journal_reading.specs.Readings.{Reads};
ghost use Rattle.journal_text.specs.Reading.{entry_in, plan_in};
ghost use Rattle.journal_text.specs.Lines.{entry_of, placed_of, placed_row_of, plan_of};
ghost use Rattle.journal_text.specs.Placed.{placed_in};

use crate::calls::next_call;
use crate::misread::Misread;
use crate::placed::next_placed;
use crate::plans::next_plan;
use crate::replies::next_reply;
use crate::values::{end, next_count, open};
use exec_journal::{Entry, Plan};
use json::{Reader, Scratch};
use placed_rules::{Placed, Seating};
use std::alloc::Global;

/// Returns the plan that a line spells, without its line feed. No tree of its values is made: besides the plan, this takes
/// as much memory as the line has bytes.
///
/// # Errors
///
/// Returns `Otherwise` if it spells none, or `NoMemory` if memory runs out.
pub fn read_plan(alloc: Global, line: &[u8]) -> Result<Plan, Misread>
    ensures { Reads result (plan_of line.now) }
{
    match as_text(line) {
        Some(text) => plan_by(alloc, text),
        None => Err(Misread::Otherwise),
    }
}

/// Returns the plan on its berths that a first line spells, without its line feed: by the plan's row alone, on own berths
/// and without Ticks, or by a row that names its seating and its Ticks. No tree of its values is made: besides the plan, this
/// takes as much memory as the line has bytes.
///
/// # Errors
///
/// Returns `Otherwise` if it spells none, or `NoMemory` if memory runs out.
pub fn read_placed(alloc: Global, line: &[u8]) -> Result<Placed, Misread>
    ensures { Reads result (placed_of line.now) }
{
    match read_plan(alloc, line) {
        Ok(plan) => Ok(Placed {
            plan,
            seating: Seating::Own,
            ticks: None,
        }),
        Err(Misread::Otherwise) => read_row(alloc, line),
        Err(Misread::NoMemory) => Err(Misread::NoMemory),
    }
}

// Returns the plan on its berths that a row of its own spells.
fn read_row(alloc: Global, line: &[u8]) -> Result<Placed, Misread>
    ensures { Reads result (placed_row_of line.now) }
{
    match as_text(line) {
        Some(text) => placed_by(alloc, text),
        None => Err(Misread::Otherwise),
    }
}

/// Returns the entry that a line spells, without its line feed. No tree of its values is made: besides the entry, this takes
/// as much memory as the line has bytes.
///
/// # Errors
///
/// Returns `Otherwise` if it spells none, or `NoMemory` if memory runs out.
pub fn read_entry(alloc: Global, line: &[u8]) -> Result<Entry, Misread>
    ensures { Reads result (entry_of line.now) }
{
    match as_text(line) {
        Some(text) => entry_by(alloc, text),
        None => Err(Misread::Otherwise),
    }
}

fn as_text(bytes: &[u8]) -> Option<&str>
    ensures { MatchOption result
        (is_utf8 bytes.now ≡ false)
        (λ t. (is_utf8 bytes.now ≡ true) × (t.now ≡ bytes.now)) }
{
    match str::from_utf8(bytes) {
        Ok(text) => Some(text),
        Err(_) => None,
    }
}

fn plan_by(alloc: Global, text: &str) -> Result<Plan, Misread>
    ensures { Reads result (text_as plan_in text.now) }
{
    let mut scratch = Scratch::new(alloc);
    let mut reader = Reader::new(text, &mut scratch)?;
    let plan = next_plan(alloc, &mut reader)?;
    no_more(&mut reader)?;
    Ok(plan)
}

fn placed_by(alloc: Global, text: &str) -> Result<Placed, Misread>
    ensures { Reads result (text_as placed_in text.now) }
{
    let mut scratch = Scratch::new(alloc);
    let mut reader = Reader::new(text, &mut scratch)?;
    let placed = next_placed(alloc, &mut reader)?;
    no_more(&mut reader)?;
    Ok(placed)
}

fn entry_by(alloc: Global, text: &str) -> Result<Entry, Misread>
    ensures { Reads result (text_as entry_in text.now) }
{
    let mut scratch = Scratch::new(alloc);
    let mut reader = Reader::new(text, &mut scratch)?;
    let entry = next_entry(alloc, &mut reader)?;
    no_more(&mut reader)?;
    Ok(entry)
}

fn next_entry(alloc: Global, reader: &mut Reader<'_>) -> Result<Entry, Misread>
    ensures { Pulls 5 entry_in result reader.old reader.new }
{
    open(reader)?;
    let lane = next_count(reader)?;
    let call = next_call(alloc, reader)?;
    let reply = next_reply(alloc, reader)?;
    end(reader)?;
    Ok(Entry { lane, call, reply })
}

// Checks that the text has no more tokens.
fn no_more(reader: &mut Reader<'_>) -> Result<(), Misread>
    ensures { IsOver result reader.old }
{
    match reader.next() {
        None => Ok(()),
        Some(_) => Err(Misread::Otherwise),
    }
}
