// The text of a journal.
ghost use Rattle.std.specs.Prelude.{◌≡◌, ◌≢◌, ◌≤◌, ◌∷◌, false, true, IfOk, OnOk, Some, map, string_bytes};
ghost use Rattle.serde_json.specs.Data.{depth};
ghost use Rattle.serde_json.specs.View.{view};
ghost use Rattle.serde_json.specs.Written.{compact_text, has_float};
ghost use Rattle.exec_journal.specs.Entry.{Entry};
ghost use Rattle.journal_text.specs.Fits.{Each, EntryFits};
ghost use Rattle.journal_text.specs.Lines.{IsOneLine, entries_text, entry_of, entry_text, first_text, json_in, lines_of, placed_row_text, placed_text_of, plan_of, plan_text, text_of, IsWrittenEntry, IsWrittenPlaced, IsWrittenPlan};
ghost use Rattle.journal_text.specs.Placed.{has_row};
ghost use Rattle.journal_text.specs.Writing.{entry_data};

use crate::calls::call_value;
use crate::placed::{has_row, placed_value};
use crate::plans::plan_value;
use crate::replies::reply_value;
use crate::row::Row;
use exec_journal::{Entry, Journal, Plan};
use placed_rules::Placed;
use plain_values::{NoMemory, Text};
use serde_json::Value;
use std::alloc::Global;

/// Returns the text of a journal: a line for the plan, and one for each entry. Each line, read again, is the plan or
/// the entry.
///
/// # Errors
///
/// Returns `NoMemory` if memory runs out.
pub fn journal_text(alloc: Global, plan: &Plan, journal: &Journal) -> Result<Text, NoMemory>
    ensures text { IfOk result (λ t. t ≡ text_of plan.now journal.now) }
    ensures plan { OnOk result (IsWrittenPlan plan.now) }
    ensures entries { OnOk result (Each IsWrittenEntry journal.now) }
{
    let mut text = plan_line(alloc, plan)?;
    write_entries(alloc, &mut text, journal.entries())?;
    Ok(Text::of(text))
}

/// Returns the text of a journal of a plan on its berths: a first line for these, and one for each entry. If each group has
/// berths of its own and there are no Ticks, the text is that of `journal_text`. Each line, read again, is the plan on its
/// berths or the entry.
///
/// # Errors
///
/// Returns `NoMemory` if memory runs out.
pub fn placed_text(alloc: Global, placed: &Placed, journal: &Journal) -> Result<Text, NoMemory>
    // Where there are Ticks, at least one is waited for: 0 means that there are none.
    requires { placed.now.ticks ≢ Some 0 }
    ensures text { IfOk result (λ t. t ≡ placed_text_of placed.now journal.now) }
    ensures placed { OnOk result (IsWrittenPlaced placed.now) }
    ensures entries { OnOk result (Each IsWrittenEntry journal.now) }
{
    let mut text = first_line(alloc, placed)?;
    write_entries(alloc, &mut text, journal.entries())?;
    Ok(Text::of(text))
}

fn first_line(alloc: Global, placed: &Placed) -> Result<String, NoMemory>
    requires { placed.now.ticks ≢ Some 0 }
    ensures text { IfOk result (λ s. string_bytes s ≡ first_text placed.now) }
    ensures again { OnOk result (IsWrittenPlaced placed.now) }
{
    if has_row(placed) {
        placed_line(alloc, placed)
    } else {
        plan_line(alloc, &placed.plan)
    }
}

fn placed_line(alloc: Global, placed: &Placed) -> Result<String, NoMemory>
    requires row { has_row placed.now.seating placed.now.ticks ≡ true }
    requires ticks { placed.now.ticks ≢ Some 0 }
    ensures text { IfOk result (λ s. string_bytes s ≡ placed_row_text placed.now) }
    ensures again { OnOk result (IsWrittenPlaced placed.now) }
{
    let value = placed_value(alloc, placed)?;
    line_of(alloc, &value)
}

fn plan_line(alloc: Global, plan: &Plan) -> Result<String, NoMemory>
    ensures text { IfOk result (λ s. string_bytes s ≡ plan_text plan.now) }
    ensures again { OnOk result (IsWrittenPlan plan.now) }
{
    let value = plan_value(alloc, plan)?;
    line_of(alloc, &value)
}

// Writes each entry after a line feed, and a line feed at the end.
fn write_entries(alloc: Global, text: &mut String, entries: &[Entry]) -> Result<(), NoMemory>
    ensures text { OnOk result
        (string_bytes text.new ≡ entries_text (string_bytes text.old) entries.now) }
    ensures again { OnOk result (Each IsWrittenEntry entries.now) }
{
    text.push_str("\n")?;
    for entry in entries {
        let line = entry_line(alloc, entry)?;
        text.push_str(line.as_str())?;
        text.push_str("\n")?;
    }
    Ok(())
}

fn entry_line(alloc: Global, entry: &Entry) -> Result<String, NoMemory>
    ensures text { IfOk result (λ s. string_bytes s ≡ entry_text entry.now) }
    ensures again { OnOk result (IsWrittenEntry entry.now) }
{
    let value = entry_value(alloc, entry)?;
    line_of(alloc, &value)
}

fn entry_value(alloc: Global, entry: &Entry) -> Result<Value, NoMemory>
    ensures written { IfOk result (λ v. view v ≡ entry_data entry.now) }
    ensures fits { OnOk result (EntryFits entry.now) }
{
    let mut row = Row::new(alloc);
    row.count(entry.lane)?;
    row.value(call_value(alloc, &entry.call)?)?;
    row.value(reply_value(alloc, &entry.reply)?)?;
    Ok(row.into_value())
}

// Returns a value's text.
fn line_of(alloc: Global, value: &Value) -> Result<String, NoMemory>
    requires plain { has_float (view value.now) ≡ false }
    requires shallow { depth (view value.now) ≤ 127 }
    ensures text { IfOk result (λ s. string_bytes s ≡ compact_text (view value.now)) }
    ensures again { OnOk result (json_in (compact_text (view value.now)) ≡ Some (view value.now)) }
{
    Ok(value.to_string(alloc)?)
}
