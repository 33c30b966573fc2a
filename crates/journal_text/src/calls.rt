// Calls, written as JSON values.
ghost use Rattle.std.specs.Prelude.{◌≡◌, IfOk, OnOk, map};
ghost use Rattle.base64.specs.GeneralPurpose.{IsBytes};
ghost use Rattle.exec_journal.specs.declared.call.Call.TheVariants as call;
ghost use Rattle.exec_journal.specs.declared.call.CommitEnd.TheVariants as commit;
ghost use Rattle.exec_journal.specs.declared.call.Found.TheVariants as found;
ghost use Rattle.exec_journal.specs.declared.call.Wanted.TheVariants as look;
ghost use Rattle.serde_json.specs.View.{view};
ghost use Rattle.journal_text.specs.Fits.{AnswerFits, CallFits, CommitEndFits, Each, FileFits, FoundFits, WantedFits};
ghost use Rattle.journal_text.specs.Values.{content_data, row_data};
ghost use Rattle.journal_text.specs.Writing.{answer_data, call_data, commit_end_data, file_data, found_data, wanted_data};

use crate::row::{Row, word_value};
use crate::words::{branch_value, how_ended_value, started_value, written_value};
use exec_journal::{
    Answer, Branch, Call, CommitEnd, Found, HowEnded, NamedFile, Started, Wanted, Written,
};
use plain_values::{Blob, NoMemory};
use serde_json::Value;
use std::alloc::Global;

pub(crate) fn call_value(alloc: Global, call: &Call) -> Result<Value, NoMemory>
    ensures written { IfOk result (λ v. view v ≡ call_data call.now) }
    ensures fits { OnOk result (CallFits call.now) }
{
    match call {
        Call::Ask => word_value(alloc, "Ask"),
        Call::Launched { line, how } => launched_value(alloc, *line, *how),
        Call::Wrote { line, number, how } => wrote_value(alloc, *line, *number, *how),
        Call::Look(wanted) => look_value(alloc, *wanted),
        Call::Claim {
            action,
            branch,
            attempt,
            found,
        } => claim_value(alloc, *action, *branch, *attempt, found),
        Call::Committed {
            action,
            branch,
            how,
        } => committed_value(alloc, *action, *branch, *how),
        Call::Killed { line } => killed_value(alloc, *line),
        Call::Take => word_value(alloc, "Take"),
        Call::Answer { line, answer } => told_value(alloc, *line, answer),
        Call::Ended { line, how } => ended_value(alloc, *line, *how),
        Call::Tick => word_value(alloc, "Tick"),
        Call::Halt => word_value(alloc, "Halt"),
    }
}

fn launched_value(alloc: Global, line: u32, how: Started) -> Result<Value, NoMemory>
    ensures written { IfOk result (λ v. view v ≡ call_data (call.Launched line how)) }
    ensures fits { CallFits (call.Launched line how) }
{
    let mut row = Row::variant(alloc, "Launched")?;
    row.count(line)?;
    row.value(started_value(alloc, how)?)?;
    Ok(row.into_value())
}

fn wrote_value(alloc: Global, line: u32, number: i32, how: Written) -> Result<Value, NoMemory>
    ensures written { IfOk result (λ v. view v ≡ call_data (call.Wrote line number how)) }
    ensures fits { CallFits (call.Wrote line number how) }
{
    let mut row = Row::variant(alloc, "Wrote")?;
    row.count(line)?;
    row.signed(number)?;
    row.value(written_value(alloc, how)?)?;
    Ok(row.into_value())
}

fn look_value(alloc: Global, wanted: Wanted) -> Result<Value, NoMemory>
    ensures written { IfOk result (λ v. view v ≡ call_data (call.Look wanted)) }
    ensures fits { OnOk result (CallFits (call.Look wanted)) }
{
    let mut row = Row::variant(alloc, "Look")?;
    row.value(wanted_value(alloc, wanted)?)?;
    Ok(row.into_value())
}

fn claim_value(
    alloc: Global,
    action: u32,
    branch: Branch,
    attempt: u32,
    found: &Found,
) -> Result<Value, NoMemory>
    ensures written { IfOk result (λ v.
        view v ≡ call_data (call.Claim action branch attempt found.now)) }
    ensures fits { OnOk result (CallFits (call.Claim action branch attempt found.now)) }
{
    let mut row = Row::variant(alloc, "Claim")?;
    row.count(action)?;
    row.value(branch_value(alloc, branch)?)?;
    row.count(attempt)?;
    row.value(found_value(alloc, found)?)?;
    Ok(row.into_value())
}

fn committed_value(
    alloc: Global,
    action: u32,
    branch: Branch,
    how: CommitEnd,
) -> Result<Value, NoMemory>
    ensures written { IfOk result (λ v. view v ≡ call_data (call.Committed action branch how)) }
    ensures fits { OnOk result (CallFits (call.Committed action branch how)) }
{
    let mut row = Row::variant(alloc, "Committed")?;
    row.count(action)?;
    row.value(branch_value(alloc, branch)?)?;
    row.value(commit_end_value(alloc, how)?)?;
    Ok(row.into_value())
}

fn killed_value(alloc: Global, line: u32) -> Result<Value, NoMemory>
    ensures written { IfOk result (λ v. view v ≡ call_data (call.Killed line)) }
    ensures fits { CallFits (call.Killed line) }
{
    let mut row = Row::variant(alloc, "Killed")?;
    row.count(line)?;
    Ok(row.into_value())
}

fn told_value(alloc: Global, line: u32, answer: &Answer) -> Result<Value, NoMemory>
    ensures written { IfOk result (λ v. view v ≡ call_data (call.Answer line answer.now)) }
    ensures fits { OnOk result (CallFits (call.Answer line answer.now)) }
{
    let mut row = Row::variant(alloc, "Answer")?;
    row.count(line)?;
    row.value(answer_value(alloc, answer)?)?;
    Ok(row.into_value())
}

fn ended_value(alloc: Global, line: u32, how: HowEnded) -> Result<Value, NoMemory>
    ensures written { IfOk result (λ v. view v ≡ call_data (call.Ended line how)) }
    ensures fits { CallFits (call.Ended line how) }
{
    let mut row = Row::variant(alloc, "Ended")?;
    row.count(line)?;
    row.value(how_ended_value(alloc, how)?)?;
    Ok(row.into_value())
}

fn wanted_value(alloc: Global, wanted: Wanted) -> Result<Value, NoMemory>
    ensures written { IfOk result (λ v. view v ≡ wanted_data wanted) }
    ensures fits { OnOk result (WantedFits wanted) }
{
    match wanted {
        Wanted::Made { action, output } => made_value(alloc, action, output),
        Wanted::Answered {
            line,
            number,
            output,
        } => answered_value(alloc, line, number, output),
    }
}

fn made_value(alloc: Global, action: u32, output: u32) -> Result<Value, NoMemory>
    ensures written { IfOk result (λ v. view v ≡ wanted_data (look.Made action output)) }
    ensures fits { WantedFits (look.Made action output) }
{
    let mut row = Row::variant(alloc, "Made")?;
    row.count(action)?;
    row.count(output)?;
    Ok(row.into_value())
}

fn answered_value(alloc: Global, line: u32, number: i32, output: u32) -> Result<Value, NoMemory>
    ensures written { IfOk result (λ v.
        view v ≡ wanted_data (look.Answered line number output)) }
    ensures fits { WantedFits (look.Answered line number output) }
{
    let mut row = Row::variant(alloc, "Answered")?;
    row.count(line)?;
    row.signed(number)?;
    row.count(output)?;
    Ok(row.into_value())
}

fn found_value(alloc: Global, found: &Found) -> Result<Value, NoMemory>
    ensures written { IfOk result (λ v. view v ≡ found_data found.now) }
    ensures fits { OnOk result (FoundFits found.now) }
{
    match found {
        Found::Files(files) => files_found(alloc, files.as_slice()),
        Found::Exit(exit) => exit_value(alloc, *exit),
        Found::Missing(output) => missing_value(alloc, *output),
        Found::RoomFault => word_value(alloc, "RoomFault"),
        Found::Refused => word_value(alloc, "Refused"),
    }
}

fn files_found(alloc: Global, files: &[Blob]) -> Result<Value, NoMemory>
    ensures written { IfOk result (λ v. view v ≡ found_data (found.Files files.now)) }
    ensures fits { OnOk result (FoundFits (found.Files files.now)) }
{
    let mut row = Row::variant(alloc, "Files")?;
    row.value(contents_value(alloc, files)?)?;
    Ok(row.into_value())
}

fn exit_value(alloc: Global, exit: i32) -> Result<Value, NoMemory>
    ensures written { IfOk result (λ v. view v ≡ found_data (found.Exit exit)) }
    ensures fits { FoundFits (found.Exit exit) }
{
    let mut row = Row::variant(alloc, "Exit")?;
    row.signed(exit)?;
    Ok(row.into_value())
}

fn missing_value(alloc: Global, output: u32) -> Result<Value, NoMemory>
    ensures written { IfOk result (λ v. view v ≡ found_data (found.Missing output)) }
    ensures fits { FoundFits (found.Missing output) }
{
    let mut row = Row::variant(alloc, "Missing")?;
    row.count(output)?;
    Ok(row.into_value())
}

fn contents_value(alloc: Global, items: &[Blob]) -> Result<Value, NoMemory>
    ensures written { IfOk result (λ v. view v ≡ row_data (map content_data items.now)) }
    ensures fits { OnOk result (Each IsBytes items.now) }
{
    let mut row = Row::new(alloc);
    for item in items {
        row.content(item)?;
    }
    Ok(row.into_value())
}

fn commit_end_value(alloc: Global, end: CommitEnd) -> Result<Value, NoMemory>
    ensures written { IfOk result (λ v. view v ≡ commit_end_data end) }
    ensures fits { OnOk result (CommitEndFits end) }
{
    match end {
        CommitEnd::Done => word_value(alloc, "Done"),
        CommitEnd::PlaceFault { written } => place_fault_value(alloc, written),
    }
}

fn place_fault_value(alloc: Global, written: u32) -> Result<Value, NoMemory>
    ensures written { IfOk result (λ v. view v ≡ commit_end_data (commit.PlaceFault written)) }
    ensures fits { CommitEndFits (commit.PlaceFault written) }
{
    let mut row = Row::variant(alloc, "PlaceFault")?;
    row.count(written)?;
    Ok(row.into_value())
}

fn answer_value(alloc: Global, answer: &Answer) -> Result<Value, NoMemory>
    ensures written { IfOk result (λ v. view v ≡ answer_data answer.now) }
    ensures fits { OnOk result (AnswerFits answer.now) }
{
    let mut row = Row::new(alloc);
    row.signed(answer.number)?;
    row.signed(answer.exit)?;
    row.flag(answer.cancelled)?;
    row.text(answer.text.as_str())?;
    row.text(answer.refusal.as_str())?;
    row.value(files_value(alloc, answer.files.as_slice())?)?;
    row.signed(answer.version)?;
    Ok(row.into_value())
}

fn files_value(alloc: Global, items: &[NamedFile]) -> Result<Value, NoMemory>
    ensures written { IfOk result (λ v. view v ≡ row_data (map file_data items.now)) }
    ensures fits { OnOk result (Each FileFits items.now) }
{
    let mut row = Row::new(alloc);
    for item in items {
        row.value(file_value(alloc, item)?)?;
    }
    Ok(row.into_value())
}

fn file_value(alloc: Global, file: &NamedFile) -> Result<Value, NoMemory>
    ensures written { IfOk result (λ v. view v ≡ file_data file.now) }
    ensures fits { OnOk result (FileFits file.now) }
{
    let mut row = Row::new(alloc);
    row.text(file.path.as_str())?;
    row.content(&file.content)?;
    Ok(row.into_value())
}
