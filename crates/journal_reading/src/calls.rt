// Calls, read from the tokens of a JSON text.
ghost use Rattle.exec_journal.specs.declared.call.Call.TheVariants as call;
ghost use Rattle.exec_journal.specs.declared.call.CommitEnd.TheVariants as commit;
ghost use Rattle.exec_journal.specs.declared.call.Found.TheVariants as found;
ghost use Rattle.journal_reading.specs.Pulls.{Pulls, PullsRow};
ghost use Rattle.journal_text.specs.Reading.{answer_by, answered_by, call_by, call_in, claim_by, commit_end_by, commit_end_in, committed_by, ended_by, exit_by, files_by, found_by, found_in, heard_by, killed_by, launched_by, look_by, made_by, missing_by, place_fault_by, wanted_by, wanted_in, wrote_by};
ghost use Rattle.journal_text.specs.Values.{whole};

use crate::answers::next_answer;
use crate::misread::Misread;
use crate::values::{end, next_contents, next_count, next_signed, variant};
use crate::words::{next_attempt, next_branch, next_how_ended, next_started, next_written};
use exec_journal::{Call, CommitEnd, Found, Wanted};
use json::Reader;
use std::alloc::Global;

pub(crate) fn next_call(alloc: Global, reader: &mut Reader<'_>) -> Result<Call, Misread>
    ensures { Pulls 4 call_in result reader.old reader.new }
{
    let name = variant(reader)?;
    call_by(alloc, name, reader)
}

fn call_by(alloc: Global, name: &str, reader: &mut Reader<'_>) -> Result<Call, Misread>
    ensures { PullsRow 3 (call_by name.now) result reader.old reader.new }
{
    match name {
        "Ask" => ask(reader),
        "Launched" => launched_by(reader),
        "Wrote" => wrote_by(reader),
        "Look" => look_by(reader),
        "Claim" => claim_by(alloc, reader),
        "Committed" => committed_by(reader),
        "Killed" => killed_by(reader),
        _ => heard_by(alloc, name, reader),
    }
}

// Returns a call of a tap lane, or any lane's Halt.
fn heard_by(alloc: Global, name: &str, reader: &mut Reader<'_>) -> Result<Call, Misread>
    ensures { PullsRow 3 (heard_by name.now) result reader.old reader.new }
{
    match name {
        "Take" => take(reader),
        "Answer" => answer_by(alloc, reader),
        "Ended" => ended_by(reader),
        "Tick" => tick(reader),
        "Halt" => halt(reader),
        _ => Err(Misread::Otherwise),
    }
}

fn ask(reader: &mut Reader<'_>) -> Result<Call, Misread>
    ensures { PullsRow 0 (whole call.Ask) result reader.old reader.new }
{
    end(reader)?;
    Ok(Call::Ask)
}

fn take(reader: &mut Reader<'_>) -> Result<Call, Misread>
    ensures { PullsRow 0 (whole call.Take) result reader.old reader.new }
{
    end(reader)?;
    Ok(Call::Take)
}

fn tick(reader: &mut Reader<'_>) -> Result<Call, Misread>
    ensures { PullsRow 0 (whole call.Tick) result reader.old reader.new }
{
    end(reader)?;
    Ok(Call::Tick)
}

fn halt(reader: &mut Reader<'_>) -> Result<Call, Misread>
    ensures { PullsRow 0 (whole call.Halt) result reader.old reader.new }
{
    end(reader)?;
    Ok(Call::Halt)
}

fn launched_by(reader: &mut Reader<'_>) -> Result<Call, Misread>
    ensures { PullsRow 1 launched_by result reader.old reader.new }
{
    let line = next_count(reader)?;
    let how = next_started(reader)?;
    end(reader)?;
    Ok(Call::Launched { line, how })
}

fn wrote_by(reader: &mut Reader<'_>) -> Result<Call, Misread>
    ensures { PullsRow 1 wrote_by result reader.old reader.new }
{
    let line = next_count(reader)?;
    let number = next_signed(reader)?;
    let how = next_written(reader)?;
    end(reader)?;
    Ok(Call::Wrote { line, number, how })
}

fn look_by(reader: &mut Reader<'_>) -> Result<Call, Misread>
    ensures { PullsRow 1 look_by result reader.old reader.new }
{
    let wanted = next_wanted(reader)?;
    end(reader)?;
    Ok(Call::Look(wanted))
}

fn claim_by(alloc: Global, reader: &mut Reader<'_>) -> Result<Call, Misread>
    ensures { PullsRow 2 claim_by result reader.old reader.new }
{
    let of = next_attempt(reader)?;
    let found = next_found(alloc, reader)?;
    end(reader)?;
    Ok(Call::Claim {
        action: of.action,
        branch: of.branch,
        attempt: of.number,
        found,
    })
}

fn committed_by(reader: &mut Reader<'_>) -> Result<Call, Misread>
    ensures { PullsRow 1 committed_by result reader.old reader.new }
{
    let action = next_count(reader)?;
    let branch = next_branch(reader)?;
    let how = next_commit_end(reader)?;
    end(reader)?;
    Ok(Call::Committed {
        action,
        branch,
        how,
    })
}

fn killed_by(reader: &mut Reader<'_>) -> Result<Call, Misread>
    ensures { PullsRow 0 killed_by result reader.old reader.new }
{
    let line = next_count(reader)?;
    end(reader)?;
    Ok(Call::Killed { line })
}

fn answer_by(alloc: Global, reader: &mut Reader<'_>) -> Result<Call, Misread>
    ensures { PullsRow 3 answer_by result reader.old reader.new }
{
    let line = next_count(reader)?;
    let answer = next_answer(alloc, reader)?;
    end(reader)?;
    Ok(Call::Answer { line, answer })
}

fn ended_by(reader: &mut Reader<'_>) -> Result<Call, Misread>
    ensures { PullsRow 1 ended_by result reader.old reader.new }
{
    let line = next_count(reader)?;
    let how = next_how_ended(reader)?;
    end(reader)?;
    Ok(Call::Ended { line, how })
}

pub(crate) fn next_wanted(reader: &mut Reader<'_>) -> Result<Wanted, Misread>
    ensures { Pulls 1 wanted_in result reader.old reader.new }
{
    let name = variant(reader)?;
    wanted_by(name, reader)
}

fn wanted_by(name: &str, reader: &mut Reader<'_>) -> Result<Wanted, Misread>
    ensures { PullsRow 0 (wanted_by name.now) result reader.old reader.new }
{
    match name {
        "Made" => made_by(reader),
        "Answered" => answered_by(reader),
        _ => Err(Misread::Otherwise),
    }
}

fn made_by(reader: &mut Reader<'_>) -> Result<Wanted, Misread>
    ensures { PullsRow 0 made_by result reader.old reader.new }
{
    let action = next_count(reader)?;
    let output = next_count(reader)?;
    end(reader)?;
    Ok(Wanted::Made { action, output })
}

fn answered_by(reader: &mut Reader<'_>) -> Result<Wanted, Misread>
    ensures { PullsRow 0 answered_by result reader.old reader.new }
{
    let line = next_count(reader)?;
    let number = next_signed(reader)?;
    let output = next_count(reader)?;
    end(reader)?;
    Ok(Wanted::Answered {
        line,
        number,
        output,
    })
}

pub(crate) fn next_found(alloc: Global, reader: &mut Reader<'_>) -> Result<Found, Misread>
    ensures { Pulls 2 found_in result reader.old reader.new }
{
    let name = variant(reader)?;
    found_by(alloc, name, reader)
}

fn found_by(alloc: Global, name: &str, reader: &mut Reader<'_>) -> Result<Found, Misread>
    ensures { PullsRow 1 (found_by name.now) result reader.old reader.new }
{
    match name {
        "Files" => files_by(alloc, reader),
        "Exit" => exit_by(reader),
        "Missing" => missing_by(reader),
        "RoomFault" => room_fault(reader),
        "Refused" => refused(reader),
        _ => Err(Misread::Otherwise),
    }
}

fn files_by(alloc: Global, reader: &mut Reader<'_>) -> Result<Found, Misread>
    ensures { PullsRow 1 files_by result reader.old reader.new }
{
    let files = next_contents(alloc, reader)?;
    end(reader)?;
    Ok(Found::Files(files))
}

fn exit_by(reader: &mut Reader<'_>) -> Result<Found, Misread>
    ensures { PullsRow 0 exit_by result reader.old reader.new }
{
    let exit = next_signed(reader)?;
    end(reader)?;
    Ok(Found::Exit(exit))
}

fn missing_by(reader: &mut Reader<'_>) -> Result<Found, Misread>
    ensures { PullsRow 0 missing_by result reader.old reader.new }
{
    let output = next_count(reader)?;
    end(reader)?;
    Ok(Found::Missing(output))
}

fn room_fault(reader: &mut Reader<'_>) -> Result<Found, Misread>
    ensures { PullsRow 0 (whole found.RoomFault) result reader.old reader.new }
{
    end(reader)?;
    Ok(Found::RoomFault)
}

fn refused(reader: &mut Reader<'_>) -> Result<Found, Misread>
    ensures { PullsRow 0 (whole found.Refused) result reader.old reader.new }
{
    end(reader)?;
    Ok(Found::Refused)
}

pub(crate) fn next_commit_end(reader: &mut Reader<'_>) -> Result<CommitEnd, Misread>
    ensures { Pulls 1 commit_end_in result reader.old reader.new }
{
    let name = variant(reader)?;
    commit_end_by(name, reader)
}

fn commit_end_by(name: &str, reader: &mut Reader<'_>) -> Result<CommitEnd, Misread>
    ensures { PullsRow 0 (commit_end_by name.now) result reader.old reader.new }
{
    match name {
        "Done" => done(reader),
        "PlaceFault" => place_fault_by(reader),
        _ => Err(Misread::Otherwise),
    }
}

fn done(reader: &mut Reader<'_>) -> Result<CommitEnd, Misread>
    ensures { PullsRow 0 (whole commit.Done) result reader.old reader.new }
{
    end(reader)?;
    Ok(CommitEnd::Done)
}

fn place_fault_by(reader: &mut Reader<'_>) -> Result<CommitEnd, Misread>
    ensures { PullsRow 0 place_fault_by result reader.old reader.new }
{
    let written = next_count(reader)?;
    end(reader)?;
    Ok(CommitEnd::PlaceFault { written })
}
