// Replies, read from the tokens of a JSON text.
ghost use Rattle.journal_reading.specs.Pulls.{Pulls, PullsRow};
ghost use Rattle.journal_reading.specs.Readings.{Reads};
ghost use Rattle.journal_text.specs.Reading.{breach_by, cancel_by, file_by, gather_by, kill_by, late_by, launch_by, line_by, matched_by, plain_by, plain_named, reply_by, reply_in, send_by, stray_by, told_by};

use crate::misread::Misread;
use crate::values::{end, next_content, next_count, next_flag, next_signed, variant};
use crate::words::{next_attempt, next_breach, next_stray, next_why};
use exec_journal::Reply;
use json::Reader;
use std::alloc::Global;

pub(crate) fn next_reply(alloc: Global, reader: &mut Reader<'_>) -> Result<Reply, Misread>
    ensures { Pulls 2 reply_in result reader.old reader.new }
{
    let name = variant(reader)?;
    reply_by(alloc, name, reader)
}

fn reply_by(alloc: Global, name: &str, reader: &mut Reader<'_>) -> Result<Reply, Misread>
    ensures { PullsRow 1 (reply_by name.now) result reader.old reader.new }
{
    match name {
        "Launch" => launch_by(reader),
        "Send" => send_by(reader),
        "Cancel" => cancel_by(reader),
        "Gather" => gather_by(reader),
        "Kill" => kill_by(reader),
        _ => told_by(alloc, name, reader),
    }
}

// Returns a reply that orders nothing.
fn told_by(alloc: Global, name: &str, reader: &mut Reader<'_>) -> Result<Reply, Misread>
    ensures { PullsRow 1 (told_by name.now) result reader.old reader.new }
{
    match name {
        "File" => file_by(alloc, reader),
        "Line" => line_by(reader),
        "Matched" => matched_by(reader),
        "Late" => late_by(reader),
        "Stray" => stray_by(reader),
        "Breach" => breach_by(reader),
        _ => plain_by(name, reader),
    }
}

// Returns a reply without fields.
fn plain_by(name: &str, reader: &mut Reader<'_>) -> Result<Reply, Misread>
    ensures { PullsRow 0 (plain_by name.now) result reader.old reader.new }
{
    let reply = plain_named(name)?;
    end(reader)?;
    Ok(reply)
}

fn plain_named(name: &str) -> Result<Reply, Misread>
    ensures { Reads result (plain_named name.now) }
{
    match name {
        "Stop" => Ok(Reply::Stop),
        "Idle" => Ok(Reply::Idle),
        "Noted" => Ok(Reply::Noted),
        "NoFile" => Ok(Reply::NoFile),
        "Granted" => Ok(Reply::Granted),
        "Lost" => Ok(Reply::Lost),
        "Dropped" => Ok(Reply::Dropped),
        "AgainLater" => Ok(Reply::AgainLater),
        "Greeted" => Ok(Reply::Greeted),
        "Astray" => Ok(Reply::Astray),
        "NoMemory" => Ok(Reply::NoMemory),
        _ => Err(Misread::Otherwise),
    }
}

fn launch_by(reader: &mut Reader<'_>) -> Result<Reply, Misread>
    ensures { PullsRow 1 launch_by result reader.old reader.new }
{
    let line = next_count(reader)?;
    let of = next_attempt(reader)?;
    end(reader)?;
    Ok(Reply::Launch {
        line,
        action: of.action,
        branch: of.branch,
        attempt: of.number,
    })
}

fn send_by(reader: &mut Reader<'_>) -> Result<Reply, Misread>
    ensures { PullsRow 1 send_by result reader.old reader.new }
{
    let line = next_count(reader)?;
    let number = next_signed(reader)?;
    let of = next_attempt(reader)?;
    end(reader)?;
    Ok(Reply::Send {
        line,
        number,
        action: of.action,
        branch: of.branch,
        attempt: of.number,
    })
}

fn cancel_by(reader: &mut Reader<'_>) -> Result<Reply, Misread>
    ensures { PullsRow 0 cancel_by result reader.old reader.new }
{
    let line = next_count(reader)?;
    let number = next_signed(reader)?;
    end(reader)?;
    Ok(Reply::Cancel { line, number })
}

fn gather_by(reader: &mut Reader<'_>) -> Result<Reply, Misread>
    ensures { PullsRow 1 gather_by result reader.old reader.new }
{
    let line = next_count(reader)?;
    let number = next_signed(reader)?;
    let of = next_attempt(reader)?;
    let exit = next_signed(reader)?;
    let refused = next_flag(reader)?;
    end(reader)?;
    Ok(Reply::Gather {
        line,
        number,
        action: of.action,
        branch: of.branch,
        attempt: of.number,
        exit,
        refused,
    })
}

fn kill_by(reader: &mut Reader<'_>) -> Result<Reply, Misread>
    ensures { PullsRow 1 kill_by result reader.old reader.new }
{
    let line = next_count(reader)?;
    let why = next_why(reader)?;
    end(reader)?;
    Ok(Reply::Kill { line, why })
}

fn file_by(alloc: Global, reader: &mut Reader<'_>) -> Result<Reply, Misread>
    ensures { PullsRow 0 file_by result reader.old reader.new }
{
    let content = next_content(alloc, reader)?;
    end(reader)?;
    Ok(Reply::File(content))
}

fn line_by(reader: &mut Reader<'_>) -> Result<Reply, Misread>
    ensures { PullsRow 0 line_by result reader.old reader.new }
{
    let line = next_count(reader)?;
    end(reader)?;
    Ok(Reply::Line { line })
}

fn matched_by(reader: &mut Reader<'_>) -> Result<Reply, Misread>
    ensures { PullsRow 1 matched_by result reader.old reader.new }
{
    let of = next_attempt(reader)?;
    end(reader)?;
    Ok(Reply::Matched {
        action: of.action,
        branch: of.branch,
        attempt: of.number,
    })
}

fn late_by(reader: &mut Reader<'_>) -> Result<Reply, Misread>
    ensures { PullsRow 1 late_by result reader.old reader.new }
{
    let of = next_attempt(reader)?;
    end(reader)?;
    Ok(Reply::Late {
        action: of.action,
        branch: of.branch,
        attempt: of.number,
    })
}

fn stray_by(reader: &mut Reader<'_>) -> Result<Reply, Misread>
    ensures { PullsRow 1 stray_by result reader.old reader.new }
{
    let why = next_stray(reader)?;
    end(reader)?;
    Ok(Reply::Stray(why))
}

fn breach_by(reader: &mut Reader<'_>) -> Result<Reply, Misread>
    ensures { PullsRow 1 breach_by result reader.old reader.new }
{
    let why = next_breach(reader)?;
    end(reader)?;
    Ok(Reply::Breach(why))
}
