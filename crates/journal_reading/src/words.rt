// Variants without fields: each is a row of only its name. And attempts.
ghost use Rattle.journal_reading.specs.Pulls.{Pulls, PullsFront};
ghost use Rattle.journal_reading.specs.Readings.{Reads};
ghost use Rattle.journal_text.specs.Reading.{attempt_at};
ghost use Rattle.journal_text.specs.Words.{branch_in, branch_named, breach_in, breach_named, how_ended_in, how_ended_named, kind_in, kind_named, started_in, started_named, stray_in, stray_named, why_in, why_named, written_in, written_named};

use crate::misread::Misread;
use crate::values::{next_count, word};
use exec_journal::{Attempt, Branch, BreachWhy, HowEnded, Kind, Started, StrayWhy, Why, Written};
use json::Reader;

fn branch_named(name: &str) -> Result<Branch, Misread>
    ensures { Reads result (branch_named name.now) }
{
    match name {
        "Local" => Ok(Branch::Local),
        "Remote" => Ok(Branch::Remote),
        _ => Err(Misread::Otherwise),
    }
}

pub(crate) fn next_branch(reader: &mut Reader<'_>) -> Result<Branch, Misread>
    ensures { Pulls 1 branch_in result reader.old reader.new }
{
    let name = word(reader)?;
    branch_named(name)
}

fn kind_named(name: &str) -> Result<Kind, Misread>
    ensures { Reads result (kind_named name.now) }
{
    match name {
        "Single" => Ok(Kind::Single),
        "Multi" => Ok(Kind::Multi),
        "Boxed" => Ok(Kind::Boxed),
        "Remote" => Ok(Kind::Remote),
        _ => Err(Misread::Otherwise),
    }
}

pub(crate) fn next_kind(reader: &mut Reader<'_>) -> Result<Kind, Misread>
    ensures { Pulls 1 kind_in result reader.old reader.new }
{
    let name = word(reader)?;
    kind_named(name)
}

fn started_named(name: &str) -> Result<Started, Misread>
    ensures { Reads result (started_named name.now) }
{
    match name {
        "Done" => Ok(Started::Done),
        "RoomFault" => Ok(Started::RoomFault),
        "LaunchFault" => Ok(Started::LaunchFault),
        _ => Err(Misread::Otherwise),
    }
}

pub(crate) fn next_started(reader: &mut Reader<'_>) -> Result<Started, Misread>
    ensures { Pulls 1 started_in result reader.old reader.new }
{
    let name = word(reader)?;
    started_named(name)
}

fn written_named(name: &str) -> Result<Written, Misread>
    ensures { Reads result (written_named name.now) }
{
    match name {
        "Done" => Ok(Written::Done),
        "RoomFault" => Ok(Written::RoomFault),
        "FeedFault" => Ok(Written::FeedFault),
        "TooLarge" => Ok(Written::TooLarge),
        _ => Err(Misread::Otherwise),
    }
}

pub(crate) fn next_written(reader: &mut Reader<'_>) -> Result<Written, Misread>
    ensures { Pulls 1 written_in result reader.old reader.new }
{
    let name = word(reader)?;
    written_named(name)
}

fn how_ended_named(name: &str) -> Result<HowEnded, Misread>
    ensures { Reads result (how_ended_named name.now) }
{
    match name {
        "End" => Ok(HowEnded::End),
        "TapFault" => Ok(HowEnded::TapFault),
        "BadFrame" => Ok(HowEnded::BadFrame),
        "Long" => Ok(HowEnded::Long),
        _ => Err(Misread::Otherwise),
    }
}

pub(crate) fn next_how_ended(reader: &mut Reader<'_>) -> Result<HowEnded, Misread>
    ensures { Pulls 1 how_ended_in result reader.old reader.new }
{
    let name = word(reader)?;
    how_ended_named(name)
}

fn why_named(name: &str) -> Result<Why, Misread>
    ensures { Reads result (why_named name.now) }
{
    match name {
        "Ended" => Ok(Why::Ended),
        "Breach" => Ok(Why::Breach),
        "Feed" => Ok(Why::Feed),
        "Unwanted" => Ok(Why::Unwanted),
        "Quit" => Ok(Why::Quit),
        "Evicted" => Ok(Why::Evicted),
        _ => Err(Misread::Otherwise),
    }
}

pub(crate) fn next_why(reader: &mut Reader<'_>) -> Result<Why, Misread>
    ensures { Pulls 1 why_in result reader.old reader.new }
{
    let name = word(reader)?;
    why_named(name)
}

fn stray_named(name: &str) -> Result<StrayWhy, Misread>
    ensures { Reads result (stray_named name.now) }
{
    match name {
        "Never" => Ok(StrayWhy::Never),
        "Closed" => Ok(StrayWhy::Closed),
        _ => Err(Misread::Otherwise),
    }
}

pub(crate) fn next_stray(reader: &mut Reader<'_>) -> Result<StrayWhy, Misread>
    ensures { Pulls 1 stray_in result reader.old reader.new }
{
    let name = word(reader)?;
    stray_named(name)
}

fn breach_named(name: &str) -> Result<BreachWhy, Misread>
    ensures { Reads result (breach_named name.now) }
{
    match name {
        "Broken" => Ok(BreachWhy::Broken),
        "WrongNumber" => Ok(BreachWhy::WrongNumber),
        "Unasked" => Ok(BreachWhy::Unasked),
        "NotCancelled" => Ok(BreachWhy::NotCancelled),
        _ => Err(Misread::Otherwise),
    }
}

pub(crate) fn next_breach(reader: &mut Reader<'_>) -> Result<BreachWhy, Misread>
    ensures { Pulls 1 breach_in result reader.old reader.new }
{
    let name = word(reader)?;
    breach_named(name)
}

/// Reads an attempt: its action, its branch and its number.
pub(crate) fn next_attempt(reader: &mut Reader<'_>) -> Result<Attempt, Misread>
    ensures { PullsFront 1 attempt_at result reader.old reader.new }
{
    let action = next_count(reader)?;
    let branch = next_branch(reader)?;
    let number = next_count(reader)?;
    Ok(Attempt {
        action,
        branch,
        number,
    })
}
