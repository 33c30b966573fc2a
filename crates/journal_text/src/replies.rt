// Replies, written as JSON values.
ghost use Rattle.std.specs.Prelude.{◌≡◌, IfOk, OnOk};
ghost use Rattle.exec_journal.specs.declared.reply.Reply.TheVariants as reply;
ghost use Rattle.serde_json.specs.View.{view};
ghost use Rattle.journal_text.specs.Fits.{IsCount, ReplyFits};
ghost use Rattle.journal_text.specs.Writing.{reply_data};

use crate::row::{Row, word_value};
use crate::words::{branch_value, breach_value, stray_value, why_value};
use exec_journal::{Attempt, BreachWhy, Reply, StrayWhy, Why};
use plain_values::{Blob, NoMemory};
use serde_json::Value;
use std::alloc::Global;

pub(crate) fn reply_value(alloc: Global, reply: &Reply) -> Result<Value, NoMemory>
    ensures written { IfOk result (λ v. view v ≡ reply_data reply.now) }
    ensures fits { OnOk result (ReplyFits reply.now) }
{
    match reply {
        Reply::Launch {
            line,
            action,
            branch,
            attempt,
        } => launch_value(alloc, *line, Attempt::of(*action, *branch, *attempt)),
        Reply::Send {
            line,
            number,
            action,
            branch,
            attempt,
        } => send_value(
            alloc,
            *line,
            *number,
            Attempt::of(*action, *branch, *attempt),
        ),
        Reply::Cancel { line, number } => cancel_value(alloc, *line, *number),
        Reply::Gather {
            line,
            number,
            action,
            branch,
            attempt,
            exit,
            refused,
        } => {
            let of = Attempt::of(*action, *branch, *attempt);
            gather_value(alloc, *line, *number, of, *exit, *refused)
        },
        Reply::Kill { line, why } => kill_value(alloc, *line, *why),
        Reply::File(content) => file_value(alloc, content),
        Reply::Line { line } => line_value(alloc, *line),
        Reply::Matched {
            action,
            branch,
            attempt,
        } => matched_value(alloc, Attempt::of(*action, *branch, *attempt)),
        Reply::Late {
            action,
            branch,
            attempt,
        } => late_value(alloc, Attempt::of(*action, *branch, *attempt)),
        Reply::Stray(why) => stray_reply(alloc, *why),
        Reply::Breach(why) => breach_reply(alloc, *why),
        Reply::Stop => word_value(alloc, "Stop"),
        Reply::Idle => word_value(alloc, "Idle"),
        Reply::Noted => word_value(alloc, "Noted"),
        Reply::NoFile => word_value(alloc, "NoFile"),
        Reply::Granted => word_value(alloc, "Granted"),
        Reply::Lost => word_value(alloc, "Lost"),
        Reply::Dropped => word_value(alloc, "Dropped"),
        Reply::AgainLater => word_value(alloc, "AgainLater"),
        Reply::Greeted => word_value(alloc, "Greeted"),
        Reply::Astray => word_value(alloc, "Astray"),
        Reply::NoMemory => word_value(alloc, "NoMemory"),
    }
}

fn launch_value(alloc: Global, line: u32, of: Attempt) -> Result<Value, NoMemory>
    ensures written { IfOk result (λ v. view v ≡ reply_data
        (reply.Launch line of.action of.branch of.number)) }
    ensures fits { ReplyFits (reply.Launch line of.action of.branch of.number) }
{
    let mut row = Row::variant(alloc, "Launch")?;
    row.count(line)?;
    row.count(of.action)?;
    row.value(branch_value(alloc, of.branch)?)?;
    row.count(of.number)?;
    Ok(row.into_value())
}

fn send_value(alloc: Global, line: u32, number: i32, of: Attempt) -> Result<Value, NoMemory>
    ensures written { IfOk result (λ v. view v ≡ reply_data
        (reply.Send line number of.action of.branch of.number)) }
    ensures fits { ReplyFits (reply.Send line number of.action of.branch of.number) }
{
    let mut row = Row::variant(alloc, "Send")?;
    row.count(line)?;
    row.signed(number)?;
    row.count(of.action)?;
    row.value(branch_value(alloc, of.branch)?)?;
    row.count(of.number)?;
    Ok(row.into_value())
}

fn cancel_value(alloc: Global, line: u32, number: i32) -> Result<Value, NoMemory>
    ensures written { IfOk result (λ v. view v ≡ reply_data (reply.Cancel line number)) }
    ensures fits { ReplyFits (reply.Cancel line number) }
{
    let mut row = Row::variant(alloc, "Cancel")?;
    row.count(line)?;
    row.signed(number)?;
    Ok(row.into_value())
}

fn gather_value(
    alloc: Global,
    line: u32,
    number: i32,
    of: Attempt,
    exit: i32,
    refused: bool,
) -> Result<Value, NoMemory>
    ensures written { IfOk result (λ v. view v ≡ reply_data
        (reply.Gather line number of.action of.branch of.number exit refused)) }
    ensures fits { ReplyFits (reply.Gather line number of.action of.branch of.number exit refused) }
{
    let mut row = Row::variant(alloc, "Gather")?;
    row.count(line)?;
    row.signed(number)?;
    row.count(of.action)?;
    row.value(branch_value(alloc, of.branch)?)?;
    row.count(of.number)?;
    row.signed(exit)?;
    row.flag(refused)?;
    Ok(row.into_value())
}

fn kill_value(alloc: Global, line: u32, why: Why) -> Result<Value, NoMemory>
    ensures written { IfOk result (λ v. view v ≡ reply_data (reply.Kill line why)) }
    ensures fits { ReplyFits (reply.Kill line why) }
{
    let mut row = Row::variant(alloc, "Kill")?;
    row.count(line)?;
    row.value(why_value(alloc, why)?)?;
    Ok(row.into_value())
}

fn file_value(alloc: Global, content: &Blob) -> Result<Value, NoMemory>
    ensures written { IfOk result (λ v. view v ≡ reply_data (reply.File content.now)) }
    ensures fits { OnOk result (ReplyFits (reply.File content.now)) }
{
    let mut row = Row::variant(alloc, "File")?;
    row.content(content)?;
    Ok(row.into_value())
}

fn line_value(alloc: Global, line: u32) -> Result<Value, NoMemory>
    ensures written { IfOk result (λ v. view v ≡ reply_data (reply.Line line)) }
    ensures fits { ReplyFits (reply.Line line) }
{
    let mut row = Row::variant(alloc, "Line")?;
    row.count(line)?;
    Ok(row.into_value())
}

fn matched_value(alloc: Global, of: Attempt) -> Result<Value, NoMemory>
    ensures written { IfOk result (λ v. view v ≡ reply_data
        (reply.Matched of.action of.branch of.number)) }
    ensures fits { ReplyFits (reply.Matched of.action of.branch of.number) }
{
    let mut row = Row::variant(alloc, "Matched")?;
    row.count(of.action)?;
    row.value(branch_value(alloc, of.branch)?)?;
    row.count(of.number)?;
    Ok(row.into_value())
}

fn late_value(alloc: Global, of: Attempt) -> Result<Value, NoMemory>
    ensures written { IfOk result (λ v. view v ≡ reply_data
        (reply.Late of.action of.branch of.number)) }
    ensures fits { ReplyFits (reply.Late of.action of.branch of.number) }
{
    let mut row = Row::variant(alloc, "Late")?;
    row.count(of.action)?;
    row.value(branch_value(alloc, of.branch)?)?;
    row.count(of.number)?;
    Ok(row.into_value())
}

fn stray_reply(alloc: Global, why: StrayWhy) -> Result<Value, NoMemory>
    ensures { IfOk result (λ v. view v ≡ reply_data (reply.Stray why)) }
{
    let mut row = Row::variant(alloc, "Stray")?;
    row.value(stray_value(alloc, why)?)?;
    Ok(row.into_value())
}

fn breach_reply(alloc: Global, why: BreachWhy) -> Result<Value, NoMemory>
    ensures { IfOk result (λ v. view v ≡ reply_data (reply.Breach why)) }
{
    let mut row = Row::variant(alloc, "Breach")?;
    row.value(breach_value(alloc, why)?)?;
    Ok(row.into_value())
}
