// Variants without fields: each is a row of only its name.
ghost use Rattle.std.specs.Prelude.{◌≡◌, IfOk};
ghost use Rattle.serde_json.specs.View.{view};
ghost use Rattle.journal_text.specs.Words.{branch_data, branch_name, breach_data, breach_name, how_ended_data, how_ended_name, kind_data, kind_name, started_data, started_name, stray_data, stray_name, why_data, why_name, written_data, written_name};

use crate::row::word_value;
use exec_journal::{Branch, BreachWhy, HowEnded, Kind, Started, StrayWhy, Why, Written};
use plain_values::NoMemory;
use serde_json::Value;
use std::alloc::Global;

fn branch_name(branch: Branch) -> &'static str
    ensures { result.now ≡ branch_name branch }
{
    match branch {
        Branch::Local => "Local",
        Branch::Remote => "Remote",
    }
}

pub(crate) fn branch_value(alloc: Global, branch: Branch) -> Result<Value, NoMemory>
    ensures { IfOk result (λ v. view v ≡ branch_data branch) }
{
    word_value(alloc, branch_name(branch))
}

fn kind_name(kind: Kind) -> &'static str
    ensures { result.now ≡ kind_name kind }
{
    match kind {
        Kind::Single => "Single",
        Kind::Multi => "Multi",
        Kind::Boxed => "Boxed",
        Kind::Remote => "Remote",
    }
}

pub(crate) fn kind_value(alloc: Global, kind: Kind) -> Result<Value, NoMemory>
    ensures { IfOk result (λ v. view v ≡ kind_data kind) }
{
    word_value(alloc, kind_name(kind))
}

fn started_name(started: Started) -> &'static str
    ensures { result.now ≡ started_name started }
{
    match started {
        Started::Done => "Done",
        Started::RoomFault => "RoomFault",
        Started::LaunchFault => "LaunchFault",
    }
}

pub(crate) fn started_value(alloc: Global, started: Started) -> Result<Value, NoMemory>
    ensures { IfOk result (λ v. view v ≡ started_data started) }
{
    word_value(alloc, started_name(started))
}

fn written_name(written: Written) -> &'static str
    ensures { result.now ≡ written_name written }
{
    match written {
        Written::Done => "Done",
        Written::RoomFault => "RoomFault",
        Written::FeedFault => "FeedFault",
        Written::TooLarge => "TooLarge",
    }
}

pub(crate) fn written_value(alloc: Global, written: Written) -> Result<Value, NoMemory>
    ensures { IfOk result (λ v. view v ≡ written_data written) }
{
    word_value(alloc, written_name(written))
}

fn how_ended_name(how_ended: HowEnded) -> &'static str
    ensures { result.now ≡ how_ended_name how_ended }
{
    match how_ended {
        HowEnded::End => "End",
        HowEnded::TapFault => "TapFault",
        HowEnded::BadFrame => "BadFrame",
        HowEnded::Long => "Long",
    }
}

pub(crate) fn how_ended_value(alloc: Global, how_ended: HowEnded) -> Result<Value, NoMemory>
    ensures { IfOk result (λ v. view v ≡ how_ended_data how_ended) }
{
    word_value(alloc, how_ended_name(how_ended))
}

fn why_name(why: Why) -> &'static str
    ensures { result.now ≡ why_name why }
{
    match why {
        Why::Ended => "Ended",
        Why::Breach => "Breach",
        Why::Feed => "Feed",
        Why::Unwanted => "Unwanted",
        Why::Quit => "Quit",
        Why::Evicted => "Evicted",
    }
}

pub(crate) fn why_value(alloc: Global, why: Why) -> Result<Value, NoMemory>
    ensures { IfOk result (λ v. view v ≡ why_data why) }
{
    word_value(alloc, why_name(why))
}

fn stray_name(stray: StrayWhy) -> &'static str
    ensures { result.now ≡ stray_name stray }
{
    match stray {
        StrayWhy::Never => "Never",
        StrayWhy::Closed => "Closed",
    }
}

pub(crate) fn stray_value(alloc: Global, stray: StrayWhy) -> Result<Value, NoMemory>
    ensures { IfOk result (λ v. view v ≡ stray_data stray) }
{
    word_value(alloc, stray_name(stray))
}

fn breach_name(breach: BreachWhy) -> &'static str
    ensures { result.now ≡ breach_name breach }
{
    match breach {
        BreachWhy::Broken => "Broken",
        BreachWhy::WrongNumber => "WrongNumber",
        BreachWhy::Unasked => "Unasked",
        BreachWhy::NotCancelled => "NotCancelled",
    }
}

pub(crate) fn breach_value(alloc: Global, breach: BreachWhy) -> Result<Value, NoMemory>
    ensures { IfOk result (λ v. view v ≡ breach_data breach) }
{
    word_value(alloc, breach_name(breach))
}
