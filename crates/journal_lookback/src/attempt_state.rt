// The facts about one attempt in a journal, while its entries are gone through.
ghost use Rattle.std.specs.Prelude.{◌≡◌, option_copied, option_map};
ghost use Rattle.exec_journal.specs.Entries.{is_for, consumed_in, send_of_entry, launch_of_entry};
ghost use Rattle.exec_journal.specs.Words.{wrote_if};
ghost use Rattle.exec_journal.specs.Attempts.{carrier_in, fault_by, start_cause, unwritten_cause, found_cause};
ghost use Rattle.journal_lookback.specs.Lookback.{concerns, end_now, track_after, is_refusal_reply};

use crate::grant::grant_in;
use exec_journal::{Attempt, Call, Cause, Entry, Found, Reply, Started, Written};

/// The state of an attempt. `ended` may be set late: the loss of an attempt with its line is noticed at the next look
/// at it.
#[derive(Clone, Copy)]
pub struct Track {
    pub line: Option<u32>,
    pub answered: bool,
    pub wrote: Option<Written>,
    pub fault: Option<Cause>,
    pub ended: Option<Cause>,
}

impl Track {
    /// The state of an attempt that no entry has named yet.
    pub const NEW: Track = Track {
        line: None,
        answered: false,
        wrote: None,
        fault: None,
        ended: None,
    };

    /// Returns the cause with which the attempt has ended by now. `line` is the cause of its line, if the line has
    /// ended.
    pub fn end_now(&self, won: bool, line: Option<Cause>) -> Option<Cause>
        ensures { result ≡ end_now self.now won line }
    {
        if self.ended.is_some() || won {
            return self.ended;
        }
        if self.fault.is_some() {
            return self.fault;
        }
        if !self.answered || matches!(self.wrote, Some(Written::FeedFault)) {
            line
        } else {
            None
        }
    }

    /// Returns the state after an entry. `order` is the newest work of its lane before it.
    pub fn after(
        &self,
        attempt: Attempt,
        order: Option<&Entry>,
        entry: &Entry,
        won: bool,
        line: Option<Cause>,
    ) -> Track
        ensures { result ≡ track_after self.now attempt
            (option_copied order.entry) entry.now won line }
    {
        Track {
            line: carrier(attempt, &entry.reply).or(self.line),
            answered: is_consumed(attempt, &entry.reply) || self.answered,
            wrote: self.wrote.or(wrote(attempt, order, entry)),
            fault: self.fault.or(fault(attempt, order, entry)),
            ended: self.end_now(won, line),
        }
    }
}

/// Returns the line on which the reply orders the attempt to be launched or sent.
pub fn carrier(attempt: Attempt, reply: &Reply) -> Option<u32>
    ensures { result ≡ carrier_in attempt reply.now }
{
    match reply {
        Reply::Launch {
            line,
            action,
            branch,
            attempt: number,
        } if attempt.is(*action, *branch, *number) => Some(*line),
        Reply::Send {
            line,
            action,
            branch,
            attempt: number,
            ..
        } if attempt.is(*action, *branch, *number) => Some(*line),
        _ => None,
    }
}

/// True if the reply consumes the answer of the attempt.
pub fn is_consumed(attempt: Attempt, reply: &Reply) -> bool
    ensures { result ≡ is_for attempt (consumed_in reply.now) }
{
    match reply {
        Reply::Matched {
            action,
            branch,
            attempt: number,
        } => attempt.is(*action, *branch, *number),
        Reply::Late {
            action,
            branch,
            attempt: number,
        } => attempt.is(*action, *branch, *number),
        _ => false,
    }
}

/// Applies the entry's Wrote to the attempt if `order` was to send it.
pub fn wrote(attempt: Attempt, order: Option<&Entry>, entry: &Entry) -> Option<Written>
    ensures { result ≡ wrote_if attempt entry.now.call (send_of_entry (option_copied order.entry)) }
{
    match &entry.call {
        Call::Wrote { how, .. } if is_sent(attempt, order) => Some(*how),
        _ => None,
    }
}

/// Returns the attempt's own fault at this entry: of its Launched, its Wrote or its Claim.
pub fn fault(attempt: Attempt, order: Option<&Entry>, entry: &Entry) -> Option<Cause>
    ensures { result ≡ fault_by attempt (option_copied order.entry) entry.now.call entry.now.reply }
{
    match &entry.call {
        Call::Launched { how, .. } if is_launched(attempt, order) => start_fault(*how),
        Call::Wrote { how, .. } if is_sent(attempt, order) => write_fault(*how),
        Call::Claim {
            action,
            branch,
            attempt: number,
            found,
        } if is_refusal(&entry.reply) && attempt.is(*action, *branch, *number) => claim_fault(
            found,
        ),
        _ => None,
    }
}

/// True if the entry concerns the attempt, or grants its action.
pub fn is_concerned(attempt: Attempt, order: Option<&Entry>, entry: &Entry) -> bool
    ensures { result ≡ concerns attempt (option_copied order.entry) entry.now }
{
    carrier(attempt, &entry.reply).is_some()
        || is_consumed(attempt, &entry.reply)
        || wrote(attempt, order, entry).is_some()
        || fault(attempt, order, entry).is_some()
        || grant_in(entry, attempt.action).is_some()
}

fn is_sent(attempt: Attempt, order: Option<&Entry>) -> bool
    ensures { result ≡ is_for attempt (option_map (λ r. r.attempt) (send_of_entry
        (option_copied order.entry))) }
{
    match order {
        Some(order) => match &order.reply {
            Reply::Send {
                action,
                branch,
                attempt: number,
                ..
            } => attempt.is(*action, *branch, *number),
            _ => false,
        },
        None => false,
    }
}

fn is_launched(attempt: Attempt, order: Option<&Entry>) -> bool
    ensures { result ≡ is_for attempt (launch_of_entry (option_copied order.entry)) }
{
    match order {
        Some(order) => match &order.reply {
            Reply::Launch {
                action,
                branch,
                attempt: number,
                ..
            } => attempt.is(*action, *branch, *number),
            _ => false,
        },
        None => false,
    }
}

fn is_refusal(reply: &Reply) -> bool
    ensures { result ≡ is_refusal_reply reply.now }
{
    matches!(reply, Reply::AgainLater | Reply::Dropped)
}

fn start_fault(how: Started) -> Option<Cause>
    ensures { result ≡ start_cause how }
{
    match how {
        Started::Done => None,
        Started::RoomFault => Some(Cause::Room),
        Started::LaunchFault => Some(Cause::Launch),
    }
}

fn write_fault(how: Written) -> Option<Cause>
    ensures { result ≡ unwritten_cause how }
{
    match how {
        Written::RoomFault => Some(Cause::Room),
        Written::TooLarge => Some(Cause::Large),
        Written::Done | Written::FeedFault => None,
    }
}

fn claim_fault(found: &Found) -> Option<Cause>
    ensures { result ≡ found_cause found.now }
{
    match found {
        Found::Missing(output) => Some(Cause::Missing(*output)),
        Found::RoomFault => Some(Cause::Room),
        Found::Refused => Some(Cause::Refused),
        Found::Files(_) | Found::Exit(_) => None,
    }
}
