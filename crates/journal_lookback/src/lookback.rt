// The terms of the rules, found in a journal by looking through its entries.
ghost use Rattle.std.specs.Prelude.{◌≡◌, reverse, option_copied, option_map, is_some, find};
ghost use Rattle.std.specs.List.{list_any};
ghost use Rattle.exec_journal.specs.Entries.{is_for, consumed_in, send_of_entry, ends, committed_in, send_in, matched_in};
ghost use Rattle.exec_journal.specs.Words.{last_work, answered, order_of, break_at, line_cause, end_cause, grant_of, commit_of, ever_sent, is_of_branch, match_at};
ghost use Rattle.exec_journal.specs.Attempts.{end_of};
ghost use Rattle.journal_lookback.specs.Lookback.{is_work, ended_line, grant_fact, grants, leaves_unwritten, writes_to, was_answered, is_late, write_break, break_when};

use crate::attempt_state::{Track, is_concerned, is_consumed};
use crate::grant::{Grant, grant_in};
use exec_journal::{
    Answer, Attempt, Branch, Call, Cause, CommitEnd, Entry, HowEnded, Reply, Written,
};

/// Returns the lane's newest entry that is neither a Look nor a Halt.
pub fn last_work(front: &[Entry], lane: u32) -> Option<&Entry>
    ensures { option_copied result ≡ last_work (reverse front.now) lane }
{
    newest_work(front, lane)
}

fn newest_work(front: &[Entry], lane: u32) -> Option<&Entry>
    ensures { option_copied result ≡ find (is_work lane) (reverse front.now) }
{
    front.iter().rev().find(|e| is_work_of(e, lane))
}

/// True if the entry is the lane's, and neither a Look nor a Halt.
pub fn is_work_of(entry: &Entry, lane: u32) -> bool
    ensures { result ≡ is_work lane entry.now }
{
    entry.lane == lane && !matches!(&entry.call, Call::Look(_) | Call::Halt)
}

// ---- lines

/// Returns the cause of the line, if it has ended.
pub fn ended_line(front: &[Entry], line: Option<u32>) -> Option<Cause>
    ensures { result ≡ ended_line (reverse front.now) line }
{
    let line = line?;
    if !has_end(front, line) {
        return None;
    }
    line_cause(front, line)
}

fn has_end(front: &[Entry], line: u32) -> bool
    ensures { result ≡ list_any (λ e. ends line e.call) front.now }
{
    front.iter().any(|e| is_end(e, line))
}

/// True if the entry reports the end of the line.
pub fn is_end(entry: &Entry, line: u32) -> bool
    ensures { result ≡ ends line entry.now.call }
{
    matches!(&entry.call, Call::Ended { line: ended, .. } if *ended == line)
}

/// Returns the cause for which the line broke: the cause of its first break.
pub fn line_cause(front: &[Entry], line: u32) -> Option<Cause>
    ensures { result ≡ line_cause (reverse front.now) line }
{
    for (i, entry) in front.iter().enumerate() {
        let cause = break_in(&front[..i], entry, line);
        if cause.is_some() {
            return cause;
        }
    }
    None
}

/// Returns the cause for which the line breaks at this entry.
fn break_in(before: &[Entry], entry: &Entry, line: u32) -> Option<Cause>
    ensures { result ≡ break_at line (reverse before.now) entry.now }
{
    let late = is_write_to(entry, line) && is_late(before, entry);
    break_by(late, entry, line)
}

fn is_write_to(entry: &Entry, line: u32) -> bool
    ensures { result ≡ writes_to line entry.now.call }
{
    matches!(&entry.call, Call::Wrote { line: written, .. } if *written == line)
}

/// True if the entry reports that a request wasn't written, though it was answered before.
fn is_late(before: &[Entry], entry: &Entry) -> bool
    ensures { result ≡ is_late (reverse before.now) (order_of
        (reverse before.now) entry.now.lane) entry.now.call }
{
    is_unwritten(&entry.call) && was_answered(before, last_work(before, entry.lane))
}

/// True if the call reports that a request wasn't written, for another reason than a fault of its worker's
/// input.
pub fn is_unwritten(call: &Call) -> bool
    ensures { result ≡ leaves_unwritten call.now }
{
    matches!(
        call,
        Call::Wrote {
            how: Written::RoomFault | Written::TooLarge,
            ..
        }
    )
}

/// True if it is an order to send a request, and an answer to that request was consumed.
fn was_answered(before: &[Entry], order: Option<&Entry>) -> bool
    ensures { result ≡ was_answered (reverse before.now) (send_of_entry
        (option_copied order.entry)) }
{
    match sent_by(order) {
        Some(attempt) => is_answered(before, attempt),
        None => false,
    }
}

/// Returns the cause for which the line breaks at this entry. `late` means that the entry's request wasn't
/// written, though it was answered before.
pub fn break_by(late: bool, entry: &Entry, line: u32) -> Option<Cause>
    ensures { result ≡ break_when late line entry.now.call entry.now.reply }
{
    match &entry.call {
        Call::Wrote {
            line: written,
            how,
            ..
        } if *written == line => write_break(late, *how),
        Call::Answer { line: answered, .. }
            if *answered == line && matches!(&entry.reply, Reply::Breach(_)) => Some(Cause::Breach),
        Call::Ended { line: ended, how } if *ended == line => Some(end_break(*how)),
        _ => None,
    }
}

fn write_break(late: bool, how: Written) -> Option<Cause>
    ensures { result ≡ write_break late how }
{
    match how {
        Written::FeedFault => Some(Cause::Feed),
        Written::RoomFault | Written::TooLarge if late => Some(Cause::Breach),
        Written::RoomFault | Written::TooLarge | Written::Done => None,
    }
}

/// Returns the attempt that the order sends, if it is a Send.
pub fn sent_by(order: Option<&Entry>) -> Option<Attempt>
    ensures { result ≡ option_map (λ r. r.attempt) (send_of_entry (option_copied order.entry)) }
{
    match &order?.reply {
        Reply::Send {
            action,
            branch,
            attempt,
            ..
        } => Some(Attempt {
            action: *action,
            branch: *branch,
            number: *attempt,
        }),
        _ => None,
    }
}

fn end_break(how: HowEnded) -> Cause
    ensures { result ≡ end_cause how }
{
    match how {
        HowEnded::End => Cause::Died,
        HowEnded::TapFault => Cause::Tap,
        HowEnded::BadFrame => Cause::Frame,
        HowEnded::Long => Cause::Long,
    }
}

/// True if an answer to the attempt was consumed.
pub fn is_answered(front: &[Entry], attempt: Attempt) -> bool
    ensures { result ≡ answered (reverse front.now) attempt }
{
    has_consumed(front, attempt)
}

fn has_consumed(front: &[Entry], attempt: Attempt) -> bool
    ensures { result ≡ list_any (λ e. is_for attempt (consumed_in e.reply)) front.now }
{
    front.iter().any(|e| is_consumed(attempt, &e.reply))
}

// ---- actions and attempts

/// Returns the action's first claim that was granted.
pub fn grant(entries: &[Entry], action: u32) -> Option<Grant>
    ensures { result ≡ option_map grant_fact (grant_of (reverse entries.now) action) }
{
    match granting(entries, action) {
        Some(entry) => grant_in(entry, action),
        None => None,
    }
}

fn granting(entries: &[Entry], action: u32) -> Option<&Entry>
    ensures { option_copied result ≡ find (λ e. is_some (grants action e)) entries.now }
{
    entries.iter().find(|e| grant_in(e, action).is_some())
}

/// Returns how the branch was committed, by its first Committed.
pub fn commit(entries: &[Entry], action: u32, branch: Branch) -> Option<CommitEnd>
    ensures { result ≡ commit_of (reverse entries.now) action branch }
{
    match committing(entries, action, branch) {
        Some(entry) => commit_in(entry, action, branch),
        None => None,
    }
}

fn committing(entries: &[Entry], action: u32, branch: Branch) -> Option<&Entry>
    ensures { option_copied result ≡ find (λ e. is_some
        (committed_in action branch e.call)) entries.now }
{
    entries
        .iter()
        .find(|e| commit_in(e, action, branch).is_some())
}

/// Returns how the branch was committed, if the entry reports that.
pub fn commit_in(entry: &Entry, action: u32, branch: Branch) -> Option<CommitEnd>
    ensures { result ≡ committed_in action branch entry.now.call }
{
    match &entry.call {
        Call::Committed {
            action: committed,
            branch: of,
            how,
        } if *committed == action && *of == branch => Some(*how),
        _ => None,
    }
}

/// True if an attempt of the branch was sent.
pub fn ever_sent(entries: &[Entry], action: u32, branch: Branch) -> bool
    ensures { result ≡ ever_sent (reverse entries.now) action branch }
{
    has_send_of(entries, action, branch)
}

fn has_send_of(entries: &[Entry], action: u32, branch: Branch) -> bool
    ensures { result ≡ list_any (λ e. is_of_branch action branch (send_in e.reply)) entries.now }
{
    entries.iter().any(|e| is_send_of(e, action, branch))
}

/// True if the reply orders to send a request of the branch.
pub fn is_send_of(entry: &Entry, action: u32, branch: Branch) -> bool
    ensures { result ≡ is_of_branch action branch (send_in entry.now.reply) }
{
    matches!(
        &entry.reply,
        Reply::Send { action: sent, branch: of, .. } if *sent == action && *of == branch
    )
}

/// Returns the answer that is matched with the attempt at this entry.
pub fn match_in(entry: &Entry, attempt: Attempt) -> Option<&Answer>
    ensures { option_copied result ≡ match_at attempt entry.now.call entry.now.reply }
{
    match &entry.call {
        Call::Answer { answer, .. } if is_match(attempt, &entry.reply) => Some(answer),
        _ => None,
    }
}

fn is_match(attempt: Attempt, reply: &Reply) -> bool
    ensures { result ≡ is_for attempt (matched_in reply.now) }
{
    match reply {
        Reply::Matched {
            action,
            branch,
            attempt: number,
        } => attempt.is(*action, *branch, *number),
        _ => false,
    }
}

/// Returns the cause with which the attempt has ended.
pub fn end(entries: &[Entry], attempt: Attempt) -> Option<Cause>
    ensures { result ≡ end_of (reverse entries.now) attempt }
{
    let mut track = Track::NEW;
    let mut won = false;
    for (i, entry) in entries.iter().enumerate() {
        let before = &entries[..i];
        let order = last_work(before, entry.lane);
        if is_concerned(attempt, order, entry) {
            let lost = ended_line(before, track.line);
            track = track.after(attempt, order, entry, won, lost);
            won = won || grant_in(entry, attempt.action).is_some();
        }
    }
    let lost = ended_line(entries, track.line);
    track.end_now(won, lost)
}
