// The facts about all actions and lines in a journal, gathered by going through it once.
ghost use Rattle.std.specs.Prelude.{◌≡◌, ◌∷◌, ℕ, true, List, reverse, option_copied, option_map, unwrap_or, if◌then◌else◌};
ghost use Rattle.exec_journal.specs.Entry.{Entry};
ghost use Rattle.exec_journal.specs.Entries.{attempt_of, send_of_entry, launch_of_entry, consumed_in};
ghost use Rattle.exec_journal.specs.Words.{last_work, answered};
ghost use Rattle.exec_journal.specs.Attempts.{number_if};
ghost use Rattle.journal_lookback.specs.Lookback.{ended_line, was_answered, is_late};
ghost use Rattle.journal_ends.specs.Replay.{AllNew, new_action, new_line, AreActions, AreLines, AreOrders, branch_of, answer_flag, answers_after, action_after, branch_after, line_after, reply_action, call_action, broken_line};
ghost use Rattle.list_lemmas.specs.Places.{update_if};

use exec_journal::{Attempt, Branch, Call, Cause, CommitEnd, Entry, Reply};
use journal_lookback::{
    Grant, Track, break_by, commit_in, ended_line, grant_in, is_answered, is_end, is_send_of,
    is_unwritten, is_work_of, last_work, sent_by,
};

/// The most lanes that a run can have: two for each of 64 berths.
const LANES: usize = 128;

/// The numbers of a branch's attempts are below this: they are 1 to at most 10.
const NUMBERS: usize = 11;

/// The facts of a line: the cause for which it broke, and whether it has ended.
#[derive(Clone, Copy)]
pub struct LineFact {
    pub cause: Option<Cause>,
    pub ended: bool,
}

/// The facts of a branch: how it was committed, whether it was ever sent, the numbers of its attempts that were
/// answered, and its last attempt.
#[derive(Clone, Copy)]
pub struct BranchFact {
    pub commit: Option<CommitEnd>,
    pub sent: bool,
    pub answers: [bool; NUMBERS],
    pub track: Track,
}

/// The facts of an action: its grant and its branches.
#[derive(Clone, Copy)]
pub struct ActionFact {
    pub grant: Option<Grant>,
    pub local: BranchFact,
    pub remote: BranchFact,
}

/// An entry that joins a journal: the entries before it, the newest work of its lane among them, and itself.
#[derive(Clone, Copy)]
struct Joining<'a> {
    before: &'a [Entry],
    order: Option<&'a Entry>,
    entry: &'a Entry,
}

impl BranchFact {
    pub const NEW: BranchFact = BranchFact {
        commit: None,
        sent: false,
        answers: [false; NUMBERS],
        track: Track {
            line: None,
            answered: false,
            wrote: None,
            fault: None,
            ended: None,
        },
    };

    fn after(
        &self,
        attempt: Attempt,
        order: Option<&Entry>,
        entry: &Entry,
        won: bool,
        line: Option<Cause>,
    ) -> BranchFact
        ensures { result ≡ branch_after self.now attempt
            (option_copied order.entry) entry.now won line }
    {
        BranchFact {
            commit: self
                .commit
                .or(commit_in(entry, attempt.action, attempt.branch)),
            sent: self.sent || is_send_of(entry, attempt.action, attempt.branch),
            answers: self.answers_after(attempt, &entry.reply),
            track: self.track.after(attempt, order, entry, won, line),
        }
    }

    fn answers_after(&self, attempt: Attempt, reply: &Reply) -> [bool; NUMBERS]
        ensures { result ≡ answers_after self.now.answers attempt.action attempt.branch
            (consumed_in reply.now) }
    {
        let mut answers = self.answers;
        mark(&mut answers, answered_number(attempt, reply));
        answers
    }
}

impl ActionFact {
    /// The facts of an action that no entry has named yet.
    pub const NEW: ActionFact = ActionFact {
        grant: None,
        local: BranchFact::NEW,
        remote: BranchFact::NEW,
    };

    fn branch(&self, branch: Branch) -> &BranchFact
        ensures { result.now ≡ branch_of self.now branch }
    {
        match branch {
            Branch::Local => &self.local,
            Branch::Remote => &self.remote,
        }
    }
}

impl LineFact {
    /// The facts of a line that no entry has named yet.
    pub const NEW: LineFact = LineFact {
        cause: None,
        ended: false,
    };
}

/// Goes through the journal once. The facts are new before, and agree with the journal afterwards.
pub fn gather(actions: &mut [ActionFact], lines: &mut [LineFact], limit: u32, entries: &[Entry])
    requires actions { AllNew new_action actions.old }
    requires lines { AllNew new_line lines.old }
    ensures actions { AreActions actions.new limit (reverse entries.now) }
    ensures lines { AreLines lines.new (reverse entries.now) }
{
    let mut orders = [None; LANES];
    for (i, entry) in entries.iter().enumerate() {
        note(actions, lines, &orders, limit, &entries[..i], entry);
        note_order(&mut orders, entry);
    }
}

/// Updates the facts of the lines and of the actions for one more entry. `orders` has the newest work of each lane
/// before it.
fn note(
    actions: &mut [ActionFact],
    lines: &mut [LineFact],
    orders: &[Option<&Entry>],
    limit: u32,
    before: &[Entry],
    entry: &Entry,
)
    requires actions { AreActions actions.old limit (reverse before.now) }
    requires lines { AreLines lines.old (reverse before.now) }
    requires orders { AreOrders option_copied orders.now (reverse before.now) }
    ensures actions { AreActions actions.new limit (entry.now ∷ reverse before.now) }
    ensures lines { AreLines lines.new (entry.now ∷ reverse before.now) }
{
    let order = order_at(orders, before, entry.lane);
    let late = is_late(actions, before, order, entry);
    let by_reply = action_of_reply(&entry.reply);
    let by_call = action_of_call(order, &entry.call);
    let joining = Joining {
        before,
        order,
        entry,
    };
    note_action(actions, lines, limit, by_reply, &joining);
    if by_call != by_reply {
        note_action(actions, lines, limit, by_call, &joining);
    }
    note_line(lines, late, line_of_call(&entry.call), entry);
}

// ---- lanes

/// Returns the newest work of the lane. It looks back only for a lane past the table, and such a lane is in
/// no journal of a run.
fn order_at<'a>(orders: &[Option<&'a Entry>], before: &'a [Entry], lane: u32) -> Option<&'a Entry>
    requires { AreOrders option_copied orders.now (reverse before.now) }
    ensures { option_copied result ≡ last_work (reverse before.now) lane }
{
    let at = lane as usize;
    if at < orders.len() {
        orders[at]
    } else {
        last_work(before, lane)
    }
}

/// Updates the newest work of each lane for one more entry.
fn note_order<'a>(orders: &mut [Option<&'a Entry>], entry: &'a Entry)
    ensures { (j : List Entry) → AreOrders option_copied orders.old j
        → AreOrders option_copied orders.new (entry.now ∷ j) }
{
    let at = entry.lane as usize;
    if at < orders.len() && is_work_of(entry, entry.lane) {
        orders[at] = Some(entry);
    }
}

// ---- answers

/// True if the entry reports that a request wasn't written, though it was answered before.
fn is_late(actions: &[ActionFact], before: &[Entry], order: Option<&Entry>, entry: &Entry) -> bool
    requires { (limit : ℕ) × AreActions actions.now limit (reverse before.now) }
    ensures { result ≡ is_late (reverse before.now) (send_of_entry
        (option_copied order.entry)) entry.now.call }
{
    is_unwritten(&entry.call) && was_answered(actions, before, order)
}

fn was_answered(actions: &[ActionFact], before: &[Entry], order: Option<&Entry>) -> bool
    requires { (limit : ℕ) × AreActions actions.now limit (reverse before.now) }
    ensures { result ≡ was_answered (reverse before.now) (send_of_entry
        (option_copied order.entry)) }
{
    match sent_by(order) {
        Some(attempt) => answered_by(actions, before, attempt),
        None => false,
    }
}

/// True if an answer to the attempt was consumed. It looks back only for an attempt without a flag: its
/// action isn't the plan's or its number is past every limit, and such an attempt is in no journal of a
/// run.
fn answered_by(actions: &[ActionFact], before: &[Entry], attempt: Attempt) -> bool
    requires { (limit : ℕ) × AreActions actions.now limit (reverse before.now) }
    ensures { result ≡ answered (reverse before.now) attempt }
{
    match answer_flag(actions, attempt) {
        Some(answered) => answered,
        None => is_answered(before, attempt),
    }
}

fn answer_flag(actions: &[ActionFact], attempt: Attempt) -> Option<bool>
    ensures { result ≡ answer_flag actions.now attempt }
{
    let fact = actions.get(attempt.action as usize)?;
    let answers = &fact.branch(attempt.branch).answers;
    answers.get(attempt.number as usize).copied()
}

/// Sets the flag with this number.
fn mark(flags: &mut [bool], number: Option<u32>)
    ensures { flags.new ≡ update_if (λ _. true) flags.old number }
{
    if let Some(number) = number {
        let at = number as usize;
        if at < flags.len() {
            flags[at] = true;
        }
    }
}

/// Returns the number of the branch's attempt whose answer the reply consumes.
fn answered_number(attempt: Attempt, reply: &Reply) -> Option<u32>
    ensures { result ≡ number_if attempt.action attempt.branch (consumed_in reply.now) }
{
    match reply {
        Reply::Matched {
            action,
            branch,
            attempt: number,
        }
        | Reply::Late {
            action,
            branch,
            attempt: number,
        } if *action == attempt.action && *branch == attempt.branch => Some(*number),
        _ => None,
    }
}

// ---- actions

fn note_action(
    actions: &mut [ActionFact],
    lines: &[LineFact],
    limit: u32,
    action: Option<u32>,
    joining: &Joining<'_>,
)
    requires { AreLines lines.now (reverse joining.now.before.now) }
    ensures { actions.new ≡ update_if (action_after (reverse joining.now.before.now) limit
        (unwrap_or action 0) (option_copied joining.now.order) joining.now.entry.now)
        actions.old action }
{
    if let Some(action) = action {
        let at = action as usize;
        if at < actions.len() {
            actions[at] = action_next(&actions[at], lines, limit, action, joining);
        }
    }
}

fn action_next(
    fact: &ActionFact,
    lines: &[LineFact],
    limit: u32,
    action: u32,
    joining: &Joining<'_>,
) -> ActionFact
    requires { AreLines lines.now (reverse joining.now.before.now) }
    ensures { result ≡ action_after (reverse joining.now.before.now) limit action
        (option_copied joining.now.order) joining.now.entry.now fact.now }
{
    let Joining {
        before,
        order,
        entry,
    } = *joining;
    let won = fact.grant.is_some();
    let local = Attempt {
        action,
        branch: Branch::Local,
        number: limit,
    };
    let remote = Attempt {
        action,
        branch: Branch::Remote,
        number: limit,
    };
    let local_line = ended_at(lines, before, fact.local.track.line);
    let remote_line = ended_at(lines, before, fact.remote.track.line);
    ActionFact {
        grant: fact.grant.or(grant_in(entry, action)),
        local: fact.local.after(local, order, entry, won, local_line),
        remote: fact.remote.after(remote, order, entry, won, remote_line),
    }
}

/// Returns the cause of the line, if it has ended. A line past the table is in no journal of a run: there
/// can be no more lines than entries.
pub fn ended_at(lines: &[LineFact], before: &[Entry], line: Option<u32>) -> Option<Cause>
    requires { AreLines lines.now (reverse before.now) }
    ensures { result ≡ ended_line (reverse before.now) line }
{
    match line {
        Some(number) => {
            let at = number as usize;
            if at < lines.len() {
                cause_of(lines[at])
            } else {
                ended_line(before, line)
            }
        }
        None => None,
    }
}

fn cause_of(fact: LineFact) -> Option<Cause>
    ensures { result ≡ (if fact.ended then fact.cause else None) }
{
    if fact.ended { fact.cause } else { None }
}

fn note_line(lines: &mut [LineFact], late: bool, line: Option<u32>, entry: &Entry)
    ensures { lines.new ≡ update_if (line_after late (unwrap_or line 0) entry.now) lines.old line }
{
    if let Some(line) = line {
        let at = line as usize;
        if at < lines.len() {
            let old = lines[at];
            lines[at] = line_next(old, late, line, entry);
        }
    }
}

fn line_next(fact: LineFact, late: bool, line: u32, entry: &Entry) -> LineFact
    ensures { result ≡ line_after late line entry.now fact }
{
    LineFact {
        cause: fact.cause.or(break_by(late, entry, line)),
        ended: is_end(entry, line) || fact.ended,
    }
}

fn action_of_reply(reply: &Reply) -> Option<u32>
    ensures { result ≡ reply_action reply.now }
{
    match reply {
        Reply::Launch { action, .. }
        | Reply::Send { action, .. }
        | Reply::Matched { action, .. }
        | Reply::Late { action, .. } => Some(*action),
        _ => None,
    }
}

fn action_of_call(order: Option<&Entry>, call: &Call) -> Option<u32>
    ensures { result ≡ call_action (option_copied order.entry) call.now }
{
    match call {
        Call::Claim { action, .. } | Call::Committed { action, .. } => Some(*action),
        Call::Wrote { .. } => match sent_by(order) {
            Some(attempt) => Some(attempt.action),
            None => None,
        },
        Call::Launched { .. } => launched_action(order),
        _ => None,
    }
}

fn launched_action(order: Option<&Entry>) -> Option<u32>
    ensures { result ≡ option_map (λ t. t.action) (launch_of_entry (option_copied order.entry)) }
{
    match &order?.reply {
        Reply::Launch { action, .. } => Some(*action),
        _ => None,
    }
}

fn line_of_call(call: &Call) -> Option<u32>
    ensures { result ≡ broken_line call.now }
{
    match call {
        Call::Wrote { line, .. } | Call::Answer { line, .. } | Call::Ended { line, .. } => Some(
            *line,
        ),
        _ => None,
    }
}
