// The tables together, and how each call changes them.
ghost use Rattle.std.specs.Prelude.{◌≡◌, ◌≢◌, ◌<◌, ◌≤◌, ◌+◌, ◌^◌, length, slice_get, option_and_then, Some, ℕ};
ghost use Rattle.exec_journal.specs.Seated.{kind_for, kind_in};
ghost use Rattle.run_plan.specs.Groups.{group_of};
ghost use Rattle.worker_pool.specs.Rows.{pending_of, capacity_of, last_of};
ghost use Rattle.race_core.specs.Stands.{is_done};
ghost use Rattle.core_state.specs.Choices.{Reads, row_at};
ghost use Rattle.core_state.specs.Machine.{occupied, begun_by, CanEnd, CanEndOf, CanClaim, EndFits, launch_by, launched_with, killed_with, take_reply, takeable, taken_with, committed_with, claim_reply_by, claimed_with, granted_with, refusal, with_end, unbound_for, unbound_at, is_of_action, counts_after, states_after, states_spent, other_branch, uses_branch, CanSend, CanLaunch, CanCarry, sent, sent_reply, launched_for, launched_reply, carried, carried_reply};

use crate::Choice;
use cancel_rules::Cancels;
use core_tables::{Greetings, Lanes, LastLine, LastLines, Match, Matches, Owed};
use exec_journal::{Attempt, Branch, CommitEnd, Found, Kind, Plan, Reply, Started};
use race_core::Race;
use ready_order::Ready;
use request_table::Requests;
use retry_rules::{After, Attempts};
use worker_pool::Pool;

/// The state of a run: the plan, the tables, and whether a lane has halted.
#[derive(Drop)]
pub struct State {
    pub plan: Plan,
    pub pool: Pool,
    pub requests: Requests,
    pub cancels: Cancels,
    pub ready: Ready,
    pub race: Race,
    pub attempts: Attempts,
    pub lanes: Lanes,
    pub last: LastLines,
    pub greetings: Greetings,
    pub matches: Matches,
    pub halted: bool,
}

impl State {
    /// Applies a decision for the Ask of this berth's proxy lane: updates the tables and returns
    /// the order.
    pub fn carry_out(&mut self, berth: u32, choice: Choice) -> Reply
        requires { CanCarry self.old berth choice }
        ensures reply { result ≡ carried_reply self.old berth choice }
        ensures state { self.new ≡ carried self.old berth choice }
    {
        match choice {
            Choice::Stop => Reply::Stop,
            Choice::Kill { line, why } => Reply::Kill { line, why },
            Choice::Gather(found) => self.gather(found),
            Choice::Cancel { line, number } => self.cancel(line, number),
            Choice::Send { line, attempt } => self.send(berth, line, attempt),
            Choice::Launch(attempt) => self.launch(berth, attempt),
            Choice::Idle => Reply::Idle,
        }
    }

    fn gather(&mut self, found: Match) -> Reply
        ensures reply { result ≡ carried_reply self.old 0 (Choice.Gather found) }
        ensures state { self.new ≡ carried self.old 0 (Choice.Gather found) }
    {
        self.matches.spent(found.attempt);
        Reply::Gather {
            line: found.line,
            number: found.number,
            action: found.attempt.action,
            branch: found.attempt.branch,
            attempt: found.attempt.number,
            exit: found.exit,
            refused: found.refused,
        }
    }

    fn cancel(&mut self, line: u32, number: i32) -> Reply
        requires requests { line < length self.old.requests.lines }
        requires cancels { line < length self.old.cancels.lines }
        ensures reply { result ≡ Reply.Cancel line number }
        ensures state { self.new ≡ carried self.old 0 (Choice.Cancel line number) }
    {
        self.requests.cancelled(line, number);
        self.cancels.asked(line, number);
        Reply::Cancel { line, number }
    }

    fn send(&mut self, berth: u32, line: u32, attempt: Attempt) -> Reply
        requires { CanSend self.old berth line attempt }
        ensures reply { result ≡ sent_reply self.old line attempt }
        ensures state { self.new ≡ sent self.old berth line attempt (row_at self.old line).bound }
    {
        let bound = self.pool.line(line).bound;
        self.send_as(berth, line, attempt, bound)
    }

    // Sends the attempt that is bound to the line, or another one.
    fn send_as(&mut self, berth: u32, line: u32, attempt: Attempt, bound: bool) -> Reply
        requires { CanSend self.old berth line attempt }
        ensures reply { result ≡ sent_reply self.old line attempt }
        ensures state { self.new ≡ sent self.old berth line attempt bound }
    {
        let number = self
            .requests
            .send(line, attempt.action, attempt.branch, attempt.number);
        self.cancels.sent(line, number, attempt.action);
        occupy(&mut self.pool, line, bound);
        begin(&mut self.ready, attempt, bound);
        self.matches.sent(berth);
        Reply::Send {
            line,
            number,
            action: attempt.action,
            branch: attempt.branch,
            attempt: attempt.number,
        }
    }

    fn launch(&mut self, berth: u32, attempt: Attempt) -> Reply
        requires { CanLaunch self.old berth attempt }
        ensures reply { result ≡ launched_reply self.old attempt }
        ensures state { self.new ≡ launched_for self.old berth attempt }
    {
        let kind = kind_for(&self.plan, attempt);
        let line = self.pool.launch(berth, kind);
        self.ready.taken(attempt.action, attempt.branch);
        self.last.launched(berth, attempt);
        Reply::Launch {
            line,
            action: attempt.action,
            branch: attempt.branch,
            attempt: attempt.number,
        }
    }
}

impl State {
    /// Handles Launched: if the launch failed, ends the attempt that the line was launched for.
    pub fn launched(&mut self, lane: u32, line: u32, how: Started) -> Reply
        requires lane { lane < length self.old.lanes }
        requires line { line < length self.old.pool.lines }
        requires ends { CanEndOf self.old (launch_by self.old lane) }
        ensures reply { result ≡ Reply.Noted }
        ensures state { self.new ≡ launched_with self.old lane line how }
    {
        match how {
            Started::Done => self.pool.started(line),
            _ => {
                self.pool.unbound(line);
                if let Owed::Launch { attempt, .. } = self.lanes.state(lane).order {
                    self.end(attempt);
                }
            }
        }
        Reply::Noted
    }

    /// Handles Killed: marks the line as killed.
    pub fn killed(&mut self, line: u32) -> Reply
        requires { line < length self.old.pool.lines }
        ensures reply { result ≡ Reply.Noted }
        ensures state { self.new ≡ killed_with self.old line }
    {
        self.pool.killed(line);
        Reply::Noted
    }

    /// Handles Take: gives this berth's tap lane the berth's last line if that line was started and
    /// not yet taken.
    pub fn take(&mut self, berth: u32) -> Reply
        requires reads { Reads self.old berth }
        ensures reply { result ≡ take_reply self.old (takeable self.old berth) }
        ensures state { self.new ≡ taken_with self.old berth (takeable self.old berth) }
    {
        match self.takeable(berth) {
            Some(line) => {
                self.last.taken(berth);
                Reply::Line { line }
            }
            None if self.is_over() => Reply::Stop,
            None => Reply::Idle,
        }
    }

    // Returns the berth's last line, if it was launched with success and not yet given to a tap
    // lane.
    fn takeable(&self, berth: u32) -> Option<u32>
        requires { Reads self.now berth }
        ensures { result ≡ takeable self.now berth }
    {
        let line = self.pool.last_line(berth)?;
        if self.pool.line(line).started && !self.last.of(berth).taken {
            Some(line)
        } else {
            None
        }
    }

    /// Handles Committed: records whether all outputs of the granted branch were written, and settles
    /// the action.
    pub fn committed(&mut self, action: u32, how: CommitEnd) -> Reply
        requires race { action < length self.old.race }
        requires ready { action < length self.old.ready }
        ensures reply { result ≡ Reply.Noted }
        ensures state { self.new ≡ committed_with self.old action how }
    {
        let done = is_done(how);
        self.race.committed(action, done);
        self.ready.settle(action, done);
        Reply::Noted
    }

    /// Handles Claim of a gathered attempt: grants it the action, unless the action has a grant. Ends
    /// the attempt instead if it was refused or its outputs weren't found.
    pub fn claim(&mut self, attempt: Attempt, found: &Found) -> Reply
        requires { CanClaim self.old attempt }
        ensures reply { result ≡ claim_reply_by self.old attempt found.now }
        ensures state { self.new ≡ claimed_with self.old attempt found.now }
    {
        if self.race.winner(attempt.action).is_some() {
            return Reply::Lost;
        }
        match found {
            Found::Files(_) => self.grant(attempt),
            Found::Exit(_) => {
                let reply = self.grant(attempt);
                self.ready.settle(attempt.action, false);
                reply
            }
            _ => self.refuse(attempt),
        }
    }

    fn grant(&mut self, attempt: Attempt) -> Reply
        requires { CanClaim self.old attempt }
        ensures reply { result ≡ Reply.Granted }
        ensures state { self.new ≡ granted_with self.old attempt }
    {
        let _ = self.race.claim(attempt.action, attempt.branch);
        self.ready.unwanted(attempt.action);
        self.cancels.unwanted(attempt.action);
        self.matches.won(attempt.action);
        unbind(&mut self.pool, &self.last, attempt.action);
        Reply::Granted
    }

    fn refuse(&mut self, attempt: Attempt) -> Reply
        requires { CanEnd self.old attempt }
        ensures reply { result ≡ refusal self.old attempt }
        ensures state { self.new ≡ with_end self.old attempt }
    {
        self.end(attempt);
        if attempt.number < self.plan.limit {
            Reply::AgainLater
        } else {
            Reply::Dropped
        }
    }

    // Ends the attempt, unless it has ended or its action has a grant.
    pub fn end(&mut self, attempt: Attempt)
        requires { CanEnd self.old attempt }
        ensures { self.new ≡ with_end self.old attempt }
    {
        end_attempt(
            &self.plan,
            &self.race,
            &mut self.attempts,
            &mut self.ready,
            attempt,
        );
    }
}

// Returns the kind of the group that runs the attempt.
fn kind_for(plan: &Plan, attempt: Attempt) -> Kind
    ensures { result ≡ kind_for plan.now attempt }
{
    match group_of(plan, attempt.action, attempt.branch) {
        Some(group) => kind_in(plan, group),
        None => Kind::Single,
    }
}

fn kind_in(plan: &Plan, group: u32) -> Kind
    ensures { result ≡ kind_in plan.now (Some group) }
{
    match plan.groups.as_slice().get(group as usize) {
        Some(group) => group.kind,
        None => Kind::Single,
    }
}

fn is_done(how: CommitEnd) -> bool
    ensures { result ≡ is_done how }
{
    matches!(how, CommitEnd::Done)
}

// Unbinds the lines that were launched for the action.
fn unbind(pool: &mut Pool, last: &LastLines, action: u32)
    requires seats { length last.now ≤ length pool.old.seats }
    requires few { length last.now < 2 ^ 32 }
    requires lines { (v l : ℕ) → last_of pool.old v ≡ Some l → l < length pool.old.lines }
    ensures { pool.new ≡ unbound_for pool.old last.now action (length last.now) }
{
    for berth in 0..last.len() {
        unbind_at(pool, last.of(berth), berth, action);
    }
}

fn unbind_at(pool: &mut Pool, row: LastLine, berth: u32, action: u32)
    requires seat { berth < length pool.old.seats }
    requires lines { (v l : ℕ) → last_of pool.old v ≡ Some l → l < length pool.old.lines }
    ensures { pool.new ≡ unbound_at pool.old row berth action }
{
    if !is_of(row.attempt, action) {
        return;
    }
    if let Some(line) = pool.last_line(berth) {
        pool.unbound(line);
    }
}

fn is_of(attempt: Option<Attempt>, action: u32) -> bool
    ensures { result ≡ is_of_action attempt action }
{
    match attempt {
        Some(attempt) => attempt.action == action,
        None => false,
    }
}

pub fn end_attempt(
    plan: &Plan,
    race: &Race,
    attempts: &mut Attempts,
    ready: &mut Ready,
    attempt: Attempt,
)
    requires { EndFits race.now attempts.old ready.old attempt }
    ensures counts { attempts.new ≡ counts_after race.now attempts.old attempt }
    ensures states { ready.new ≡ states_after plan.now race.now attempts.old ready.old attempt }
{
    let action = attempt.action;
    let branch = attempt.branch;
    if race.winner(action).is_some() || attempt.number <= attempts.ended(action, branch) {
        return;
    }
    match attempts.after_end(action, branch) {
        After::Again(_) => ready.again(action, branch),
        After::Spent => settle_spent(plan, attempts, ready, action, branch),
    }
}

// Handles a dropped branch: settles the action if the other branch is dropped too, or isn't used.
fn settle_spent(plan: &Plan, attempts: &Attempts, ready: &mut Ready, action: u32, branch: Branch)
    requires counts { action < length attempts.now.ended }
    requires states { action < length ready.old }
    ensures { ready.new ≡ states_spent plan.now attempts.now ready.old action branch }
{
    ready.spent(action, branch);
    let rest = other(branch);
    if !uses(plan, action, rest) || attempts.ended(action, rest) >= plan.limit {
        ready.settle(action, false);
    }
}

fn other(branch: Branch) -> Branch
    ensures { result ≡ other_branch branch }
{
    match branch {
        Branch::Local => Branch::Remote,
        Branch::Remote => Branch::Local,
    }
}

fn uses(plan: &Plan, action: u32, branch: Branch) -> bool
    ensures { result ≡ uses_branch plan.now action branch }
{
    group_of(plan, action, branch).is_some()
}

// Returns the group that runs the branch, if the action uses it.
fn group_of(plan: &Plan, action: u32, branch: Branch) -> Option<u32>
    ensures { result ≡ option_and_then (λ x. group_of x branch)
        (slice_get plan.now.actions action) }
{
    let work = plan.actions.as_slice().get(action as usize)?;
    match branch {
        Branch::Local => work.local,
        Branch::Remote => work.remote,
    }
}

// Takes one place of the line, for the bound attempt or for another request.
fn occupy(pool: &mut Pool, line: u32, bound: bool)
    requires known { line < length pool.old.lines }
    requires place { pending_of pool.old line < capacity_of pool.old line }
    ensures { pool.new ≡ occupied pool.old line bound }
{
    pool.sent(line);
    if bound {
        pool.unbound(line);
    }
}

// Notes that the branch begins an attempt, unless the attempt is bound.
fn begin(ready: &mut Ready, attempt: Attempt, bound: bool)
    requires { attempt.action < length ready.old }
    ensures { ready.new ≡ begun_by ready.old attempt bound }
{
    if !bound {
        ready.taken(attempt.action, attempt.branch);
    }
}
