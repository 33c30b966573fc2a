// The reply to a Tick, its effect on the counts, and the actions that are known to wait.
ghost use Rattle.std.specs.Prelude.{◌≡◌, ◌&&◌, true, false};
ghost use Rattle.exec_journal.specs.Attempts.{begun_in};
ghost use Rattle.exec_journal.specs.Entries.{is_kept};
ghost use Rattle.placed_rules.specs.Due.{is_tick};
ghost use Rattle.ready_order.specs.Queue.{is_ready_at};
ghost use Rattle.placed_berths.specs.Due.{ReadsDelay, last_of, some_waits, ticked, waits_at};
ghost use Rattle.placed_berths.specs.Counts.{IsCounted, IsMarked, more};

use crate::delay::{Delay, is_dual};
use core_state::State;
use exec_journal::{Attempt, Branch, Call, Reply};
use ready_order::Ready;

impl Delay {
    /// Returns the reply to a Tick: Noted only while some local branch waits for more Ticks. So Ticks
    /// end by themselves.
    pub fn answer_tick(&self, state: &State) -> Reply
        requires { ReadsDelay self.now state.now }
        ensures { result ≡ ticked self.now state.now }
    {
        if state.is_over() {
            Reply::Stop
        } else if self.some_waits(state) {
            Reply::Noted
        } else {
            Reply::Idle
        }
    }

    fn some_waits(&self, state: &State) -> bool
        requires { ReadsDelay self.now state.now }
        ensures { result ≡ some_waits self.now state.now }
    {
        let count = state.plan.actions.as_slice().len() as u32;
        for action in 0..count {
            if self.waits(state, action) {
                return true;
            }
        }
        false
    }

    // Returns true if the local branch of the action waits for more Ticks.
    fn waits(&self, state: &State, action: u32) -> bool
        ensures { result ≡ waits_at self.now state.now action }
    {
        is_dual(state, action)
            && state.ready.is_ready(action)
            && state.ready.is_open(action)
            && self.count(action) < self.ticks
    }

    /// Notes a call with its reply: a Tick, or an attempt that a lane is told to begin.
    pub fn note(&mut self, state: &State, call: &Call, reply: &Reply)
        ensures ticks { self.new.ticks ≡ self.old.ticks }
        ensures counted { (is_tick call.now && is_kept reply.now) ≡ true
            → IsCounted state.now.ready self.old self.new }
        ensures marked { (is_tick call.now && is_kept reply.now) ≡ false
            → IsMarked (last_of state.now.plan.limit (begun_in reply.now)) self.old self.new }
    {
        if is_tick(call) && reply.is_kept() {
            self.count_tick(&state.ready);
        } else {
            self.mark_last(state.plan.limit, reply);
        }
    }

    // Counts one more Tick for each action whose inputs are made, and marks the actions that wait
    // no longer.
    fn count_tick(&mut self, ready: &Ready)
        ensures { IsCounted ready.now self.old self.new }
    {
        for number in 0..self.counts.len() {
            let count = more(ready, number as u32, self.ticks, self.counts[number]);
            self.counts[number] = count;
            if count >= self.ticks {
                self.marks[number] = 1;
            }
        }
    }

    // Marks an action whose remote branch begins its last attempt. The branch may be dropped, so
    // the local branch may go before the Ticks have come.
    fn mark_last(&mut self, limit: u32, reply: &Reply)
        ensures { IsMarked (last_of limit (begun_in reply.now)) self.old self.new }
    {
        if let Some(action) = last_of(limit, begun_in(reply)) {
            if let Some(mark) = self.marks.get_mut(action as usize) {
                *mark = 1;
            }
        }
    }
}

fn is_tick(call: &Call) -> bool
    ensures { result ≡ is_tick call.now }
{
    matches!(call, Call::Tick)
}

// Returns the action whose remote branch begins its last attempt.
fn last_of(limit: u32, begun: Option<Attempt>) -> Option<u32>
    ensures { result ≡ last_of limit begun }
{
    let attempt = begun?;
    if attempt.branch == Branch::Remote && attempt.number >= limit {
        Some(attempt.action)
    } else {
        None
    }
}

// Returns the attempt that a lane is told to begin.
fn begun_in(reply: &Reply) -> Option<Attempt>
    ensures { result ≡ begun_in reply.now }
{
    match reply {
        Reply::Launch {
            action,
            branch,
            attempt,
            ..
        }
        | Reply::Send {
            action,
            branch,
            attempt,
            ..
        } => Some(Attempt {
            action: *action,
            branch: *branch,
            number: *attempt,
        }),
        _ => None,
    }
}

// Returns one more than the action's count, up to `most`, if its inputs are made. If a Tick was
// counted before, they are, so the action isn't looked up.
fn more(ready: &Ready, action: u32, most: u32, count: u32) -> u32
    ensures { result ≡ more (is_ready_at ready.now action) most count }
{
    if count < most && (count > 0 || ready.is_ready(action)) {
        count + 1
    } else {
        count
    }
}
