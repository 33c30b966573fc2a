// The tables of the Ticks, and what is due in a group by them.
ghost use Rattle.std.specs.Prelude.{◌≡◌, ◌-◌, ◌^◌, ◌<◌, ◌≤◌, ℕ, false, IfOk, None, length, map, replicate};
ghost use Rattle.run_plan.specs.Sound.{Sound};
ghost use Rattle.core_state.specs.Choices.{Reads};
ghost use Rattle.placed_berths.specs.Counts.{count_at, is_marked};
ghost use Rattle.placed_berths.specs.Due.{AsksGroup, ReadsDelay, ReadsDue, branch_at, due_in, first_among, first_in, first_mark, has_waited, is_dropped, is_dual_at, may_wait, next_in, runs_executors};
ghost use Rattle.placed_berths.specs.Walked.{IsNextMark};

use crate::sought::{Sought, first_of_all};
use core_state::State;
use exec_journal::{Attempt, Branch, Kind, Plan, PlanAction};
use memchr::memchr;
use plain_values::NoMemory;
use std::alloc::Global;
use std::marker::Model;

/// Returns the next attempt of the least action whose branch in the group is due.
pub fn next_due(delay: &Option<Delay>, state: &State, berth: u32, group: u32) -> Option<Attempt>
    requires due { ReadsDue delay.now state.now }
    requires berth { Reads state.now berth }
    ensures { result ≡ next_in delay.now state.now group }
{
    let (action, branch) = first_due(delay, state, group)?;
    Some(Attempt {
        action,
        branch,
        number: state.attempts.ended(action, branch) + 1,
    })
}

/// Returns the least action whose branch in the group is due, with that branch.
pub fn first_due(delay: &Option<Delay>, state: &State, group: u32) -> Option<(u32, Branch)>
    requires { ReadsDue delay.now state.now }
    ensures { result ≡ due_in delay.now state.now group }
{
    match delay {
        Some(delay) => delay.first(state, group),
        None => state.ready.earliest(group),
    }
}

// The branches that are queued in a group and have waited.
#[derive(Clone, Copy)]
struct InGroup<'a> {
    delay: &'a Delay,
    state: &'a State,
    group: u32,
}

impl Sought for InGroup<'_> {
    ghost at = { λ x a. branch_at x.delay.now x.state.now x.group a };

    ghost can_ask = { λ x a. AsksGroup x.delay.now x.state.now a };

    fn branch(&self, action: u32) -> Option<Branch> {
        self.delay.branch(self.state, action, self.group)
    }
}

/// The counts of the Ticks. If an action uses both branches, its local one waits for `ticks` Ticks
/// since the action's inputs were made, or until the remote one is dropped.
#[derive(Drop)]
pub struct Delay {
    pub(crate) ticks: u32,
    // The number of Ticks since the action's inputs were made, up to `ticks`, for each action.
    pub(crate) counts: Vec<u32>,
    // A 1 for each action, unless its local branch is known to wait. So a search skips all actions
    // that are held back.
    pub(crate) marks: Vec<u8>,
}

impl Model for Delay {
    ghost use Rattle.std.specs.Prelude.{◌≡◌, ◌<◌, ◌^◌, length};
    ghost use Rattle.placed_berths.specs.Counts.{Facts};

    ghost Value = { Facts };

    ghost view = { λ d. record {
      ticks = d.ticks;
      counts = d.counts.items;
      marks = d.marks.items;
    } };

    ghost invariant = { λ d. (length d.counts.items ≡ length d.marks.items)
        × (length d.marks.items < 2 ^ 32) };
}

impl Delay {
    /// Makes the policy of a run before any Tick. With it, a local branch waits for `ticks` Ticks.
    ///
    /// # Errors
    ///
    /// Returns `NoMemory` if memory runs out for its tables. Its other calls take none.
    pub fn new(alloc: Global, plan: &Plan, ticks: u32) -> Result<Delay, NoMemory>
        requires { Sound plan.now }
        ensures { IfOk result (λ d. d ≡ record {
          ticks = ticks;
          counts = replicate (length plan.now.actions) 0;
          marks = map (first_mark plan.now ticks) plan.now.actions;
        }) }
    {
        let actions = plan.actions.as_slice();
        let counts = vec![in alloc; 0; actions.len()]?;
        let mut marks = Vec::with_capacity(alloc, actions.len())?;
        for action in actions {
            marks.push(first_mark(plan, ticks, action))?;
        }
        Ok(Delay {
            ticks,
            counts,
            marks,
        })
    }

    // Returns the least action whose branch in the group is queued and has waited, with that branch.
    fn first(&self, state: &State, group: u32) -> Option<(u32, Branch)>
        requires { ReadsDelay self.now state.now }
        ensures { result ≡ first_in self.now state.now group }
    {
        let (earliest, _) = state.ready.earliest(group)?;
        let sought = InGroup {
            delay: self,
            state,
            group,
        };
        // On executors hardly anything queued waits.
        if runs_executors(&state.plan, group) {
            let count = state.plan.actions.as_slice().len() as u32;
            first_of_all(&sought, earliest, count)
        } else {
            self.first_marked(&sought, earliest)
        }
    }

    /// Returns the first of the actions that has a branch, from this one on, where none has that
    /// isn't marked.
    pub fn first_marked<S: Sought>(&self, sought: &S, from: u32) -> Option<(u32, Branch)>
        requires asked { (a : ℕ) → a < length self.now.marks → S.can_ask sought.now a }
        requires unmarked { (a : ℕ) → is_marked self.now a ≡ false → S.at sought.now a ≡ None }
        requires from { from ≤ length self.now.marks }
        requires few { length self.now.marks < 2 ^ 32 }
        ensures { result ≡ first_among (S.at sought.now) from (length self.now.marks - from) }
    {
        let mut start = from;
        while let Some(action) = self.next_mark(start) {
            if let Some(branch) = sought.branch(action) {
                return Some((action, branch));
            }
            start = action + 1;
        }
        None
    }

    // Returns the least marked action from this one on.
    fn next_mark(&self, from: u32) -> Option<u32>
        requires { from ≤ length self.now.marks }
        ensures { IsNextMark self.now from result }
    {
        let place = memchr(1, &self.marks.as_slice()[from as usize..])?;
        Some(from + place as u32)
    }

    /// Returns the branch of the action that is queued in the group and has waited.
    pub fn branch(&self, state: &State, action: u32, group: u32) -> Option<Branch>
        requires actions { ReadsDelay self.now state.now }
        requires known { action < length state.now.ready }
        ensures { result ≡ branch_at self.now state.now group action }
    {
        let branch = state.ready.queued(action, group)?;
        if branch == Branch::Remote || self.has_waited(state, action) {
            Some(branch)
        } else {
            None
        }
    }

    fn has_waited(&self, state: &State, action: u32) -> bool
        requires { action < length state.now.attempts.ended }
        ensures { result ≡ has_waited self.now state.now action }
    {
        !is_dual(state, action) || self.count(action) >= self.ticks || is_dropped(state, action)
    }

    // Returns how many Ticks came since the inputs of the action were made, up to the delay.
    pub fn count(&self, action: u32) -> u32
        ensures { result ≡ count_at self.now action }
    {
        match self.counts.get(action as usize) {
            Some(count) => *count,
            None => 0,
        }
    }
}

// Returns 0 if the local branch of the action waits until a Tick comes, otherwise 1.
fn first_mark(plan: &Plan, ticks: u32, action: &PlanAction) -> u8
    ensures { result ≡ first_mark plan.now ticks action.now }
{
    if may_wait(plan, action) && ticks > 0 {
        0
    } else {
        1
    }
}

// Returns true if the action uses both branches, the remote one on executors.
fn may_wait(plan: &Plan, action: &PlanAction) -> bool
    ensures { result ≡ may_wait plan.now action.now }
{
    match action.remote {
        Some(group) => action.local.is_some() && runs_executors(plan, group),
        None => false,
    }
}

/// Returns true if the group is an executor's.
pub fn runs_executors(plan: &Plan, group: u32) -> bool
    ensures { result ≡ runs_executors plan.now group }
{
    match plan.groups.as_slice().get(group as usize) {
        Some(group) => group.kind == Kind::Remote,
        None => false,
    }
}

/// Returns true if the action uses both branches.
pub fn is_dual(state: &State, action: u32) -> bool
    ensures { result ≡ is_dual_at state.now action }
{
    match state.plan.actions.as_slice().get(action as usize) {
        Some(work) => work.local.is_some() && work.remote.is_some(),
        None => false,
    }
}

// Returns true if the remote branch of the action has no attempt left.
fn is_dropped(state: &State, action: u32) -> bool
    requires { action < length state.now.attempts.ended }
    ensures { result ≡ is_dropped state.now action }
{
    state.attempts.ended(action, Branch::Remote) >= state.plan.limit
}
