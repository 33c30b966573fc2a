//! The queued branches, and what each group begins next.
#![tactic(auto)]

ghost use Rattle.std.specs.Prelude.{◌≡◌, ◌<◌, ◌≤◌, ◌^◌, ◌&&◌, ℕ, not, true, is_some, IfOk, if◌then◌else◌, [], length};
ghost use Rattle.exec_journal.specs.declared.ends.Standing.TheVariants.{Succeeded, Unsuccessful};
ghost use Rattle.exec_journal.specs.Settled.{is_settled};
ghost use Rattle.list_lemmas.specs.Places.{update};
ghost use Rattle.run_plan.specs.declared.plan.Branch.{Branch};
ghost use Rattle.ready_order.specs.Queue.{earliest_in, granted_state, least_among, none_waits, new_standing, new_state, new_states, is_of, is_of_any, is_open, is_open_at, is_queued, is_ready_at, has_success, queued_at, IsEarliest, settled_state, state_with, with_taken, with_again, with_unwanted, with_settled};
ghost use Rattle.ready_order.specs.Board.{queued_among_if, queued_if};
ghost use Rattle.ready_order.specs.Stands.{Stands};

mod board;
mod group_set;
pub mod laws;
mod queues;
mod users;
mod winner_tree;

use crate::board::Board;
use crate::users::Users;
use crate::winner_tree::ABSENT;
use exec_journal::{Branch, Plan, PlanAction, Standing};
pub use group_set::GroupSet;
use plain_values::{Items, NoMemory};
use run_progress::Notes;
use std::alloc::Global;
use std::marker::Model;

/// The state of an action's branch: the group that runs it, if the action uses the branch, and
/// whether it may begin an attempt. It may if none of its attempts is under way and one more is
/// allowed.
#[derive(Clone, Copy, PartialEq, Eq)]
pub struct BranchState {
    pub group: Option<u32>,
    pub free: bool,
}

/// The state of an action: the actions that make its inputs, its branches, whether a branch was
/// granted, and its own standing. The standing follows from its own grant, commit and drops,
/// regardless of its producers.
#[derive(Drop)]
pub struct ActionState {
    pub producers: Items<u32>,
    pub local: BranchState,
    pub remote: BranchState,
    pub granted: bool,
    pub own: Standing,
}

/// The states of a plan's actions, by which their branches are queued. A contract sees the list of
/// these states.
#[derive(Drop)]
pub struct Ready {
    actions: Vec<ActionState>,
    users: Users,
    // Follows the states at each call.
    board: Board,
    // No contract covers what is noted here.
    notes: Notes,
}

impl Model for Ready {
    ghost use Rattle.std.specs.Prelude.{List};
    ghost use Rattle.ready_order.specs.declared.ActionState.{ActionState};
    ghost use Rattle.ready_order.specs.Board.{IsNoted};

    ghost Value = { List ActionState };

    ghost view = { λ r. r.actions.items };

    ghost invariant = { λ r. IsNoted r.actions.items r.users r.board };
}

impl Ready {
    /// Creates the table of a run in which nothing has begun. No other call takes memory.
    ///
    /// # Errors
    ///
    /// Returns `NoMemory` if memory runs out.
    pub fn new(alloc: Global, plan: &Plan) -> Result<Ready, NoMemory>
        requires { length plan.now.actions ≤ 2 ^ 32 }
        ensures states { IfOk result (λ t. t ≡ new_states plan.now) }
        ensures stands { IfOk result (λ t. Stands plan.now t []) }
    {
        let works = plan.actions.as_slice();
        let mut actions = Vec::with_capacity(alloc, works.len())?;
        for work in works {
            actions.push(ActionState::of(alloc, work)?)?;
        }
        let users = Users::of(alloc, actions.as_slice())?;
        let board = Board::of(alloc, actions.as_slice())?;
        Ok(Ready {
            actions,
            users,
            board,
            notes: Notes::nowhere(),
        })
    }

    /// Notes in `notes`, from now on, which attempts begin, which end, and which actions are
    /// settled.
    pub fn watch(&mut self, notes: Notes)
        ensures { self.new ≡ self.old }
    {
        notes.sized(self.actions.len());
        self.notes = notes;
    }

    /// Notes that the action is settled by itself. With `success`, it was committed whole. Without,
    /// it was not, or it was granted an exit code, or its last branch was dropped.
    pub fn settle(&mut self, action: u32, success: bool)
        requires { action < length self.old }
        ensures { self.new ≡ with_settled self.old action success }
    {
        let number = action as usize;
        let users = self
            .users
            .affected(self.actions.as_slice(), action, success);
        self.actions[number].settle(success);
        self.board.follow(self.actions.as_slice(), users, success);
        self.board.refresh(self.actions.as_slice(), number);
        self.notes.settled(action, success);
    }

    /// Returns the group's queued branch of the least action, with that action. Returns `None`
    /// exactly if nothing of the group is queued.
    pub fn earliest(&self, group: u32) -> Option<(u32, Branch)>
        ensures first { IsEarliest self.now group result }
        ensures search { result ≡ earliest_in self.now group }
    {
        let first = self.board.first(group);
        if first == ABSENT {
            return None;
        }
        let branch = self.actions[first as usize].queued_if(true, group)?;
        Some((first as u32, branch))
    }

    /// Returns the least action with a branch queued in a group of the set, with that branch. If
    /// both branches are queued, it returns the local one.
    ///
    /// The set is queried only for groups with something queued, and for few of them. The first is
    /// the group whose least action is the least of all. A later group is queried only if its least
    /// action comes before the best that was found.
    pub fn least_among<G: GroupSet>(&self, groups: &G) -> Option<(u32, Branch)>
        requires { (g a : ℕ) (b : Branch) → is_queued self.now g a b ≡ true
            → G.can_ask groups.now g }
        ensures { result ≡ least_among self.now (G.contains groups.now) }
    {
        let first = self.board.least_among(groups);
        if first == ABSENT {
            return None;
        }
        let branch = self.actions[first as usize].queued_among(true, groups)?;
        Some((first as u32, branch))
    }

    /// Returns the action's branch that is queued in the group: the local one if both are.
    pub fn queued(&self, action: u32, group: u32) -> Option<Branch>
        requires { action < length self.now }
        ensures { result ≡ queued_at self.now group action }
    {
        let number = action as usize;
        let state = &self.actions[number];
        let ready = self
            .board
            .has_supplied(number, state.producers.as_slice().len());
        state.queued_if(ready, group)
    }

    /// Returns true if every producer of the action has success. An action of an unknown number
    /// isn't ready.
    pub fn is_ready(&self, action: u32) -> bool
        ensures { result ≡ is_ready_at self.now action }
    {
        let number = action as usize;
        match self.actions.get(number) {
            Some(state) => self
                .board
                .has_supplied(number, state.producers.as_slice().len()),
            None => false,
        }
    }

    /// Returns true if the action isn't settled by itself and has no grant. An action of an unknown
    /// number isn't open.
    pub fn is_open(&self, action: u32) -> bool
        ensures { result ≡ is_open_at self.now action }
    {
        match self.actions.get(action as usize) {
            Some(state) => state.is_open(),
            None => false,
        }
    }

    /// Returns true if every action is settled: each that isn't settled by itself has a producer
    /// without success.
    pub fn all_settled(&self) -> bool
        ensures { result ≡ none_waits self.now }
    {
        self.board.first_waiting() == ABSENT
    }

    /// Notes that the branch has begun an attempt.
    pub fn taken(&mut self, action: u32, branch: Branch)
        requires { action < length self.old }
        ensures { self.new ≡ with_taken self.old action branch }
    {
        self.set_free(action, branch, false);
        self.notes.began(action, branch);
    }

    /// Notes that the branch's latest attempt has ended below the limit.
    pub fn again(&mut self, action: u32, branch: Branch)
        requires { action < length self.old }
        ensures { self.new ≡ with_again self.old action branch }
    {
        self.set_free(action, branch, true);
        self.notes.ended(action, branch);
    }

    /// Notes that the branch's latest attempt has ended at the limit. The call changes no state by
    /// itself.
    pub fn spent(&self, action: u32, branch: Branch) {
        self.notes.ended(action, branch);
    }

    /// Notes that a branch of the action was granted, so that no further attempt is wanted.
    pub fn unwanted(&mut self, action: u32)
        requires { action < length self.old }
        ensures { self.new ≡ with_unwanted self.old action }
    {
        let number = action as usize;
        self.actions[number].grant();
        self.board.refresh(self.actions.as_slice(), number);
    }

    // Notes whether the branch may begin an attempt.
    fn set_free(&mut self, action: u32, branch: Branch, free: bool)
        requires { action < length self.old }
        ensures { self.new ≡ update (state_with branch free) self.old action }
    {
        let number = action as usize;
        self.actions[number].set_free(branch, free);
        self.board.refresh(self.actions.as_slice(), number);
    }
}

impl BranchState {
    fn new(group: Option<u32>) -> BranchState
        ensures { result ≡ record { group = group; free = true } }
    {
        BranchState { group, free: true }
    }

    fn is_of(self, group: u32) -> bool
        ensures { result ≡ is_of group self }
    {
        match self.group {
            Some(own) => own == group,
            None => false,
        }
    }

    fn is_of_any<G: GroupSet>(self, groups: &G) -> bool
        requires { (g : ℕ) → is_of g self ≡ true → G.can_ask groups.now g }
        ensures { result ≡ is_of_any (G.contains groups.now) self }
    {
        match self.group {
            Some(own) => groups.contains(own),
            None => false,
        }
    }
}

impl ActionState {
    fn of(alloc: Global, work: &PlanAction) -> Result<ActionState, NoMemory>
        ensures { IfOk result (λ s. s ≡ new_state work.now) }
    {
        let makers = work.makers.as_slice();
        let producers = makers.iter().map(|maker| maker.action).collect(alloc)?;
        Ok(ActionState {
            producers: Items::of(producers),
            local: BranchState::new(work.local),
            remote: BranchState::new(work.remote),
            granted: false,
            own: standing_at_start(work),
        })
    }

    fn set_free(&mut self, branch: Branch, free: bool)
        ensures { self.new ≡ state_with branch free self.old }
    {
        match branch {
            Branch::Local => self.local.free = free,
            Branch::Remote => self.remote.free = free,
        }
    }

    fn grant(&mut self)
        ensures { self.new ≡ granted_state self.old }
    {
        self.granted = true;
    }

    fn settle(&mut self, success: bool)
        ensures { self.new ≡ settled_state success self.old }
    {
        self.own = standing_by(success);
    }

    // Returns the action's branch that is queued in the group if its producers are ready: the local
    // one if both are.
    fn queued_if(&self, ready: bool, group: u32) -> Option<Branch>
        ensures { result ≡ queued_if ready group self.now }
    {
        if self.may_begin(ready, group, self.local) {
            Some(Branch::Local)
        } else if self.may_begin(ready, group, self.remote) {
            Some(Branch::Remote)
        } else {
            None
        }
    }

    fn may_begin(&self, ready: bool, group: u32, seat: BranchState) -> bool
        ensures { result ≡ (is_of group seat && (seat.free && (is_open self.now && ready))) }
    {
        seat.is_of(group) && seat.free && self.is_open() && ready
    }

    // Returns the action's branch that is queued in a group of the set if its producers are ready:
    // the local one if both are. The set isn't queried for a branch that isn't queued.
    fn queued_among<G: GroupSet>(&self, ready: bool, groups: &G) -> Option<Branch>
        requires { (g : ℕ) → is_some (queued_if ready g self.now) ≡ true
            → G.can_ask groups.now g }
        ensures { result ≡ queued_among_if ready (G.contains groups.now) self.now }
    {
        if self.may_begin_among(ready, groups, self.local) {
            Some(Branch::Local)
        } else if self.may_begin_among(ready, groups, self.remote) {
            Some(Branch::Remote)
        } else {
            None
        }
    }

    fn may_begin_among<G: GroupSet>(&self, ready: bool, groups: &G, seat: BranchState) -> bool
        requires { (g : ℕ)
            → (is_of g seat && (seat.free && (is_open self.now && ready))) ≡ true
            → G.can_ask groups.now g }
        ensures { result ≡ (seat.free && (is_open self.now && ready)
            && is_of_any (G.contains groups.now) seat) }
    {
        seat.free && self.is_open() && ready && seat.is_of_any(groups)
    }

    // Returns true if the action isn't settled by itself and its producers are ready.
    fn waits(&self, ready: bool) -> bool
        ensures { result ≡ (not (is_settled self.now.own) && ready) }
    {
        self.own == Standing::Open && ready
    }

    // Returns true if the action isn't settled by itself and has no grant.
    fn is_open(&self) -> bool
        ensures { result ≡ is_open self.now }
    {
        !self.granted && self.own == Standing::Open
    }
}

fn standing_at_start(work: &PlanAction) -> Standing
    ensures { result ≡ new_standing work.now }
{
    if work.local.is_none() && work.remote.is_none() {
        Standing::Unsuccessful
    } else {
        Standing::Open
    }
}

fn standing_by(success: bool) -> Standing
    ensures { result ≡ (if success then Succeeded else Unsuccessful) }
{
    if success {
        Standing::Succeeded
    } else {
        Standing::Unsuccessful
    }
}

fn has_success(actions: &[ActionState], action: u32) -> bool
    ensures { result ≡ has_success actions.now action }
{
    match actions.get(action as usize) {
        Some(state) => state.own == Standing::Succeeded,
        None => false,
    }
}
