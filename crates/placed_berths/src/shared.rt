// The berths of pools: what stands at one, and the decision for its Ask.
ghost use Rattle.std.specs.Prelude.{◌≡◌, ◌<◌, [], ℕ, IfOk, List, Option, Some};
ghost use Rattle.std.specs.List.{list_any};
ghost use Rattle.run_plan.specs.Groups.{has_cancellation, is_remote};
ghost use Rattle.run_plan.specs.declared.plan.Plan.{Plan};
ghost use Rattle.exec_journal.specs.Entry.{Entry};
ghost use Rattle.exec_journal.specs.Legal.{after};
ghost use Rattle.exec_journal.specs.Seated.{kind_in};
ghost use Rattle.core_contract.specs.Disciplines.{LegalBy};
ghost use Rattle.core_state.specs.Choices.{Reads};
ghost use Rattle.placed_rules.specs.declared.pools.SharedPlan.{SharedPlan};
ghost use Rattle.placed_rules.specs.Placed.{pooled_discipline};
ghost use Rattle.placed_rules.specs.Placed as rules;
ghost use Rattle.placed_rules.specs.Pools.{SoundPools, berth_kind, pool_of, seats, usable, usable_seats};
ghost use Rattle.placed_berths.specs.Basis.{shared_by};
ghost use Rattle.placed_berths.specs.Choices.{ReadsShared, all_seats, evicts, launches, pool_choice, seat_here, seat_of, shared_choice, shared_seat};
ghost use Rattle.placed_berths.specs.Stands.{PoolsStand};

use crate::delay::{Delay, next_due};
use crate::homes::Pools;
use crate::lines::{group_at, holds};
use crate::order::{is_word, move_to_end, silent_berths};
use crate::pools::{is_executor, kind_of, pool_of};
use arrayvec::ArrayVec;
use core_state::{Choice, State};
use core_tables::BerthGroup;
use earliest_first::choose_first;
use exec_journal::{Call, Kind, Plan, Reply, Why};
use placed_rules::SharedPool;
use plain_values::{Items, NoMemory};
use std::alloc::Global;

/// The berths of pools, and the order in which they last sent a message.
#[derive(Drop)]
pub struct SharedBerths {
    pub(crate) pools: Pools,
    pub(crate) instances: u32,
    // The berths in the order of their last message, the one that was silent longest first.
    pub(crate) spoken: ArrayVec<u32, 64>,
}

impl SharedBerths {
    /// Creates the tables of these pools before any call. No other call takes memory.
    ///
    /// # Errors
    ///
    /// Returns `NoMemory` if memory runs out.
    pub fn new(
        alloc: Global,
        plan: &Plan,
        pools: Items<SharedPool>,
        instances: u32,
    ) -> Result<SharedBerths, NoMemory>
        requires { SoundPools (rules.shared_by plan.now pools instances) }
        ensures { IfOk result (λ x. PoolsStand (rules.shared_by plan.now pools instances) x []) }
    {
        let pools = Pools::of(alloc, plan.groups.as_slice().len(), pools)?;
        let spoken = silent_berths(pools.berths());
        Ok(SharedBerths {
            pools,
            instances,
            spoken,
        })
    }

    /// Returns the number of berths of the pools, or 0 if a run may not have as many.
    pub fn berths(&self) -> u32
        ensures { result ≡ usable_seats self.now.pools }
    {
        self.pools.berths()
    }

    /// Returns what is at the berth, or `None` if there is no such berth. With Ticks there is one
    /// more.
    pub fn seat(&self, delay: &Option<Delay>, state: &State, berth: u32) -> Option<BerthGroup>
        requires { ReadsShared (shared_by self.now state.now.plan) delay.now state.now }
        ensures { result
            ≡ shared_seat (shared_by self.now state.now.plan) delay.now state.now berth }
    {
        if berth < self.count_all(delay, state) {
            Some(self.seat_here(state, berth))
        } else {
            None
        }
    }

    // Returns the number of berths, with the one that is more.
    fn count_all(&self, delay: &Option<Delay>, state: &State) -> u32
        requires { ReadsShared (shared_by self.now state.now.plan) delay.now state.now }
        ensures { result ≡ all_seats (shared_by self.now state.now.plan) delay.now }
    {
        let berths = self.all_berths(state);
        match delay {
            Some(_) => berths + 1,
            None => berths,
        }
    }

    /// Returns the decision for the Ask of this berth's proxy lane.
    pub fn choose(&self, delay: &Option<Delay>, state: &State, berth: u32) -> Choice
        requires reads { ReadsShared (shared_by self.now state.now.plan) delay.now state.now }
        requires berth { berth < all_seats (shared_by self.now state.now.plan) delay.now }
        ensures { result ≡ shared_choice (shared_by self.now state.now.plan) delay.now state.now
            self.now.spoken.items berth }
    {
        let seat = self.seat_here(state, berth);
        let next = next_due(delay, state, berth, seat.group);
        if let Some(choice) = choose_first(state, berth, seat, next) {
            return choice;
        }
        self.choose_more(delay, state, berth)
            .unwrap_or(Choice::Idle)
    }

    /// Notes that the berth of the lane has sent a message, if the call reports one.
    pub fn note(&mut self, lane: u32, call: &Call, reply: &Reply)
        ensures pools { self.new.pools ≡ self.old.pools }
        ensures instances { self.new.instances ≡ self.old.instances }
        ensures stands { (q : SharedPlan) (ticks : Option ℕ) (j : List Entry)
            → PoolsStand q self.old j
            → LegalBy (pooled_discipline (usable q) ticks) (after j lane call.now reply.now)
            → PoolsStand q self.new (after j lane call.now reply.now) }
    {
        if is_word(call) && reply.is_kept() {
            move_to_end(&mut self.spoken, lane / 2);
        }
    }

    // Returns what is at the berth: its line's group, if it has a line.
    fn seat_here(&self, state: &State, berth: u32) -> BerthGroup
        requires { Reads state.now berth }
        ensures { result ≡ seat_here (shared_by self.now state.now.plan) state.now berth }
    {
        match group_at(state, berth) {
            Some(group) => seat_of(&state.plan, kind_of(&state.plan, group), group),
            None => seat_of(&state.plan, self.berth_kind(&state.plan, berth), 0),
        }
    }

    // Returns the kind of a berth without a line.
    fn berth_kind(&self, plan: &Plan, berth: u32) -> Kind
        ensures { result ≡ berth_kind (shared_by self.now plan.now) berth }
    {
        match pool_of(self.pools.as_slice(), berth) {
            Some(pool) if has_executor(plan, pool) => Kind::Remote,
            _ => Kind::Single,
        }
    }

    // Returns the pool's order for the berth: give up the line there, or launch a line for a
    // starved group. The berth that is one more is of no pool.
    fn choose_more(&self, delay: &Option<Delay>, state: &State, berth: u32) -> Option<Choice>
        requires { ReadsShared (shared_by self.now state.now.plan) delay.now state.now }
        ensures { result ≡ pool_choice (shared_by self.now state.now.plan) delay.now state.now
            self.now.spoken.items berth (pool_of (shared_by self.now state.now.plan) berth) }
    {
        let pool = pool_of(self.pools.as_slice(), berth)?;
        if let Some(kill) = self.evict(delay, state, berth, pool) {
            return Some(kill);
        }
        self.launch(delay, state, berth, pool)
    }

    fn evict(
        &self,
        delay: &Option<Delay>,
        state: &State,
        berth: u32,
        pool: &SharedPool,
    ) -> Option<Choice>
        requires shared { ReadsShared (shared_by self.now state.now.plan) delay.now state.now }
        requires berth { berth < seats (shared_by self.now state.now.plan) }
        requires own { pool_of (shared_by self.now state.now.plan) berth ≡ Some pool.now }
        ensures { result ≡ evicts (shared_by self.now state.now.plan) delay.now state.now
            self.now.spoken.items berth pool.now }
    {
        let line = state.pool.last_line(berth)?;
        if self.may_evict(delay, state, berth, pool) {
            Some(Choice::Kill {
                line,
                why: Why::Evicted,
            })
        } else {
            None
        }
    }

    fn launch(
        &self,
        delay: &Option<Delay>,
        state: &State,
        berth: u32,
        pool: &SharedPool,
    ) -> Option<Choice>
        requires shared { ReadsShared (shared_by self.now state.now.plan) delay.now state.now }
        requires berth { berth < seats (shared_by self.now state.now.plan) }
        requires own { pool_of (shared_by self.now state.now.plan) berth ≡ Some pool.now }
        ensures { result
            ≡ launches (shared_by self.now state.now.plan) delay.now state.now berth pool.now }
    {
        if holds(state, berth) {
            return None;
        }
        let attempt = self.next_starved(delay, state, berth, pool)?;
        Some(Choice::Launch(attempt))
    }
}

/// Returns true if a group of the pool is an executor's.
pub fn has_executor(plan: &Plan, pool: &SharedPool) -> bool
    ensures { result ≡ list_any (λ g. is_remote (kind_in plan.now (Some g))) pool.now.groups }
{
    for group in pool.groups.as_slice() {
        if is_executor(plan, *group) {
            return true;
        }
    }
    false
}

fn has_cancellation(plan: &Plan, group: u32) -> bool
    ensures { result ≡ has_cancellation plan.now group }
{
    match plan.groups.as_slice().get(group as usize) {
        Some(group) => group.cancel,
        None => false,
    }
}

fn seat_of(plan: &Plan, kind: Kind, group: u32) -> BerthGroup
    ensures { result ≡ record {
      group = group;
      first = 0;
      berths = 0;
      kind = kind;
      cancel = has_cancellation plan.now group;
    } }
{
    BerthGroup {
        group,
        first: 0,
        berths: 0,
        kind,
        cancel: has_cancellation(plan, group),
    }
}
