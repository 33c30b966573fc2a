// The starved groups of a pool, the launches for them, and the line that is given up.
ghost use Rattle.std.specs.Prelude.{◌≡◌, ◌*◌, ◌<◌, ◌==◌, ◌&&◌, Some, not, length, option_and_then};
ghost use Rattle.std.specs.List.{list_any};
ghost use Rattle.core_state.specs.Choices.{Reads};
ghost use Rattle.placed_rules.specs.Needs.{most_lines};
ghost use Rattle.placed_rules.specs.Pools.{has_group, pool_at, pool_of, same_pool, seats};
ghost use Rattle.placed_berths.specs.Basis.{shared_by};
ghost use Rattle.placed_berths.specs.Choices.{ReadsPools, ReadsShared};
ghost use Rattle.placed_berths.specs.Due.{ReadsDelay, ReadsDue};
ghost use Rattle.placed_berths.specs.Pooled.{first_starved, goes_before, is_starved, lacking_at, lacking_in, lacks_line, may_evict, may_go, next_starved, some_before};
ghost use Rattle.placed_berths.specs.Starved.{AsksPool, MayAsk, starved_in};
ghost use Rattle.shared_laws.specs.Berths.{holds, some_vacant};

use crate::delay::{Delay, first_due};
use crate::lines::{group_at, holds, is_killed, lines_held, rests, some_free};
use crate::order::is_before;
use crate::pools::{is_executor, pool_at};
use crate::shared::{SharedBerths, has_executor};
use crate::sought::{Sought, first_of_all};
use core_state::State;
use exec_journal::{Attempt, Branch, Plan};
use placed_rules::SharedPool;
use ready_order::GroupSet;

// The groups of the pool at this place that lack a line and have something queued.
#[derive(Clone, Copy)]
struct StarvedGroups<'a> {
    shared: &'a SharedBerths,
    state: &'a State,
    pool: &'a SharedPool,
    place: usize,
}

impl StarvedGroups<'_> {
    // Returns true if the group is one of the pool's, and lacks a line.
    fn lacks_line(&self, group: u32) -> bool
        requires { MayAsk self.now.shared.now self.now.state.now self.now.pool.now self.now.place }
        ensures { result ≡ (has_group self.now.pool.now group && lacks_line (shared_by
            self.now.shared.now self.now.state.now.plan) self.now.state.now self.now.pool.now group) }
    {
        let home = self.shared.pools.is_home(self.place, group);
        home && self.shared.lacks_line(self.state, self.pool, group)
    }
}

impl GroupSet for StarvedGroups<'_> {
    ghost contains = { λ x g. starved_in (shared_by x.shared.now x.state.now.plan)
        x.state.now x.pool.now g };

    ghost can_ask = { λ x _. MayAsk x.shared.now x.state.now x.pool.now x.place };

    fn contains(&self, group: u32) -> bool {
        self.shared.pools.is_home(self.place, group)
            && self.state.ready.earliest(group).is_some()
            && self.shared.lacks_line(self.state, self.pool, group)
    }
}

// The branches that have waited in groups of the pool that lack a line.
#[derive(Clone, Copy)]
struct InStarved<'a> {
    delay: &'a Delay,
    groups: &'a StarvedGroups<'a>,
}

impl InStarved<'_> {
    // Returns the branch of the action that goes in this group.
    fn branch_in(&self, action: u32, group: Option<u32>) -> Option<Branch>
        requires { AsksPool self.now.delay.now self.now.groups.now.shared.now
            self.now.groups.now.state.now self.now.groups.now.pool.now self.now.groups.now.place
            action }
        ensures { result ≡ option_and_then (lacking_in (shared_by self.now.groups.now.shared.now
            self.now.groups.now.state.now.plan) self.now.delay.now self.now.groups.now.state.now
            self.now.groups.now.pool.now action) group }
    {
        let group = group?;
        let branch = self.delay.branch(self.groups.state, action, group)?;
        if self.groups.lacks_line(group) {
            Some(branch)
        } else {
            None
        }
    }
}

impl Sought for InStarved<'_> {
    ghost at = { λ x a. lacking_at (shared_by x.groups.now.shared.now x.groups.now.state.now.plan)
        x.delay.now x.groups.now.state.now x.groups.now.pool.now a };

    ghost can_ask = { λ x a. AsksPool x.delay.now x.groups.now.shared.now x.groups.now.state.now
        x.groups.now.pool.now x.groups.now.place a };

    fn branch(&self, action: u32) -> Option<Branch> {
        let work = self
            .groups
            .state
            .plan
            .actions
            .as_slice()
            .get(action as usize)?;
        match self.branch_in(action, work.local) {
            Some(branch) => Some(branch),
            None => self.branch_in(action, work.remote),
        }
    }
}

impl SharedBerths {
    // Returns how many lines the group may hold.
    fn most_lines(&self, plan: &Plan, pool: &SharedPool, group: u32) -> u32
        ensures { result ≡ most_lines (shared_by self.now plan.now) pool.now group }
    {
        if is_executor(plan, group) {
            pool.berths
        } else {
            self.instances
        }
    }

    /// Returns the number of berths of the pools.
    pub fn all_berths(&self, state: &State) -> u32
        requires { ReadsPools (shared_by self.now state.now.plan) state.now }
        ensures { result ≡ seats (shared_by self.now state.now.plan) }
    {
        self.pools.berths()
    }

    // Returns true if no line of the group has a free place, and it holds fewer lines than it may.
    fn lacks_line(&self, state: &State, pool: &SharedPool, group: u32) -> bool
        requires { ReadsPools (shared_by self.now state.now.plan) state.now }
        ensures { result
            ≡ lacks_line (shared_by self.now state.now.plan) state.now pool.now group }
    {
        let berths = self.all_berths(state);
        !some_free(state, group, berths)
            && lines_held(state, group, berths) < self.most_lines(&state.plan, pool, group)
    }

    // Returns true if some group of the berth's pool is starved.
    fn some_starved(
        &self,
        delay: &Option<Delay>,
        state: &State,
        berth: u32,
        pool: &SharedPool,
    ) -> bool
        requires shared { ReadsShared (shared_by self.now state.now.plan) delay.now state.now }
        requires own { pool_of (shared_by self.now state.now.plan) berth ≡ Some pool.now }
        ensures { result
            ≡ list_any (is_starved (shared_by self.now state.now.plan) delay.now state.now pool.now)
            pool.now.groups }
    {
        match delay {
            None => self.first_starved(delay, state, berth, pool).is_some(),
            Some(_) => self.some_due(delay, state, pool),
        }
    }

    // Returns true if some group of the pool is starved, by a look at each.
    fn some_due(&self, delay: &Option<Delay>, state: &State, pool: &SharedPool) -> bool
        requires { ReadsShared (shared_by self.now state.now.plan) delay.now state.now }
        ensures { result
            ≡ list_any (is_starved (shared_by self.now state.now.plan) delay.now state.now pool.now)
            pool.now.groups }
    {
        for group in pool.groups.as_slice() {
            if self.is_starved(delay, state, pool, *group) {
                return true;
            }
        }
        false
    }

    // Returns true if something of the group is due, and it lacks a line.
    fn is_starved(
        &self,
        delay: &Option<Delay>,
        state: &State,
        pool: &SharedPool,
        group: u32,
    ) -> bool
        requires { ReadsShared (shared_by self.now state.now.plan) delay.now state.now }
        ensures { result
            ≡ is_starved (shared_by self.now state.now.plan) delay.now state.now pool.now group }
    {
        first_due(delay, state, group).is_some() && self.lacks_line(state, pool, group)
    }

    // Returns the first of all branches that are due in a starved group of the berth's pool.
    fn first_starved(
        &self,
        delay: &Option<Delay>,
        state: &State,
        berth: u32,
        pool: &SharedPool,
    ) -> Option<(u32, Branch)>
        requires shared { ReadsShared (shared_by self.now state.now.plan) delay.now state.now }
        requires own { pool_of (shared_by self.now state.now.plan) berth ≡ Some pool.now }
        ensures { result ≡ first_starved (shared_by self.now state.now.plan) delay.now state.now
            pool.now }
    {
        let groups = StarvedGroups {
            shared: self,
            state,
            pool,
            place: pool_at(self.pools.as_slice(), berth),
        };
        match delay {
            None => state.ready.least_among(&groups),
            Some(delay) => first_lacking(delay, &groups),
        }
    }

    /// Returns the attempt to launch for the pool: the next attempt of that branch.
    pub fn next_starved(
        &self,
        delay: &Option<Delay>,
        state: &State,
        berth: u32,
        pool: &SharedPool,
    ) -> Option<Attempt>
        requires shared { ReadsShared (shared_by self.now state.now.plan) delay.now state.now }
        requires own { pool_of (shared_by self.now state.now.plan) berth ≡ Some pool.now }
        requires reads { Reads state.now berth }
        ensures { result
            ≡ next_starved (shared_by self.now state.now.plan) delay.now state.now pool.now }
    {
        match self.first_starved(delay, state, berth, pool) {
            Some((action, branch)) => Some(Attempt {
                action,
                branch,
                number: state.attempts.ended(action, branch) + 1,
            }),
            None => None,
        }
    }

    // Returns true if the two berths are of one pool.
    fn same_pool(&self, one: u32, other: u32) -> bool
        ensures { result ≡ (pool_at self.now.pools 0 one == pool_at self.now.pools 0 other) }
    {
        pool_at(self.pools.as_slice(), one) == pool_at(self.pools.as_slice(), other)
    }

    // Returns true if a berth of this berth's pool is vacant.
    fn some_vacant(&self, state: &State, berth: u32) -> bool
        requires { ReadsPools (shared_by self.now state.now.plan) state.now }
        ensures { result ≡ some_vacant (shared_by self.now state.now.plan) state.now berth
            (seats (shared_by self.now state.now.plan)) }
    {
        let berths = self.all_berths(state);
        for other in 0..berths {
            if self.is_vacant(state, berth, other) {
                return true;
            }
        }
        false
    }

    // Returns true if the other berth is of the same pool and vacant.
    fn is_vacant(&self, state: &State, berth: u32, other: u32) -> bool
        requires lane { 2 * other < length state.now.lanes }
        requires reads { Reads state.now other }
        ensures { result ≡ (same_pool (shared_by self.now state.now.plan) other berth
            && not (holds state.now other)) }
    {
        self.same_pool(other, berth) && !holds(state, other)
    }

    // Returns true if the line of the other berth was killed and hasn't ended, or if it may go and
    // has been silent for longer.
    fn goes_before(&self, delay: &Option<Delay>, state: &State, berth: u32, other: u32) -> bool
        requires due { ReadsDue delay.now state.now }
        requires lane { 2 * other < length state.now.lanes }
        requires reads { Reads state.now other }
        ensures { result
            ≡ goes_before delay.now state.now self.now.spoken.items berth other }
    {
        is_killed(state, other)
            || may_go(delay, state, other)
                && other != berth
                && is_before(other, berth, self.spoken.as_slice())
    }

    // Returns true if the line of some berth of the pool goes before this berth's line.
    fn some_before(&self, delay: &Option<Delay>, state: &State, berth: u32) -> bool
        requires { ReadsShared (shared_by self.now state.now.plan) delay.now state.now }
        ensures { result ≡ some_before (shared_by self.now state.now.plan) delay.now state.now
            self.now.spoken.items berth (seats (shared_by self.now state.now.plan)) }
    {
        let berths = self.all_berths(state);
        for other in 0..berths {
            if self.goes_first(delay, state, berth, other) {
                return true;
            }
        }
        false
    }

    // Returns true if the other berth is of the same pool and its line goes before this berth's
    // line.
    fn goes_first(&self, delay: &Option<Delay>, state: &State, berth: u32, other: u32) -> bool
        requires due { ReadsDue delay.now state.now }
        requires lane { 2 * other < length state.now.lanes }
        requires reads { Reads state.now other }
        ensures { result ≡ (same_pool (shared_by self.now state.now.plan) other berth
            && goes_before delay.now state.now self.now.spoken.items berth other) }
    {
        self.same_pool(other, berth) && self.goes_before(delay, state, berth, other)
    }

    /// Returns true if the line of this berth of the pool is given up for a starved group.
    pub fn may_evict(
        &self,
        delay: &Option<Delay>,
        state: &State,
        berth: u32,
        pool: &SharedPool,
    ) -> bool
        requires shared { ReadsShared (shared_by self.now state.now.plan) delay.now state.now }
        requires berth { berth < seats (shared_by self.now state.now.plan) }
        requires own { pool_of (shared_by self.now state.now.plan) berth ≡ Some pool.now }
        ensures { result ≡ may_evict (shared_by self.now state.now.plan) delay.now state.now
            self.now.spoken.items berth pool.now }
    {
        may_go(delay, state, berth)
            && self.some_starved(delay, state, berth, pool)
            && !self.some_vacant(state, berth)
            && !self.some_before(delay, state, berth)
    }
}

// Returns the first branch that has waited in a group of the pool that lacks a line.
fn first_lacking(delay: &Delay, groups: &StarvedGroups) -> Option<(u32, Branch)>
    requires due { ReadsDelay delay.now groups.now.state.now }
    requires pool { MayAsk groups.now.shared.now groups.now.state.now groups.now.pool.now
        groups.now.place }
    ensures { result ≡ first_starved (shared_by groups.now.shared.now groups.now.state.now.plan)
        (Some delay.now) groups.now.state.now groups.now.pool.now }
{
    let sought = InStarved { delay, groups };
    let plan = &groups.state.plan;
    if has_executor(plan, groups.pool) {
        first_of_all(&sought, 0, plan.actions.as_slice().len() as u32)
    } else {
        delay.first_marked(&sought, 0)
    }
}

// Returns true if the berth's last line is idle and nothing of its group is due.
fn may_go(delay: &Option<Delay>, state: &State, berth: u32) -> bool
    requires due { ReadsDue delay.now state.now }
    requires lane { 2 * berth < length state.now.lanes }
    requires reads { Reads state.now berth }
    ensures { result ≡ may_go delay.now state.now berth }
{
    let group = group_at(state, berth).unwrap_or(0);
    rests(state, berth) && first_due(delay, state, group).is_none()
}
