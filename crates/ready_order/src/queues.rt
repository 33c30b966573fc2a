// The queue of each group, and the group with the least number in its queue.
ghost use Rattle.std.specs.Prelude.{◌≡◌, ◌<◌, ◌≤◌, ◌^◌, IfOk, IfSome, length, map, replicate, slice_index_or, slice_set, []};
ghost use Rattle.ready_order.specs.Matches.{IsLeast, IsLeastAmong, MayAsk, least_number};
ghost use Rattle.ready_order.specs.Board.{mark, posted};

use crate::ActionState;
use crate::group_set::GroupSet;
use crate::winner_tree::{ABSENT, Tournament};
use plain_values::NoMemory;
use std::alloc::Global;
use std::marker::Model;

// A queue for each group from 0 on, with a place for each action. The place contains the action's
// number if it is queued. A contract sees the list of the queues.
#[derive(Drop)]
pub struct Queues {
    queues: Vec<Tournament>,
    // The least number of each group's queue, at the group's place.
    firsts: Tournament,
}

impl Model for Queues {
    ghost use Rattle.std.specs.Prelude.{List, ℕ};
    ghost use Rattle.ready_order.specs.Matches.{AreFirsts};

    ghost Value = { List (List ℕ) };

    ghost view = { λ q. q.queues.items };

    ghost invariant = { λ q. AreFirsts q.queues.items q.firsts };
}

impl Queues {
    // Creates `groups` queues with `places` places each, without numbers. No other call takes
    // memory.
    pub fn new(alloc: Global, groups: usize, places: usize) -> Result<Queues, NoMemory>
        requires few { groups ≤ 2 ^ 32 }
        requires small { places ≤ 2 ^ 32 }
        ensures { IfOk result (λ q. q ≡ replicate groups (replicate places ABSENT)) }
    {
        let queues = empty_queues(alloc, groups, places)?;
        let firsts = Tournament::new(alloc, groups)?;
        Ok(Queues { queues, firsts })
    }

    // Notes in the queue of the group whether the group has a queued branch of the action.
    pub fn post(&mut self, group: Option<u32>, number: usize, action: &ActionState, ready: bool)
        requires { IfSome group (λ g. number < length (slice_index_or self.old g [])) }
        ensures { self.new ≡ posted self.old group number action.now ready }
    {
        if let Some(group) = group {
            let here = mark(number, action.queued_if(ready, group).is_some());
            self.put(group as usize, number, here);
        }
    }

    // Puts the number, or `ABSENT`, at the action's place in the queue of the group.
    fn put(&mut self, group: usize, number: usize, here: u64)
        requires group { group < length self.old }
        requires number { number < length (slice_index_or self.old group []) }
        ensures { self.new ≡ slice_set self.old group
            (slice_set (slice_index_or self.old group []) number here) }
    {
        let queue = &mut self.queues[group];
        queue.put(number, here);
        let first = queue.least();
        self.firsts.put(group, first);
    }

    // Returns the least number in the queue of the group.
    pub fn first(&self, group: u32) -> u64
        ensures { IsLeast (slice_index_or self.now group []) result }
    {
        match self.queues.get(group as usize) {
            Some(queue) => queue.least(),
            None => ABSENT,
        }
    }

    // Returns the least number in the queues of the set's groups. The set is queried only for
    // groups with a number in their queue.
    pub fn least_among<G: GroupSet>(&self, groups: &G) -> u64
        requires { MayAsk (G.can_ask groups.now) (map least_number self.now) }
        ensures { IsLeastAmong (G.contains groups.now) (map least_number self.now) result }
    {
        self.firsts.least_among(groups)
    }
}

pub fn mark(number: usize, here: bool) -> u64
    ensures { result ≡ mark number here }
{
    if here { number as u64 } else { ABSENT }
}

fn empty_queues(alloc: Global, groups: usize, places: usize) -> Result<Vec<Tournament>, NoMemory>
    requires { places ≤ 2 ^ 32 }
    ensures { IfOk result (λ v. v.items ≡ replicate groups (replicate places ABSENT)) }
{
    let mut queues = Vec::with_capacity(alloc, groups)?;
    for _group in 0..groups {
        queues.push(Tournament::new(alloc, places)?)?;
    }
    Ok(queues)
}
