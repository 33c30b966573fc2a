// Notes that are stored in addition to the states, so that no search goes through all states.
ghost use Rattle.std.specs.Prelude.{◌≡◌, ◌≢◌, ◌==◌, ◌<◌, ◌≤◌, ◌^◌, ℕ, Bool, true, false, Some, IfOk, IfSome, if◌then◌else◌, length, map, replicate, slice_get, slice_index_or, []};
ghost use Rattle.ready_order.specs.Matches.{IsLeast, IsLeastAmong, MayAsk, least_number};
ghost use Rattle.ready_order.specs.Queue.{has_success, is_ready};
ghost use Rattle.ready_order.specs.Board.{AreKnown, Fits, RightAt, SameOf, Shape, is_in, is_named, mark, names, posted, queued_if, shape_of, shapes, supplied_by};

use crate::group_set::GroupSet;
use crate::queues::{Queues, mark};
use crate::winner_tree::Tournament;
use crate::{ActionState, has_success};
use exec_journal::Standing;
use plain_values::NoMemory;
use std::alloc::Global;
use std::marker::Model;

#[derive(Drop)]
pub struct Board {
    supplied: Vec<usize>,
    waiting: Tournament,
    queues: Queues,
}

impl Model for Board {
    ghost use Rattle.ready_order.specs.Facts.{Facts};

    ghost Value = { Facts };

    ghost view = { λ b. record {
      supplied = b.supplied.items;
      waiting = b.waiting;
      queues = b.queues;
    } };
}

impl Board {
    // Makes the board of these states. Takes all the memory that later calls need.
    pub fn of(alloc: Global, actions: &[ActionState]) -> Result<Board, NoMemory>
        requires { length actions.now ≤ 2 ^ 32 }
        ensures fits { IfOk result (λ b. Fits (shapes actions.now) b) }
        ensures right { IfOk result (λ b. (a : ℕ) → RightAt actions.now b a) }
    {
        let count = actions.len();
        let supplied = vec![in alloc; 0; count]?;
        let waiting = Tournament::new(alloc, count)?;
        let queues = Queues::new(alloc, named_groups(actions), count)?;
        let mut board = Board {
            supplied,
            waiting,
            queues,
        };
        for number in 0..count {
            board.refresh(actions, number);
        }
        Ok(board)
    }

    // Notes the action's current state again. At least as many of its producers have success as
    // before.
    pub fn refresh(&mut self, actions: &[ActionState], number: usize)
        requires small { length actions.now ≤ 2 ^ 32 }
        requires known { number < length actions.now }
        requires fits { Fits (shapes actions.now) self.old }
        requires low { AreKnown actions.now number (slice_index_or self.old.supplied number 0) }
        ensures fits { Fits (shapes actions.now) self.new }
        ensures right { RightAt actions.now self.new number }
        ensures others { (a : ℕ) → a ≢ number → SameOf self.old self.new a }
    {
        let known = self.supplied[number];
        self.note(actions, number, known);
    }

    // Notes the current states of an action's users again, after the action gained or lost success.
    pub fn follow(&mut self, actions: &[ActionState], users: &[u32], success: bool)
        requires small { length actions.now ≤ 2 ^ 32 }
        requires known { (a : ℕ) → is_in a users.now ≡ true → a < length actions.now }
        requires fits { Fits (shapes actions.now) self.old }
        requires low { success ≡ true → (a : ℕ)
            → AreKnown actions.now a (slice_index_or self.old.supplied a 0) }
        ensures fits { Fits (shapes actions.now) self.new }
        ensures users { (a : ℕ) → is_in a users.now ≡ true → RightAt actions.now self.new a }
        ensures others { (a : ℕ) → is_in a users.now ≡ false → SameOf self.old self.new a }
    {
        for user in users {
            let user = *user as usize;
            let known = self.still_known(user, success);
            self.note(actions, user, known);
        }
    }

    fn still_known(&self, number: usize, success: bool) -> usize
        requires { number < length self.now.supplied }
        ensures { result ≡ (if success then slice_index_or self.now.supplied number 0 else 0) }
    {
        if success { self.supplied[number] } else { 0 }
    }

    // Notes the action's current state, if the first `known` of its producers are known to have
    // success.
    fn note(&mut self, actions: &[ActionState], number: usize, known: usize)
        requires small { length actions.now ≤ 2 ^ 32 }
        requires known { number < length actions.now }
        requires fits { Fits (shapes actions.now) self.old }
        requires low { AreKnown actions.now number known }
        ensures fits { Fits (shapes actions.now) self.new }
        ensures right { RightAt actions.now self.new number }
        ensures others { (a : ℕ) → a ≢ number → SameOf self.old self.new a }
    {
        let action = &actions[number];
        let producers = action.producers.as_slice();
        let supplied = supplied_from(actions, producers, known);
        let ready = supplied == producers.len();
        self.supplied[number] = supplied;
        self.waiting.put(number, mark(number, action.waits(ready)));
        self.queues.post(action.local.group, number, action, ready);
        self.queues.post(action.remote.group, number, action, ready);
    }

    // Returns the least number in the queue of the group.
    pub fn first(&self, group: u32) -> u64
        ensures { IsLeast (slice_index_or self.now.queues group []) result }
    {
        self.queues.first(group)
    }

    // Returns the least number in the queues of the set's groups.
    pub fn least_among<G: GroupSet>(&self, groups: &G) -> u64
        requires { MayAsk (G.can_ask groups.now) (map least_number self.now.queues) }
        ensures { IsLeastAmong (G.contains groups.now) (map least_number self.now.queues) result }
    {
        self.queues.least_among(groups)
    }

    // Returns true if the noted number of the action's producers with success, counted from the
    // first on, is `producers`.
    pub fn has_supplied(&self, number: usize, producers: usize) -> bool
        requires { number < length self.now.supplied }
        ensures { result ≡ (slice_index_or self.now.supplied number 0 == producers) }
    {
        self.supplied[number] == producers
    }

    // Returns the least number among the actions that wait.
    pub fn first_waiting(&self) -> u64
        ensures { IsLeast self.now.waiting result }
    {
        self.waiting.least()
    }
}

// Returns how many producers, from the first on, have success. The first `known` are known to have
// it.
fn supplied_from(actions: &[ActionState], producers: &[u32], known: usize) -> usize
    requires { known ≤ supplied_by actions.now producers.now }
    ensures { result ≡ supplied_by actions.now producers.now }
{
    let mut supplied = known;
    while supplied < producers.len() && has_success(actions, producers[supplied]) {
        supplied += 1;
    }
    supplied
}

// Returns one more than the greatest group that runs a branch.
fn named_groups(actions: &[ActionState]) -> usize
    ensures named { (a g : ℕ) (s : Shape) → slice_get (shapes actions.now) a ≡ Some s
        → names g s ≡ true → g < result }
    ensures small { result ≤ 2 ^ 32 }
{
    let mut groups = 0;
    for action in actions {
        groups = past_group(past_group(groups, action.local.group), action.remote.group);
    }
    groups
}

fn past_group(groups: usize, group: Option<u32>) -> usize
    ensures named { (g : ℕ) → is_named g group ≡ true → g < result }
    ensures more { groups ≤ result }
    ensures small { groups ≤ 2 ^ 32 → result ≤ 2 ^ 32 }
{
    match group {
        Some(group) => groups.max(group as usize + 1),
        None => groups,
    }
}
