// The least of many numbers, each of which may change. It is a tournament whose matches are stored.
// The winner is read at once, and a change repeats only the matches above its place.
ghost use Rattle.std.specs.Prelude.{◌≡◌, ◌≢◌, ◌<◌, ◌≤◌, ◌+◌, ◌*◌, ◌/◌, ◌^◌, IfOk, length, replicate, slice_index, slice_set, drop};
ghost use Rattle.ready_order.specs.Matches.{IsLeast, IsLeastAmong, IsLeastBelow, IsPlayed, IsPlayedBut, MayAsk};

use crate::group_set::GroupSet;
use plain_values::NoMemory;
use std::alloc::Global;
use std::marker::Model;

/// The value at a place that has no number.
pub const ABSENT: u64 = u64::MAX;

/// Numbers at places, the least of which is known. A contract sees the list of the numbers.
#[derive(Drop)]
pub struct Tournament {
    // The numbers are in the second half. In the first half, each node k from 1 on has the winner
    // of nodes 2k and 2k + 1.
    nodes: Vec<u64>,
    places: usize,
}

impl Model for Tournament {
    ghost use Rattle.std.specs.Prelude.{List, ℕ, drop};
    ghost use Rattle.ready_order.specs.Matches.{IsPlayed};

    ghost Value = { List ℕ };

    ghost view = { λ t. drop t.places t.nodes.items };

    ghost invariant = { λ t. IsPlayed t.nodes.items t.places };
}

impl Tournament {
    /// Creates a tournament with `places` places, without numbers. No other call takes memory.
    ///
    /// # Errors
    ///
    /// Returns `NoMemory` if memory runs out.
    pub fn new(alloc: Global, places: usize) -> Result<Tournament, NoMemory>
        requires { places < 2 ^ 60 }
        ensures { IfOk result (λ t. t ≡ replicate places ABSENT) }
    {
        let nodes = vec![in alloc; ABSENT; 2 * places]?;
        Ok(Tournament { nodes, places })
    }

    /// Puts the number, or `ABSENT`, at a place.
    pub fn put(&mut self, place: usize, number: u64)
        requires { place < length self.old }
        ensures { self.new ≡ slice_set self.old place number }
    {
        let node = self.places + place;
        self.nodes[node] = number;
        play_above(self.nodes.as_mut_slice(), self.places, node);
    }

    /// Returns the least number of all, or `ABSENT` if there is none.
    pub fn least(&self) -> u64
        ensures { IsLeast self.now result }
    {
        if self.places == 0 {
            ABSENT
        } else {
            self.nodes[1]
        }
    }

    /// Returns the least number at the places of these groups, or `ABSENT` if there is none. The
    /// set is queried only for places with a number.
    pub fn least_among<G: GroupSet>(&self, groups: &G) -> u64
        requires asked { MayAsk (G.can_ask groups.now) self.now }
        requires few { length self.now ≤ 2 ^ 32 }
        ensures { IsLeastAmong (G.contains groups.now) self.now result }
    {
        if self.places == 0 {
            return ABSENT;
        }
        least_below(self.nodes.as_slice(), self.places, 1, ABSENT, groups)
    }
}

// Returns the least number below the node at the places of these groups. If none of them is less
// than the bound, it returns the bound.
//
// The search skips a node whose number isn't less than the bound. It takes the lesser of two nodes
// first, so the bound is soon low and few groups are queried.
fn least_below<G: GroupSet>(
    nodes: &[u64],
    places: usize,
    node: usize,
    bound: u64,
    groups: &G,
) -> u64
    requires asked { MayAsk (G.can_ask groups.now) (drop places nodes.now) }
    requires few { places ≤ 2 ^ 32 }
    requires played { IsPlayed nodes.now places }
    requires node { 0 < node }
    requires within { node < 2 * places }
    ensures { IsLeastBelow (G.contains groups.now) nodes.now places node bound result }
{
    if nodes[node] >= bound {
        return bound;
    }
    if node < places {
        let (first, second) = lesser_first(nodes, node);
        let nearer = least_below(nodes, places, first, bound, groups);
        return least_below(nodes, places, second, nearer, groups);
    }
    if groups.contains((node - places) as u32) {
        nodes[node]
    } else {
        bound
    }
}

// Returns the two nodes below this one, the one with the lesser number first.
fn lesser_first(nodes: &[u64], node: usize) -> (usize, usize)
    requires small { node < 2 ^ 60 }
    requires within { 2 * node + 1 < length nodes.now }
    ensures first { result.0 / 2 ≡ node }
    ensures second { result.1 / 2 ≡ node }
    ensures both { result.0 ≢ result.1 }
    ensures lesser { slice_index nodes.now result.0 ≤ slice_index nodes.now result.1 }
{
    let (left, right) = (2 * node, 2 * node + 1);
    if nodes[left] <= nodes[right] {
        (left, right)
    } else {
        (right, left)
    }
}

// Repeats the matches above a node, up to a match whose winner stays the same.
fn play_above(nodes: &mut [u64], places: usize, changed: usize)
    requires node { 0 < changed }
    requires within { changed < 2 * places }
    requires others { IsPlayedBut nodes.old places (changed / 2) }
    ensures played { IsPlayed nodes.new places }
    ensures numbers { drop places nodes.new ≡ drop places nodes.old }
{
    let mut node = changed;
    while node > 1 {
        node /= 2;
        let winner = nodes[2 * node].min(nodes[2 * node + 1]);
        if nodes[node] == winner {
            return;
        }
        nodes[node] = winner;
    }
}
