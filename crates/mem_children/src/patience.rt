use crate::bell::Bell;
use std::sync::Wait;
use std::thread;

/// The number of turns for which a wait looks again without a rest.
const BRISK_TURNS: u64 = 200;

/// The number of turns that a wait with an end takes at most.
const MOST_TURNS: u64 = 10_000_000;

/// The number of turns that a rest counts if no ring has ended it. A turn without a rest takes about a
/// microsecond, and such a rest takes a hundred thousand.
const TURNS_OF_A_REST: u64 = 100_000;

/// The length of one wait so far.
#[derive(Drop)]
pub struct Patience {
    turns: u64,
}

impl Patience {
    pub fn new() -> Patience {
        Patience { turns: 0 }
    }

    /// Takes one turn of a wait that goes on until there is news.
    pub fn turn<R: Wait>(&mut self, rt: &R, bell: &Bell, rings: u32) {
        thread::yield_now();
        self.turns = self.turns.saturating_add(1);
        if self.turns > BRISK_TURNS {
            bell.rest(rt, rings);
        }
    }

    /// Takes one turn of a wait that has an end. Returns `false` once the end has come.
    pub fn turn_to_the_end<R: Wait>(&mut self, rt: &R, bell: &Bell, rings: u32) -> bool {
        if self.turns >= MOST_TURNS {
            return false;
        }
        thread::yield_now();
        self.turns = self.turns.saturating_add(1);
        if self.turns > BRISK_TURNS {
            bell.rest_briefly(rt, rings);
            if bell.rings() == rings {
                self.turns = self.turns.saturating_add(TURNS_OF_A_REST);
            }
        }
        true
    }
}
