ghost use Rattle.std.specs.Prelude.{◌≡◌, ◌<◌, ℕ, vec_len, IfOk};

use plain_values::NoMemory;
use std::alloc::Global;
use std::marker::Model;
use std::sync::Wait;
use std::thread::Parker;
use std::time::Duration;

/// The longest rest of a lane, in seconds.
const LONGEST_REST: u64 = 1;

/// The number of bits of a hint.
const HINTED: usize = 128;

/// A bell for each lane. A contract sees how many there are.
#[derive(Drop)]
pub struct Bells {
    parkers: Vec<Parker>,
    longest_rest: Option<Duration>,
}

impl Model for Bells {
    ghost Value = { ℕ };

    ghost view = { λ b. vec_len b.parkers };
}

impl Bells {
    /// Creates bells for `lanes` lanes, numbered from 0. A rest ends after a second at most.
    ///
    /// # Errors
    ///
    /// Returns `NoMemory` if memory runs out.
    pub fn new(alloc: Global, lanes: u32) -> Result<Bells, NoMemory>
        ensures { IfOk result (λ b. b ≡ lanes) }
    {
        Bells::with(alloc, lanes, Some(Duration::from_secs(LONGEST_REST)))
    }

    /// Creates the same bells, but only a ring ends a rest: a lane that nobody rings rests forever.
    /// This is for tests of callers that ring.
    ///
    /// # Errors
    ///
    /// Same as [`Bells::new`].
    pub fn without_limit(alloc: Global, lanes: u32) -> Result<Bells, NoMemory>
        ensures { IfOk result (λ b. b ≡ lanes) }
    {
        Bells::with(alloc, lanes, None)
    }

    fn with(alloc: Global, lanes: u32, longest_rest: Option<Duration>) -> Result<Bells, NoMemory>
        ensures { IfOk result (λ b. b ≡ lanes) }
    {
        let mut parkers = Vec::with_capacity(alloc, lanes as usize)?;
        for _ in 0..lanes {
            parkers.push_reserved(Parker::new());
        }
        Ok(Bells {
            parkers,
            longest_rest,
        })
    }

    /// Rings these lanes: bit `k` stands for each lane whose number is `k` modulo 128. A bit without a
    /// lane rings nothing.
    pub fn ring(&self, lanes: u128) {
        let mut left = lanes;
        for _ in 0..lanes.count_ones() {
            let bit = left.trailing_zeros() as usize;
            self.ring_one(bit);
            self.ring_one(HINTED + bit);
            left &= left.wrapping_sub(1);
        }
    }

    // Rings the lane, if there is one of this number.
    fn ring_one(&self, lane: usize) {
        if let Some(parker) = self.parkers.get(lane) {
            parker.unpark();
        }
    }

    /// Rings every lane, for example after a stop or a failure.
    pub fn ring_all(&self) {
        for parker in &self.parkers {
            parker.unpark();
        }
    }

    /// Rests until the lane is rung, or was rung since it last rested, or a second has gone by. The
    /// rest may also end without a cause. Only one thread at a time may rest for a lane, and only
    /// directly after the reply that there is nothing for the lane.
    pub fn rest<R: Wait>(&self, rt: &R, lane: u32)
        requires { lane < self.now }
    {
        let parker = &self.parkers[lane as usize];
        match self.longest_rest {
            Some(longest) => parker.park_timeout(rt, longest),
            None => parker.park(rt),
        }
    }
}

/// The bells, as one ringer uses them. A contract sees how many bells there are, how often it has
/// rung, modulo 2^64, and which lanes it rang last.
#[derive(Drop)]
pub struct Ringer<'a> {
    bells: &'a Bells,
    rings: u64,
    last: u128,
}

impl<'a> Ringer<'a> {
    ghost use Rattle.lane_bells.specs.Rings.{Rings};

    /// Creates a ringer of these bells, which has rung none.
    pub fn new(bells: &'a Bells) -> Ringer<'a>
        ensures bells { result.bells.now ≡ bells.now }
        ensures none { (result.rings ≡ 0) × (result.last ≡ 0) }
    {
        Ringer {
            bells,
            rings: 0,
            last: 0,
        }
    }

    /// Rings these lanes. Same as [`Bells::ring`].
    pub fn ring(&mut self, lanes: u128)
        ensures { Rings self.old lanes self.new }
    {
        self.bells.ring(lanes);
        self.rings = self.rings.wrapping_add(1);
        self.last = lanes;
    }

    /// Rests on the lane's bell. Same as [`Bells::rest`].
    pub fn rest<R: Wait>(&self, rt: &R, lane: u32)
        requires { lane < self.now.bells.now }
    {
        self.bells.rest(rt, lane);
    }
}
