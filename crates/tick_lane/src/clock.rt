//! The pacer of real runs.
ghost use Rattle.std.specs.Prelude.{◌≡◌};

use crate::pacer::Pacer;
use std::thread;
use std::time::{Clock, Duration};

/// The length of a tick, in milliseconds.
const TICK: u64 = 1;

/// A pacer with ticks of one millisecond of the clock. Its thread sleeps in the meantime.
#[derive(Drop)]
pub struct ClockPacer<'a, R: Clock> {
    clock: &'a R,
    ticks: u64,
}

impl<'a, R: Clock> ClockPacer<'a, R> {
    /// Creates a pacer with this clock, which has waited for no tick.
    pub fn new(clock: &'a R) -> ClockPacer<'a, R>
        ensures { ⟦<ClockPacer<'a, R> as Pacer>⟧.told result ≡ 0 }
    {
        ClockPacer { clock, ticks: 0 }
    }
}

impl<'a, R: Clock> Pacer for ClockPacer<'a, R> {
    ghost told = { λ p. p.ticks };

    fn ticks(&self) -> u64 {
        self.ticks
    }

    fn tick(&mut self) {
        thread::sleep(self.clock, Duration::from_millis(TICK));
        self.ticks = self.ticks.saturating_add(1);
    }
}
