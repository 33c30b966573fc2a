//! The pacer of a lane that makes Ticks.
ghost use Rattle.std.specs.Prelude.{◌≡◌, ℕ};
ghost use Rattle.tick_lane.specs.Pacers.{next_tick};

/// A pacer, which waits for one tick after another and counts them.
///
/// Each pacer sets the length of its ticks, and no clause covers it. A pacer belongs to one lane,
/// and waits in the lane's thread without using the processor.
pub trait Pacer: Sized + Drop {
    // The number of ticks that it has waited for.
    ghost told: { Self → ℕ };

    /// Returns the number of ticks that it has waited for.
    fn ticks(&self) -> u64
        ensures { result ≡ told self.now };

    /// Waits for the next tick, and counts it. A count at its last value stays there.
    fn tick(&mut self)
        ensures { told self.new ≡ next_tick (told self.old) };
}

/// A pacer in memory, each of whose ticks comes at once.
#[derive(Drop)]
pub struct EagerPacer {
    ticks: u64,
}

impl EagerPacer {
    /// Creates a pacer that has waited for no tick.
    pub fn new() -> EagerPacer
        ensures { ⟦<EagerPacer as Pacer>⟧.told result ≡ 0 }
    {
        EagerPacer { ticks: 0 }
    }
}

impl Pacer for EagerPacer {
    ghost told = { λ p. p.ticks };

    fn ticks(&self) -> u64 {
        self.ticks
    }

    fn tick(&mut self) {
        self.ticks = self.ticks.saturating_add(1);
    }
}
