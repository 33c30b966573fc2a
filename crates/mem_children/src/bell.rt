use std::sync::Wait;
use std::sync::atomic::{AtomicU64, Ordering};
use std::time::Duration;

/// The number of milliseconds that a rest with an end lasts at most.
const BRIEFLY: u64 = 100;

/// A place where an object rests until it has news. A waiting thread counts the rings, then looks, and then
/// rests unless the bell was rung since. So no ring is lost.
#[derive(Drop)]
pub struct Bell {
    rings: AtomicU64,
}

impl Bell {
    pub fn new() -> Bell {
        Bell {
            rings: AtomicU64::new(0),
        }
    }

    /// Returns the number of rings modulo 2^32.
    pub fn rings(&self) -> u32 {
        (self.rings.load(Ordering::SeqCst) % (1 << 32)) as u32
    }

    /// Wakes all threads that rest here.
    pub fn ring(&self) {
        self.rings.fetch_add(1, Ordering::SeqCst);
        self.rings.wake_all();
    }

    /// Rests until the bell is rung after the count was `rings`. The rest may end without a ring.
    pub fn rest<R: Wait>(&self, rt: &R, rings: u32) {
        self.rings.park(rt, rings);
    }

    /// Same as `rest`, for at most a tenth of a second.
    pub fn rest_briefly<R: Wait>(&self, rt: &R, rings: u32) {
        self.rings
            .park_timeout(rt, rings, Duration::from_millis(BRIEFLY));
    }
}
