//! The worker's means to hold the reader back.
use lane_bells::Bells;
use message_box::{AHEAD, READER};
use std::sync::atomic::AtomicBool;
use std::sync::atomic::Ordering::SeqCst;

/// A flag that is set if the worker has too many messages left to read more for now. It is a hint, and no
/// clause covers it.
#[derive(Drop)]
pub(crate) struct Backlog {
    is_long: AtomicBool,
}

impl Backlog {
    /// Returns a backlog with nothing to do.
    pub(crate) fn new() -> Backlog {
        Backlog {
            is_long: AtomicBool::new(false),
        }
    }

    /// Records if `count` messages are too many to read more. Rings the reader if they have become few.
    pub(crate) fn note(&self, bells: &Bells, count: usize) {
        let is_long = count >= AHEAD;
        if is_long == self.is_long() {
            return;
        }
        self.is_long.store(is_long, SeqCst);
        if !is_long {
            bells.ring(1 << READER);
        }
    }

    /// Returns true if the worker has many messages left.
    pub(crate) fn is_long(&self) -> bool {
        self.is_long.load(SeqCst)
    }
}
