//! The decision if a run begins at all.
//!
//! If no thread can be started, the reader's part runs last, after the worker's part is done. A worker that
//! waited for messages would then wait for ever. So it first waits for the reader to begin, and only for a
//! limited time.
ghost use Rattle.std.specs.Prelude.{◌<◌};
ghost use Rattle.message_box.specs.States.{taker};

use lane_bells::Bells;
use message_box::TAKER;
use std::sync::{OnceLock, Wait};

/// The number of times that the worker rests before it assumes that no thread could be started. Each rest
/// takes at most a second. A thread that was started begins at once, even on a busy machine. If the process
/// is stopped for a while, only one of its rests is cut short.
const PATIENCE: u32 = 10;

/// The decision about a run.
#[derive(Clone, Copy)]
enum Decision {
    /// The reader has begun.
    Begun,
    /// The worker has waited too long.
    CalledOff,
}

/// The lanes' decision about a run. The lane that is first decides for both. No clause covers it, because
/// no contract can state if a thread was started.
#[derive(Drop)]
pub(crate) struct Start {
    decision: OnceLock<Decision>,
}

impl Start {
    /// Returns a start with no decision yet.
    pub(crate) fn new() -> Start {
        Start {
            decision: OnceLock::new(),
        }
    }

    /// Begins, for the reader, and wakes the worker. Returns true if the run goes on. Otherwise the run was
    /// called off before.
    pub(crate) fn begin<R: Wait>(&self, rt: &R, bells: &Bells) -> bool {
        let goes_on = self.decision.set(rt, Decision::Begun).is_ok();
        bells.ring(1 << TAKER);
        goes_on
    }

    /// Waits, for the worker, until the reader has begun. Returns true if the run goes on. Otherwise the
    /// run is called off now.
    pub(crate) fn await_reader<R: Wait>(&self, rt: &R, bells: &Bells) -> bool
        requires { taker < bells.now }
    {
        for _ in 0..PATIENCE {
            if self.decision.get().is_some() {
                return true;
            }
            bells.rest(rt, TAKER);
        }
        self.decision.set(rt, Decision::CalledOff).is_err()
    }
}
