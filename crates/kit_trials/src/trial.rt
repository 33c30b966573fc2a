// The handlers of the trials.
ghost use Rattle.std.specs.Prelude.{◌≡◌, [], true, IfOk};

use plain_values::{NoMemory, Text};
use std::alloc::Global;
use std::sync::Wait;
use std::sync::atomic::AtomicBool;
use std::sync::atomic::Ordering::SeqCst;
use std::thread::yield_now;
use wire_messages::WorkRequest;
use worker_kit::{Flag, Handled, Handler, LaneHandler};

/// The number of turns that a handler waits at most.
const MOST_TURNS: u64 = 10_000_000;

/// The behaviour of a handler. It answers with exit code 3, or with 9 if it has waited in vain.
#[derive(Clone, Copy, PartialEq, Eq)]
pub enum Does {
    /// It answers at once.
    Three,
    /// Number 1 waits until number 2 has begun.
    Meets,
    /// Number 1 waits until it is cancelled, and stops.
    Stops,
    /// Memory runs out for number 2.
    Starves,
}

/// The handler that all lanes share.
#[derive(Drop)]
pub struct Trial {
    does: Does,
    second_has_begun: AtomicBool,
}

impl Trial {
    pub fn new(does: Does) -> Trial {
        Trial {
            does,
            second_has_begun: AtomicBool::new(false),
        }
    }

    // Waits until number 2 has begun. Returns true if it has.
    fn awaits_second(&self) -> bool {
        for _ in 0..MOST_TURNS {
            if self.second_has_begun.load(SeqCst) {
                return true;
            }
            yield_now();
        }
        false
    }
}

// Waits until the request is cancelled. Returns true if it was.
fn awaits_cancel<R: Wait, F: Flag>(rt: &R, flag: &mut F) -> Result<bool, NoMemory>
    ensures same { F.owner flag.new ≡ F.owner flag.old }
    ensures raised { IfOk result (λ yes. yes ≡ true → F.raised flag.new ≡ true) }
{
    for _ in 0..MOST_TURNS {
        if flag.is_raised(rt)? {
            return Ok(true);
        }
        yield_now();
    }
    Ok(false)
}

impl Handler for Trial {
    ghost answers = { λ request handled. Unit {0} };

    fn handle<R: Wait, F: Flag>(
        &self,
        rt: &R,
        alloc: Global,
        request: &WorkRequest,
        flag: &mut F,
    ) -> Result<Handled, NoMemory> {
        if request.request_id == 2 {
            self.second_has_begun.store(true, SeqCst);
            if self.does == Does::Starves {
                return Err(NoMemory);
            }
        }
        let is_first = request.request_id == 1;
        let stopped = is_first && self.does == Does::Stops && awaits_cancel(rt, flag)?;
        let has_come = match self.does {
            Does::Stops => stopped || !is_first,
            Does::Meets => !is_first || self.awaits_second(),
            Does::Three | Does::Starves => true,
        };
        Ok(Handled {
            exit: if has_come { 3 } else { 9 },
            output: Text::of(String::new(alloc)),
            stopped,
        })
    }
}

/// A lane's own handler, which answers with the number of requests it has received.
#[derive(Drop)]
pub struct Counts {
    count: i32,
}

impl Counts {
    pub fn new() -> Counts {
        Counts { count: 0 }
    }
}

impl LaneHandler for Counts {
    ghost answers = { λ request handled. handled.output ≡ [] };

    ghost does = { λ old request handled new. new.count ≡ handled.exit };

    ghost breaks = { λ old request new. ⊥ };

    fn handle<R: Wait, F: Flag>(
        &mut self,
        _rt: &R,
        alloc: Global,
        _request: &WorkRequest,
        _flag: &mut F,
    ) -> Result<Handled, NoMemory> {
        self.count = self.count.saturating_add(1);
        Ok(Handled {
            exit: self.count,
            output: Text::of(String::new(alloc)),
            stopped: false,
        })
    }
}
