// A lane's flag, at which its handler looks.
ghost use Rattle.std.specs.Prelude.{◌≡◌, Bool, true, IfOk};
ghost use Rattle.work_queue.specs.declared.queue.Start.{Start};
ghost use Rattle.work_lanes.specs.Calls.{Owner, owner_at, raised_at};

use crate::calls::is_cancelled;
use lane_threads::Caller;
use outside::Sink;
use plain_values::NoMemory;
use seat_desk::Machine;
use std::sync::Wait;
use work_queue::{CancelFlag, Kind, WorkQueue};

/// The flag at which a handler looks while it answers a request. It is raised only if the request was
/// cancelled.
pub trait Flag {
    // Whose flag it is. A look leaves that as it was.
    ghost Owner: { Type 0 };

    ghost owner: { Self → Owner };

    // True if the request was cancelled by the last look.
    ghost raised: { Self → Bool };

    /// Returns true only if the request was cancelled. No clause states how soon it does. While no
    /// cancel request of its number was read, a look reads one word.
    ///
    /// # Errors
    ///
    /// Returns `NoMemory` if memory runs out.
    fn is_raised<R: Wait>(&mut self, rt: &R) -> Result<bool, NoMemory>
        ensures same { owner self.new ≡ owner self.old }
        ensures stays { raised self.old ≡ true → raised self.new ≡ true }
        ensures raised { IfOk result (λ yes. yes ≡ true → raised self.new ≡ true) };
}

/// The flag of a lane: its own hint, and its caller, which asks the queue.
pub(crate) struct LaneFlag<'a, M: Machine> {
    pub(crate) caller: Caller<'a, M>,
    pub(crate) hint: CancelFlag,
}

impl<O: Sink, X: Drop, Y: Drop, K: Kind<X, Y>> Flag for LaneFlag<'_, WorkQueue<O, X, Y, K>> {
    ghost Owner = { Owner X (Start O) };

    ghost owner = { λ f. owner_at K.number K.cancels f.caller.pass };

    ghost raised = { λ f. raised_at K.number K.cancels f.caller.pass };

    fn is_raised<R: Wait>(&mut self, rt: &R) -> Result<bool, NoMemory> {
        if !self.hint.is_raised() {
            return Ok(false);
        }
        is_cancelled(rt, &mut self.caller)
    }
}
