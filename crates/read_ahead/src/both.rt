//! Runs a reader and a worker at the same time.
//!
//! The threads are started over plain types, because the prover covers no closure that names a desk of a
//! type parameter.
use std::sync::Wait;
use std::thread::{Threads, join_mut};

/// A reader of an input, for a kind of shop. It calls a machine through a `C`.
pub(crate) trait Reads<T, S, C> {
    /// The result of the reader.
    type Pause;

    // The condition that must hold before it reads.
    ghost can_read: { Self → C → Type 0 };

    // The relation between its caller and the input before, its result, and its caller and the input after.
    ghost has_read: { C → T → Self.Pause → C → T → Type 0 };

    /// Reads the input.
    fn read<R: Wait>(&self, rt: &R, caller: &mut C, input: &mut T) -> Self::Pause
        requires { can_read self.now caller.old }
        ensures { has_read caller.old input.old result caller.new input.new };
}

/// A worker that answers what was read. It calls a machine through a `C`.
pub(crate) trait Works<O, S, C> {
    /// The result of the worker.
    type Finish;

    // The condition that must hold before it works.
    ghost can_work: { Self → C → Type 0 };

    // The relation between its caller, the output and the shop before, its result, and all three after.
    ghost has_worked: { C → O → S → Self.Finish → C → O → S → Type 0 };

    /// Answers what was read.
    fn work<R: Wait>(&self, rt: &R, caller: &mut C, out: &mut O, shop: &mut S) -> Self::Finish
        requires { can_work self.now caller.old }
        ensures { has_worked caller.old out.old shop.old result caller.new out.new shop.new };
}

/// The callers through which the reader and the worker call their machine.
pub(crate) struct Callers<C> {
    pub(crate) reading: C,
    pub(crate) working: C,
}

/// Runs both parts at the same time, the reader on its own thread. Returns once both have ended.
pub(crate) fn run_both<
    T: Send,
    O,
    S,
    C: Send,
    H: Reads<T, S, C> + Works<O, S, C> + Sync,
    R: Threads + Wait + Sync,
>(
    rt: &R,
    hall: &H,
    callers: &mut Callers<C>,
    input: &mut T,
    out: &mut O,
    shop: &mut S,
) -> (H::Pause, H::Finish)
where
    H::Pause: Send,
    requires read { H.can_read hall.now callers.old.reading }
    requires work { H.can_work hall.now callers.old.working }
    ensures read { H.has_read callers.old.reading input.old result.0 callers.new.reading input.new }
    ensures worked { H.has_worked callers.old.working out.old shop.old result.1
        callers.new.working out.new shop.new }
{
    let Callers { reading, working } = callers;
    join_mut(
        rt,
        &mut || -> H::Pause
            requires { H.can_read hall.now reading.now }
            ensures { H.has_read reading.entry.now input.entry.now result reading.exit.now
                input.exit.now }
        { hall.read(rt, reading, input) },
        &mut || -> H::Finish
            requires { H.can_work hall.now working.now }
            ensures { H.has_worked working.entry.now out.entry.now shop.entry.now result
                working.exit.now out.exit.now shop.exit.now }
        { hall.work(rt, working, out, shop) },
    )
}
