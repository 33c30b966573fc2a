//! The work of one thread of a crew.
ghost use Rattle.std.specs.Prelude.{ℕ};

use lane_bells::Bells;
use std::sync::Wait;
use std::thread::Threads;

/// The work of one thread of a crew: it calls the desk's machine on its own lane, and returns its
/// end.
///
/// `D` is `Desk<M>` and `P` is `Pass<M>`. They are parameters for two reasons. The prover covers no
/// method of a trait that names a `Desk` of a type parameter. It also covers no impl of a trait that
/// names a `Pass` of a bound. None of these traits has `Send` as a supertrait. `run_crew`, which
/// starts the threads, requires it.
pub trait Lane<D, P>: Drop {
    /// The end of the lane, in addition to its pass.
    type End: Drop;

    // The lane may run at this desk, with this number of bells and with this pass.
    ghost may_run: { Self → D → ℕ → P → Type 0 };

    // The relation between the lane, its pass before it ran, its end and its pass after.
    ghost has_run: { Self → P → Self.End → P → Type 0 };

    /// Makes the lane's calls, and returns its end with its pass. A lane that halts early ends like
    /// any other, and reports this in its end.
    fn run<R: Threads + Wait + Sync>(
        self,
        rt: &R,
        desk: &D,
        bells: &Bells,
        pass: P,
    ) -> (Self::End, P)
        requires { may_run self desk.now bells.now pass }
        ensures { has_run self pass result.0 result.1 };
}
