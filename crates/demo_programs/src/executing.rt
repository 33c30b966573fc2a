ghost use Rattle.std.specs.Prelude.{◌≡◌};
ghost use Rattle.demo_programs.specs.Executes.{Executes, AnswersInOrder};

use job_runner::{Executor, GREETING};
use message_service::Finish;
use outside::{Io, Shop, Sink, Tap};
use read_ahead::serve_ahead;
use std::alloc::Global;
use std::sync::Wait;
use std::thread::Threads;

/// Writes the greeting, and then runs the jobs of the input, one after another, each in a separate folder
/// in the shop. Each result is written, preceded by its length.
///
/// It reads on a separate thread while jobs are run, up to the end of the input or to bytes that spell no
/// job. A job is given up instead of being run exactly if a job that cancels it had been read by its turn.
/// Returns the cause of its end.
pub fn execute<T: Tap + Send, O: Sink + Send, S: Shop + Send, R: Threads + Wait + Sync>(
    rt: &R,
    alloc: Global,
    input: &mut T,
    out: &mut O,
    shop: &mut S,
) -> Finish
    ensures executes { Executes result
        (record { input = T.told input.old; out = O.told out.old; shop = S.told shop.old })
        (record { input = T.told input.new; out = O.told out.new; shop = S.told shop.new }) }
    ensures in_order { AnswersInOrder result
        (record { input = T.told input.old; out = O.told out.old; shop = S.told shop.old })
        (record { input = T.told input.new; out = O.told out.new; shop = S.told shop.new }) }
{
    match out.put(&GREETING) {
        Io::Done => serve_ahead(rt, alloc, &Executor, input, out, shop),
        Io::Failed => Finish::OutputFault,
    }
}
