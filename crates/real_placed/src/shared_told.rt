// The run whose worker keys share berths.
ghost use Rattle.std.specs.Prelude.{◌≡◌, Some, None, List, map, string_bytes};
ghost use Rattle.outside.specs.Causes.{Counts};
ghost use Rattle.outside.specs.declared.floor.FloorRead.{FloorRead};
ghost use Rattle.real_run.specs.Objects.{sink_told};
ghost use Rattle.real_run.specs.Tells.{AllTell};
ghost use Rattle.real_run.specs.Whole.{HasPut};
ghost use Rattle.real_placed.specs.Shared.{WholeShared};
ghost use Rattle.placed_runs.specs.SharedHeadline.{SharedKeeps};
ghost use Rattle.shared_tasks.specs.Words.{shared_options_of};
ghost use Rattle.worker_run.specs.Ends.{Reports, report_by};

use outside::{Berth, Floor};
use outside_real::RealSink;
use placed_runs::run_shared;
use real_run::Telling;
use std::alloc::Global;
use std::sync::Wait;
use std::thread::Threads;
use worker_run::{Ended, RunFault};

/// Does the same as `run_shared`, over standard output and a floor that records its calls, as the real one does.
///
/// All objects of the run record their calls (`told`), so nothing that they were asked or gave is left out (`whole`).
/// If there is no fault, and no write to standard output failed, it was given the report and nothing else (`put`).
#[tactic(auto, using(real_run::proofs::Whole::whole_report))]
pub fn run_told_shared<R: Threads + Wait + Sync, F: Floor + Telling, P: Print + Drop>(
    rt: &R,
    alloc: Global,
    words: &[String],
    floor: F,
    out: &mut RealSink<'_, P>,
) -> Ended<F>
where
    F::Berth: Send,
    F::Place: Send,
    <F::Berth as Berth>::Feed: Send,
    <F::Berth as Berth>::Tap: Send,
    <F::Berth as Berth>::Child: Send,
    ensures run { SharedKeeps (shared_options_of (map string_bytes words.now)) (F.told floor)
        result }
    ensures told { AllTell result }
    // If the floor had recorded these reads before.
    ensures whole { (before : List FloorRead) → (F.told floor).log ≡ Some before
        → WholeShared (shared_options_of (map string_bytes words.now)) before result }
    ensures report { Reports result (sink_told out.old) (sink_told out.new) }
    ensures put { result.fault ≡ None
        → HasPut (report_by result.task result.left.journal) out.old out.new }
    ensures sink { Counts out.old.faults out.new.faults (result.fault ≡ Some RunFault.SinkFailed) }
{
    let ended = run_shared(rt, alloc, words, floor, out);
    F::see(&ended);
    ended
}
