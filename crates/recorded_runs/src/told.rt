// The recorded run over a floor that records its calls.
ghost use Rattle.std.specs.Prelude.{◌≡◌, ◌++◌, None, Some, List, map, string_bytes};
ghost use Rattle.build_report.specs.declared.fault.RunFault.TheVariants as faults;
ghost use Rattle.outside.specs.Causes.{Counts};
ghost use Rattle.outside.specs.declared.floor.FloorRead.{FloorRead};
ghost use Rattle.real_run.specs.Objects.{sink_told};
ghost use Rattle.real_run.specs.Tells.{AllTell};
ghost use Rattle.real_run.specs.Whole.{HasPut, WholeRun};
ghost use Rattle.recorded_runs.specs.Recorded.{Records, YesIfPut, text_by};
ghost use Rattle.tool_words.specs.Options.{options_of};
ghost use Rattle.worker_run.specs.Ends.{report_by};
ghost use Rattle.worker_run.specs.Headline.{RunKeeps};

use crate::recording::run_recorded;
use outside::{Berth, Floor};
use outside_real::RealSink;
use real_run::Telling;
use std::alloc::Global;
use std::sync::Wait;
use std::thread::Threads;
use worker_run::Ended;

/// Does what `run_recorded` does, over a floor that records its calls, such as the real floor. The output is standard output.
///
/// All objects of the run record their calls (`told`), so everything that they were asked or gave is covered (`whole`). If
/// there is no fault and no write to it failed, standard output received the report and the text of the journal, and nothing
/// else (`put`).
#[tactic(auto, using(crate::proofs::Put::whole_records))]
pub fn run_told_recorded<R: Threads + Wait + Sync, F: Floor + Telling, P: Print + Drop>(
    rt: &R,
    alloc: Global,
    words: &[String],
    floor: F,
    out: &mut RealSink<'_, P>,
) -> Ended<F>
where
    F::Berth: Send,
    F::Place: Send,
    <F::Berth as Berth>::Feed: Send,
    <F::Berth as Berth>::Tap: Send,
    <F::Berth as Berth>::Child: Send,
    ensures run { RunKeeps (options_of (map string_bytes words.now)) (F.told floor) result }
    ensures told { AllTell result }
    // If the floor had recorded these reads before.
    ensures whole { (before : List FloorRead) → (F.told floor).log ≡ Some before
        → WholeRun (options_of (map string_bytes words.now)) before result }
    ensures report { Records result (sink_told out.old) (sink_told out.new) }
    ensures judged { YesIfPut result }
    ensures put { result.fault ≡ None
        → HasPut (report_by result.task result.left.journal
        ++ text_by result.task result.left.journal) out.old out.new }
    ensures sink { Counts out.old.faults out.new.faults (result.fault ≡ Some faults.SinkFailed) }
{
    let ended = run_recorded(rt, alloc, words, floor, out);
    F::see(&ended);
    ended
}
