// The run of a list over a floor that records its calls.
ghost use Rattle.std.specs.Prelude.{◌≡◌, Some, None, List, map, string_bytes};
ghost use Rattle.outside.specs.Causes.{Counts};
ghost use Rattle.outside.specs.declared.floor.FloorRead.{FloorRead};
ghost use Rattle.real_run.specs.Objects.{sink_told};
ghost use Rattle.real_run.specs.Tells.{AllTell};
ghost use Rattle.real_run.specs.Whole.{HasPut, WholeRun};
ghost use Rattle.tool_words.specs.Options.{options_of};
ghost use Rattle.worker_run.specs.Ends.{Reports, report_by};
ghost use Rattle.worker_run.specs.Headline.{RunKeeps};

use crate::telling::Telling;
use outside::{Berth, Floor, Sink};
use outside_real::RealSink;
use run_progress::Notes;
use std::alloc::Global;
use std::sync::Wait;
use std::thread::Threads;
use worker_run::{Ended, RunFault, run_build, run_build_watched};

/// Does the same as `run_build`, over standard output and a floor that records its calls, as the real one does.
///
/// All objects of the run record their calls (`told`), so nothing that they were asked or gave is left out (`whole`):
///
/// - The reads that the floor's log has gained are all reads of the run.
/// - Each berth's calls are those that its lane's orders ask for, from the first on.
/// - The bytes from each tap spell the answers of the journal.
/// - To each action's place was written what was granted and committed.
///
/// If there is no fault, and no write to standard output failed, it was given the report and nothing else (`put`).
#[tactic(auto, using(crate::proofs::Whole::whole_report))]
pub fn run_told<R: Threads + Wait + Sync, F: Floor + Telling, P: Print + Drop>(
    rt: &R,
    alloc: Global,
    words: &[String],
    floor: F,
    out: &mut RealSink<'_, P>,
) -> Ended<F>
where
    F::Berth: Send,
    F::Place: Send,
    <F::Berth as Berth>::Feed: Send,
    <F::Berth as Berth>::Tap: Send,
    <F::Berth as Berth>::Child: Send,
    ensures run { RunKeeps (options_of (map string_bytes words.now)) (F.told floor) result }
    ensures told { AllTell result }
    // If the floor had recorded these reads before.
    ensures whole { (before : List FloorRead) → (F.told floor).log ≡ Some before
        → WholeRun (options_of (map string_bytes words.now)) before result }
    ensures report { Reports result (sink_told out.old) (sink_told out.new) }
    ensures put { result.fault ≡ None
        → HasPut (report_by result.task result.left.journal) out.old out.new }
    ensures sink { Counts out.old.faults out.new.faults (result.fault ≡ Some RunFault.SinkFailed) }
{
    let ended = run_build(rt, alloc, words, floor, out);
    F::see(&ended);
    ended
}

/// Does the same as `run_build_watched`, over a floor that records its calls and any sink, for example one in front of
/// standard output.
pub fn run_told_watched<R: Threads + Wait + Sync, F: Floor + Telling, O: Sink>(
    rt: &R,
    alloc: Global,
    words: &[String],
    floor: F,
    out: &mut O,
    notes: Notes,
) -> Ended<F>
where
    F::Berth: Send,
    F::Place: Send,
    <F::Berth as Berth>::Feed: Send,
    <F::Berth as Berth>::Tap: Send,
    <F::Berth as Berth>::Child: Send,
    ensures run { RunKeeps (options_of (map string_bytes words.now)) (F.told floor) result }
    ensures told { AllTell result }
    ensures whole { (before : List FloorRead) → (F.told floor).log ≡ Some before
        → WholeRun (options_of (map string_bytes words.now)) before result }
    ensures report { Reports result (O.told out.old) (O.told out.new) }
    ensures sink { Counts (O.told out.old).faults (O.told out.new).faults
        (result.fault ≡ Some RunFault.SinkFailed) }
{
    let ended = run_build_watched(rt, alloc, words, floor, out, notes);
    F::see(&ended);
    ended
}
