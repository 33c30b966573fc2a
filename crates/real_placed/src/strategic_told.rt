// The run by strategies.
ghost use Rattle.std.specs.Prelude.{◌≡◌, Some, None, List, map, string_bytes};
ghost use Rattle.outside.specs.Causes.{Counts};
ghost use Rattle.outside.specs.declared.floor.FloorRead.{FloorRead};
ghost use Rattle.real_run.specs.Objects.{sink_told};
ghost use Rattle.real_run.specs.Tells.{AllTell};
ghost use Rattle.real_run.specs.Whole.{HasPut};
ghost use Rattle.real_placed.specs.Strategic.{WholeStrategic};
ghost use Rattle.placed_runs.specs.StrategicHeadline.{StrategicKeeps};
ghost use Rattle.spawn_strategies.specs.SpawnOptions.{spawn_options_of};
ghost use Rattle.worker_run.specs.Ends.{Reports, report_by};

use outside::{Berth, Floor};
use outside_real::RealSink;
use placed_runs::{Strategic, run_strategies};
use real_run::Telling;
use std::alloc::Global;
use std::sync::Wait;
use std::thread::Threads;
use tick_lane::Pacer;
use worker_run::RunFault;

/// Does the same as `run_strategies`, over standard output and a floor that records its calls, as the real one does.
///
/// All objects of the run record their calls (`told`), so nothing that they were asked or gave is left out (`whole`).
/// If there is no fault, and no write to standard output failed, it was given the report and nothing else (`put`).
#[tactic(auto, using(real_run::proofs::Whole::whole_report))]
pub fn run_told_strategies<R: Threads + Wait + Sync, F: Floor + Telling, P: Print + Drop, W: Pacer>(
    rt: &R,
    alloc: Global,
    words: &[String],
    floor: F,
    pacer: W,
    out: &mut RealSink<'_, P>,
) -> Strategic<F, W>
where
    W: Send,
    F::Berth: Send,
    F::Place: Send,
    <F::Berth as Berth>::Feed: Send,
    <F::Berth as Berth>::Tap: Send,
    <F::Berth as Berth>::Child: Send,
    ensures run { StrategicKeeps (spawn_options_of (map string_bytes words.now)) (F.told floor)
        W.told pacer result.pacer result.ended result.refused }
    ensures told { AllTell result.ended }
    // If the floor had recorded these reads before.
    ensures whole { (before : List FloorRead) → (F.told floor).log ≡ Some before
        → WholeStrategic (spawn_options_of (map string_bytes words.now)) before result.ended
        result.refused }
    ensures report { Reports result.ended (sink_told out.old) (sink_told out.new) }
    ensures put { result.ended.fault ≡ None
        → HasPut (report_by result.ended.task result.ended.left.journal) out.old out.new }
    ensures sink { Counts out.old.faults out.new.faults
        (result.ended.fault ≡ Some RunFault.SinkFailed) }
{
    let left = run_strategies(rt, alloc, words, floor, pacer, out);
    F::see(&left.ended);
    left
}
