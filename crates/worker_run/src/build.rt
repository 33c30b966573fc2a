// The run on the plan's own berths, by name.
ghost use Rattle.std.specs.Prelude.{◌≡◌, Some, map, string_bytes};
ghost use Rattle.outside.specs.Causes.{Counts};
ghost use Rattle.tool_words.specs.Options.{options_of};
ghost use Rattle.worker_run.specs.Ends.{Reports};
ghost use Rattle.worker_run.specs.Headline.{RunKeeps};

use crate::by_front::{Around, run};
use crate::ended::Ended;
use crate::own::OwnFront;
use build_report::RunFault;
use outside::{Berth, Floor, Sink};
use run_progress::Notes;
use std::alloc::Global;
use std::sync::Wait;
use std::thread::Threads;
use tick_lane::EagerPacer;

/// Runs the actions of the list that the arguments name, on this floor, and writes the report.
///
/// `words` are the arguments after the program's name. The steps come in this order: the arguments,
/// the list, the source files, the flag files, the places and the berths, the lanes, the report.
/// The list is read from the floor or generated. For each action the tools are read before the
/// inputs, and each path is read once. Each berth has two lanes, each on its own thread. The report
/// is written in one put. An earlier step's fault takes precedence over a later one's.
///
/// If `task` is present, everything that is left agrees with one history, which is the journal. If
/// memory ran out before the lanes were started, all berths and places that were made are left, new.
/// The contract covers contents if the objects record them, and counts always.
pub fn run_build<R: Threads + Wait + Sync, F: Floor, O: Sink>(
    rt: &R,
    alloc: Global,
    words: &[String],
    floor: F,
    out: &mut O,
) -> Ended<F>
where
    F::Berth: Send,
    F::Place: Send,
    <F::Berth as Berth>::Feed: Send,
    <F::Berth as Berth>::Tap: Send,
    <F::Berth as Berth>::Child: Send,
    // Everything that one history records, and how the run ended, with a field for each.
    ensures run { RunKeeps (options_of (map string_bytes words.now)) (F.told floor) result }
    ensures report { Reports result (O.told out.old) (O.told out.new) }
    ensures sink { Counts (O.told out.old).faults (O.told out.new).faults
        (result.fault ≡ Some RunFault.SinkFailed) }
{
    run_build_watched(rt, alloc, words, floor, out, Notes::nowhere())
}

/// Does what `run_build` does, by the same contract, and also records the run's progress. The
/// contract does not cover what is recorded in `notes`.
pub fn run_build_watched<R: Threads + Wait + Sync, F: Floor, O: Sink>(
    rt: &R,
    alloc: Global,
    words: &[String],
    floor: F,
    out: &mut O,
    notes: Notes,
) -> Ended<F>
where
    F::Berth: Send,
    F::Place: Send,
    <F::Berth as Berth>::Feed: Send,
    <F::Berth as Berth>::Tap: Send,
    <F::Berth as Berth>::Child: Send,
    ensures run { RunKeeps (options_of (map string_bytes words.now)) (F.told floor) result }
    ensures report { Reports result (O.told out.old) (O.told out.new) }
    ensures sink { Counts (O.told out.old).faults (O.told out.new).faults
        (result.fault ≡ Some RunFault.SinkFailed) }
{
    let around = Around {
        floor,
        pacer: EagerPacer::new(),
        notes,
    };
    run::<OwnFront, EagerPacer, R, F, O>(rt, alloc, words, around, out).ended
}
