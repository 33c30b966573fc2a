// The run whose worker keys share berths.
ghost use Rattle.std.specs.Prelude.{◌≡◌, None, Some, map, string_bytes};
ghost use Rattle.outside.specs.Causes.{Counts};
ghost use Rattle.placed_rules.specs.Placed.{on_pools};
ghost use Rattle.placed_runs.specs.Fronts.{SharedPromised, shared_course};
ghost use Rattle.placed_runs.specs.SharedHeadline.{SharedKeeps};
ghost use Rattle.shared_tasks.specs.Words.{shared_options_of};
ghost use Rattle.worker_run.specs.Ends.{Reports};

use crate::making::made_with;
use crate::run_core::RunCore;
use outside::{Berth, Floor, Sink};
use placed_rules::{Placed, Seating, SharedPlan};
use plain_values::NoMemory;
use run_progress::Notes;
use shared_tasks::{SharedTask, read_shared_task};
use std::alloc::Global;
use std::sync::Wait;
use std::thread::Threads;
use tick_lane::EagerPacer;
use worker_run::{Around, Ended, Front, Made, NoRun, RunFault, Stage, run};

/// The front of a run whose worker keys share berths.
pub struct SharedFront;

impl Front for SharedFront {
    type Core = RunCore;

    ghost course = { shared_course };

    ghost promised = { SharedPromised };

    fn read<F: Floor>(
        alloc: Global,
        words: &[String],
        floor: &mut F,
        notes: Notes,
    ) -> Result<Made<RunCore>, NoRun> {
        match read_shared_task(alloc, words, floor) {
            Ok(made) => {
                let SharedTask { task, shared } = made;
                match made_with(alloc, task, placed_on(shared), notes) {
                    Ok(made) => Ok(made),
                    Err(NoMemory) => Err(NoRun::Fault(RunFault::NoMemory(Stage::Before))),
                }
            }
            Err(fault) => Err(NoRun::Fault(fault)),
        }
    }
}

// Returns the plan on the berths of its pools. No branch waits.
fn placed_on(shared: SharedPlan) -> Placed
    ensures { result ≡ on_pools shared None }
{
    let SharedPlan {
        plan,
        pools,
        instances,
    } = shared;
    Placed {
        plan,
        seating: Seating::Pools { pools, instances },
        ticks: None,
    }
}

/// Runs the actions of the list that the arguments name, on this floor, and writes the report. Local
/// worker keys share berths. The arguments give the maximum number of workers of each protocol.
///
/// `words` are the arguments after the program's name. The steps come in this order: the arguments,
/// the list, the source files, the flag files, the places and the berths, the lanes, the report.
/// The list is read from the floor. For each action the tools are read before the inputs, and each
/// path is read once. Each berth has two lanes, each on its own thread. The report is written in one
/// put. An earlier step's fault takes precedence over a later one's.
///
/// If `task` is present, everything that is left agrees with one history, which is the journal. If
/// memory ran out before the lanes were started, all berths and places that were made are left, new.
pub fn run_shared<R: Threads + Wait + Sync, F: Floor, O: Sink>(
    rt: &R,
    alloc: Global,
    words: &[String],
    floor: F,
    out: &mut O,
) -> Ended<F>
where
    F::Berth: Send,
    F::Place: Send,
    <F::Berth as Berth>::Feed: Send,
    <F::Berth as Berth>::Tap: Send,
    <F::Berth as Berth>::Child: Send,
    // Everything that one history records, and how the run ended, with a field for each.
    ensures run { SharedKeeps (shared_options_of (map string_bytes words.now)) (F.told floor)
        result }
    ensures report { Reports result (O.told out.old) (O.told out.new) }
    ensures sink { Counts (O.told out.old).faults (O.told out.new).faults
        (result.fault ≡ Some RunFault.SinkFailed) }
{
    let around = Around {
        floor,
        pacer: EagerPacer::new(),
        notes: Notes::nowhere(),
    };
    run::<SharedFront, EagerPacer, R, F, O>(rt, alloc, words, around, out).ended
}
