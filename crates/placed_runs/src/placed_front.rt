// The run that has all options.
ghost use Rattle.std.specs.Prelude.{◌≡◌, Some, map, string_bytes};
ghost use Rattle.outside.specs.Causes.{Counts};
ghost use Rattle.placed_berths.specs.Basis.{usable_placed};
ghost use Rattle.placed_rules.specs.Kept.{PlacedKept};
ghost use Rattle.placed_rules.specs.Placed.{placed_discipline};
ghost use Rattle.placed_runs.specs.Fronts.{PlacedPromised, placed_course};
ghost use Rattle.worker_run.specs.Ends.{Reports};
ghost use Rattle.worker_run.specs.Fronts.{EndsBy};

use crate::making::made_with;
use crate::run_core::RunCore;
use outside::{Berth, Floor, Sink};
use placed_tasks::{PlacedTask, read_placed_task};
use plain_values::NoMemory;
use run_progress::Notes;
use spawn_tasks::NoSpawn;
use std::alloc::Global;
use std::sync::Wait;
use std::thread::Threads;
use tick_lane::Pacer;
use worker_run::{Around, Finished, Front, Made, NoRun, RunFault, Stage, run};

/// The front of a run that has all options: its keys have berths of their own or share those of pools,
/// each action goes by a chosen strategy or its own, and local branches may be delayed.
pub struct PlacedFront;

impl Front for PlacedFront {
    type Core = RunCore;

    ghost course = { placed_course };

    ghost promised = { PlacedPromised };

    fn read<F: Floor>(
        alloc: Global,
        words: &[String],
        floor: &mut F,
        notes: Notes,
    ) -> Result<Made<RunCore>, NoRun> {
        match read_placed_task(alloc, words, floor) {
            Ok(made) => {
                let PlacedTask { task, placed } = made;
                match made_with(alloc, task, placed, notes) {
                    Ok(made) => Ok(made),
                    Err(NoMemory) => Err(NoRun::Fault(RunFault::NoMemory(Stage::Before))),
                }
            }
            Err(why) => match why {
                NoSpawn::Fault(fault) => Err(NoRun::Fault(fault)),
                NoSpawn::NoStrategy(action) => Err(NoRun::NoStrategy(action)),
            },
        }
    }
}

/// Runs the actions of the list that the arguments name or generate, on this floor, and writes the
/// report. All options may stand together: keys that share berths, strategies, sandboxes, a delay.
///
/// `words` are the arguments after the program's name. The steps come in this order: the arguments,
/// the list, the source files, the flag files, the strategies, the places and the berths, the lanes,
/// the report. For each action the tools are read before the inputs, and each path is read once. Each
/// berth has two lanes, each on its own thread. The report is written in one put. An earlier step's
/// fault takes precedence over a later one's.
///
/// If `ended.task` is present, everything that is left agrees with one history, which is the journal.
/// If memory ran out before the lanes were started, all berths and places that were made are left, new.
pub fn run_placed<R: Threads + Wait + Sync, F: Floor, O: Sink, W: Pacer>(
    rt: &R,
    alloc: Global,
    words: &[String],
    around: Around<F, W>,
    out: &mut O,
) -> Finished<F, W>
where
    W: Send,
    F::Berth: Send,
    F::Place: Send,
    <F::Berth as Berth>::Feed: Send,
    <F::Berth as Berth>::Tap: Send,
    <F::Berth as Berth>::Child: Send,
    // Everything that one history records, and how the run ended, or why there was no run.
    ensures run { EndsBy (placed_course (map string_bytes words.now))
        (λ b. placed_discipline (usable_placed b)) (λ b. PlacedKept (usable_placed b))
        PlacedPromised (F.told around.floor) W.told around.pacer result.pacer result.ended
        result.refused }
    ensures report { Reports result.ended (O.told out.old) (O.told out.new) }
    ensures sink { Counts (O.told out.old).faults (O.told out.new).faults
        (result.ended.fault ≡ Some RunFault.SinkFailed) }
{
    run::<PlacedFront, W, R, F, O>(rt, alloc, words, around, out)
}
