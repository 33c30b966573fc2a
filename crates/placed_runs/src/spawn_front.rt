// The run with strategies, in which local branches may be delayed.
ghost use Rattle.std.specs.Prelude.{◌≡◌, [], IfOk, Some, map, string_bytes};
ghost use Rattle.outside.specs.Causes.{Counts};
ghost use Rattle.placed_berths.specs.Basis.{usable_placed};
ghost use Rattle.placed_rules.specs.Placed.{placed_discipline};
ghost use Rattle.placed_runs.specs.Fronts.{SpawnPromised, spawn_basis, spawn_course};
ghost use Rattle.placed_runs.specs.StrategicHeadline.{StrategicKeeps};
ghost use Rattle.placed_tasks.specs.Tasks.{ticks_for};
ghost use Rattle.spawn_strategies.specs.SpawnOptions.{spawn_options_of};
ghost use Rattle.spawn_tasks.specs.Tasks.{MayBeSpawned};
ghost use Rattle.worker_run.specs.Ends.{Reports};
ghost use Rattle.worker_run.specs.Fronts.{IsReady};

use crate::making::made_with;
use crate::run_core::RunCore;
use core_contract::Rules;
use outside::{Berth, Floor, Sink};
use placed_rules::{Placed, Seating};
use plain_values::NoMemory;
use run_progress::Notes;
use spawn_tasks::{NoSpawn, SpawnTask, read_spawn_task};
use std::alloc::Global;
use std::sync::Wait;
use std::thread::Threads;
use tick_lane::Pacer;
use worker_run::{Around, Finished, Front, Made, NoRun, RunFault, Stage, run};

/// The front of a run with strategies.
pub struct SpawnFront;

impl Front for SpawnFront {
    type Core = RunCore;

    ghost course = { spawn_course };

    ghost promised = { SpawnPromised };

    fn read<F: Floor>(
        alloc: Global,
        words: &[String],
        floor: &mut F,
        notes: Notes,
    ) -> Result<Made<RunCore>, NoRun> {
        match read_spawn_task(alloc, words, floor) {
            Ok(made) => match spawned(alloc, made, notes) {
                Ok(made) => Ok(made),
                Err(NoMemory) => Err(NoRun::Fault(RunFault::NoMemory(Stage::Before))),
            },
            Err(why) => match why {
                NoSpawn::Fault(fault) => Err(NoRun::Fault(fault)),
                NoSpawn::NoStrategy(action) => Err(NoRun::NoStrategy(action)),
            },
        }
    }
}

// Returns the task, with the core of its delay, before any call.
fn spawned(alloc: Global, made: SpawnTask, notes: Notes) -> Result<Made<RunCore>, NoMemory>
    requires { MayBeSpawned made }
    ensures task { IfOk result (λ m. m.task ≡ made.task) }
    ensures basis { IfOk result (λ m. ⟦<RunCore as Rules>⟧.plan m.core
        ≡ spawn_basis made.delay made.task.plan) }
    ensures stands { IfOk result (λ m. ⟦<RunCore as Rules>⟧.stands m.core []) }
    ensures ready { IfOk result (λ m. IsReady
        (placed_discipline (usable_placed (spawn_basis made.delay made.task.plan))) made.task
        m.ticks) }
{
    let SpawnTask { task, twin, delay } = made;
    let placed = Placed {
        plan: twin,
        seating: Seating::Own,
        ticks: ticks_for(delay),
    };
    made_with(alloc, task, placed, notes)
}

// Returns the number of Ticks for which a local branch waits, if it does.
fn ticks_for(delay: u32) -> Option<u32>
    ensures { result ≡ ticks_for delay }
{
    if delay == 0 { None } else { Some(delay) }
}

/// The result of a run with strategies, with everything that the run leaves.
pub type Strategic<F, W> = Finished<F, W>;

/// Runs the actions of the list that the arguments name, on this floor, with their strategies, and
/// writes the report. If the arguments give a delay, it applies to each action that an executor may
/// run too. The action's local branch waits for that number of the pacer's ticks, or until the remote
/// branch is dropped.
///
/// `words` are the arguments after the program's name. The steps come in this order: the arguments,
/// the list, the source files, the flag files, the strategies, the places and the berths, the lanes,
/// the report. The list is read from the floor. For each action the tools are read before the inputs,
/// and each path is read once. Each berth has two lanes, each on its own thread. The report is written
/// in one put. An earlier step's fault takes precedence over a later one's.
///
/// If `ended.task` is present, everything that is left agrees with one history, which is the journal.
/// If memory ran out before the lanes were started, all berths and places that were made are left, new.
pub fn run_strategies<R: Threads + Wait + Sync, F: Floor, O: Sink, W: Pacer>(
    rt: &R,
    alloc: Global,
    words: &[String],
    floor: F,
    pacer: W,
    out: &mut O,
) -> Strategic<F, W>
where
    W: Send,
    F::Berth: Send,
    F::Place: Send,
    <F::Berth as Berth>::Feed: Send,
    <F::Berth as Berth>::Tap: Send,
    <F::Berth as Berth>::Child: Send,
    // Everything that one history records, and how the run ended, or why there was no run.
    ensures run { StrategicKeeps (spawn_options_of (map string_bytes words.now)) (F.told floor)
        W.told pacer result.pacer result.ended result.refused }
    ensures report { Reports result.ended (O.told out.old) (O.told out.new) }
    ensures sink { Counts (O.told out.old).faults (O.told out.new).faults
        (result.ended.fault ≡ Some RunFault.SinkFailed) }
{
    let notes = Notes::nowhere();
    let around = Around {
        floor,
        pacer,
        notes,
    };
    run::<SpawnFront, W, R, F, O>(rt, alloc, words, around, out)
}
