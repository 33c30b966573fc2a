// The run of a task by its core, and its report.
ghost use Rattle.std.specs.Prelude.{◌≡◌, ℕ, List, [], Some, None, length, map};
ghost use Rattle.build_report.specs.Report.{report_of};
ghost use Rattle.core_contract.specs.Disciplines.{IsDiscipline, LegalBy};
ghost use Rattle.exec_journal.specs.Entry.{Entry};
ghost use Rattle.outside.specs.Causes.{Counts};
ghost use Rattle.run_plan.specs.Sound.{Sound};
ghost use Rattle.worker_run.specs.Ends.{IsEndOf, IsPutEnd, IsReportEnd, IsRunEnd, Puts, Reports, report_by, status_by};
ghost use Rattle.worker_run.specs.Headline.{TaskKeeps};
ghost use Rattle.lane_runs.specs.Paced.{MayPace};
ghost use Rattle.worker_run.specs.Lanes.{FitsLanes, WhereWhole};
ghost use Rattle.worker_run.specs.Pacing.{PacesRun};

use crate::ended::Ended;
use crate::running::{Ran, Surroundings, run_plan};
use build_report::{RunFault, Stage, report};
use core_contract::Rules;
use exec_journal::Journal;
use lane_runs::AllMeans;
use outside::{Berth, Floor, Io, Sink};
use plain_values::NoMemory;
use run_tasks::Task;
use run_values::Settings;
use std::alloc::Global;
use std::sync::Wait;
use std::thread::Threads;
use tick_lane::{EagerPacer, Pacer};

/// Runs the lanes of a task with a core that has answered no call yet, and writes the report. This
/// is what `run` does after its front has read a list, with any core, and no lane that makes Ticks.
pub fn run_and_report<C: Rules, R: Threads + Wait + Sync, F: Floor, O: Sink>(
    rt: &R,
    alloc: Global,
    task: Task,
    core: C,
    floor: F,
    out: &mut O,
) -> Ended<F>
where
    C: Send,
    F::Berth: Send,
    F::Place: Send,
    <F::Berth as Berth>::Feed: Send,
    <F::Berth as Berth>::Tap: Send,
    <F::Berth as Berth>::Child: Send,
    requires core { C.stands core [] }
    requires sound { Sound task.plan }
    requires fits { FitsLanes (C.discipline (C.plan core)) task }
    // All promises of a run, except those about reading, by the core's discipline.
    ensures run { TaskKeeps (λ t. C.discipline (C.plan core)) (λ t. C.kept (C.plan core))
        (F.told floor) result }
    ensures ended { IsEndOf task result.fault result.task }
    // Nothing more is read from the floor.
    ensures log { result.floor.log ≡ (F.told floor).log }
    ensures report { Reports result (O.told out.old) (O.told out.new) }
    ensures sink { Counts (O.told out.old).faults (O.told out.new).faults
        (result.fault ≡ Some RunFault.SinkFailed) }
{
    let pacer: Option<EagerPacer> = None;
    let (ended, _none) = run_paced(rt, alloc, task, core, Surroundings { floor, pacer }, out);
    ended
}

/// Does what `run_and_report` does. If there is a pacer, also runs a lane that makes Ticks. It is
/// the proxy lane of the berth after those that have speeches.
///
/// Also returns the pacer. If `task` is present, that lane has made only Ticks, until it received
/// Stop or halted. The journal contains as many of its Ticks as the pacer has counted, unless the
/// pacer's count has reached its last value.
pub fn run_paced<C: Rules, W: Pacer, R: Threads + Wait + Sync, F: Floor, O: Sink>(
    rt: &R,
    alloc: Global,
    task: Task,
    core: C,
    around: Surroundings<F, W>,
    out: &mut O,
) -> (Ended<F>, Option<W>)
where
    C: Send,
    W: Send,
    F::Berth: Send,
    F::Place: Send,
    <F::Berth as Berth>::Feed: Send,
    <F::Berth as Berth>::Tap: Send,
    <F::Berth as Berth>::Child: Send,
    requires core { C.stands core [] }
    requires sound { Sound task.plan }
    requires fits { FitsLanes (C.discipline (C.plan core)) task }
    requires paced { MayPace (C.discipline (C.plan core)) (length task.speeches.items)
        around.pacer }
    // All promises of a run, except those about reading, by the core's discipline.
    ensures run { TaskKeeps (λ t. C.discipline (C.plan core)) (λ t. C.kept (C.plan core))
        (F.told around.floor) result.0 }
    ensures ticks { PacesRun W.told around.pacer result.1 result.0 }
    ensures ended { IsEndOf task result.0.fault result.0.task }
    // Nothing more is read from the floor.
    ensures log { result.0.floor.log ≡ (F.told around.floor).log }
    ensures report { Reports result.0 (O.told out.old) (O.told out.new) }
    ensures sink { Counts (O.told out.old).faults (O.told out.new).faults
        (result.0.fault ≡ Some RunFault.SinkFailed) }
{
    let settings = Settings {
        plan: &task.plan,
        commands: task.commands.as_slice(),
        verbose: task.verbose,
    };
    let means = AllMeans {
        speeches: task.speeches.as_slice(),
        settings: &settings,
        actions: task.work.actions.as_slice(),
    };
    goes_by_discipline::<C>();
    let (ran, pacer) = run_plan(rt, alloc, core, &means, around);
    (conclude(alloc, task, ran, out), pacer)
}

// A law of this kind of core: it goes by a discipline, and each of its journals keeps what its
// orders keep. The function does nothing.
fn goes_by_discipline<C: Rules>()
    ensures is { (b : C.Plan) → IsDiscipline (C.discipline b) }
    ensures kept { (b : C.Plan) (j : List Entry) → Sound (C.discipline b).plan
        → LegalBy (C.discipline b) j → C.kept b j }
{}

// Ends the run. If any lane was started, writes the report of what was settled. If a lane halted,
// the run ends with the fault `NoMemory(During)`.
fn conclude<F: Floor, O: Sink>(alloc: Global, task: Task, ran: Ran<F>, out: &mut O) -> Ended<F>
    requires sound { Sound task.plan }
    requires in_time { WhereWhole ran.fault (Unit {0}) }
    ensures kind { IsRunEnd ran.fault task result.fault result.task }
    ensures report { Reports result (O.told out.old) (O.told out.new) }
    ensures status { result.status ≡ status_by result.fault result.task result.left.journal }
    ensures left { result.left ≡ ran.left }
    ensures floor { result.floor ≡ ran.floor }
    ensures sink { Counts (O.told out.old).faults (O.told out.new).faults
        (result.fault ≡ Some RunFault.SinkFailed) }
{
    match ran.fault {
        None => {
            let fault = put_report(alloc, &task, &ran.laid.journal, out);
            Ended::of(ran, Some(task), fault)
        }
        Some(Stage::During) => {
            let _ = put_report(alloc, &task, &ran.laid.journal, out);
            let fault = RunFault::NoMemory(Stage::During);
            Ended::of(ran, Some(task), Some(fault))
        }
        Some(Stage::Before) => Ended::of(ran, None, Some(RunFault::NoMemory(Stage::Before))),
        Some(Stage::After) => unreachable!(),
    }
}

fn put_report<O: Sink>(
    alloc: Global,
    task: &Task,
    journal: &Journal,
    out: &mut O,
) -> Option<RunFault>
    requires { Sound task.now.plan }
    ensures put { Puts result (report_by (Some task.now) journal.now)
        (O.told out.old) (O.told out.new) }
    ensures kind { IsReportEnd result }
    ensures sink { Counts (O.told out.old).faults (O.told out.new).faults
        (result ≡ Some RunFault.SinkFailed) }
{
    match report(alloc, &task.plan, journal, task.short) {
        Ok(text) => put(out, text.as_str().as_bytes()),
        Err(NoMemory) => Some(RunFault::NoMemory(Stage::After)),
    }
}

fn put<O: Sink>(out: &mut O, report: &[u8]) -> Option<RunFault>
    ensures put { Puts result report.now (O.told out.old) (O.told out.new) }
    ensures kind { IsPutEnd result }
    ensures sink { Counts (O.told out.old).faults (O.told out.new).faults
        (result ≡ Some RunFault.SinkFailed) }
{
    match out.put(report) {
        Io::Done => None,
        Io::Failed => Some(RunFault::SinkFailed),
    }
}
