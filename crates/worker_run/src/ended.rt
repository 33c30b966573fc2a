// The result of a run.
ghost use Rattle.std.specs.Prelude.{◌≡◌, Some, None, IfSome};
ghost use Rattle.build_report.specs.Faults.{fault_status};
ghost use Rattle.run_plan.specs.Sound.{Sound};
ghost use Rattle.worker_run.specs.Ends.{status_by};
ghost use Rattle.worker_run.specs.Seen.{ended_told, nothing_left};

use crate::running::Ran;
use build_report::{RunFault, status};
use exec_journal::Journal;
use lane_runs::LaidOut;
use lane_threads::Lack;
use outside::{Berth, Floor};
use run_tasks::Task;
use std::alloc::Global;
use std::marker::Model;

/// A line, with its feed, tap and child if it was started.
pub type EndedLine<F> = lane_runs::EndedLine<
    <<F as Floor>::Berth as Berth>::Feed,
    <<F as Floor>::Berth as Berth>::Tap,
    <<F as Floor>::Berth as Berth>::Child,
>;

/// The feed and the child of a line that was started but not reported.
pub type UnsaidLine<F> = lane_runs::EndedFeed<
    <<F as Floor>::Berth as Berth>::Feed,
    <<F as Floor>::Berth as Berth>::Child,
>;

/// The feed, the tap and the child of a line.
pub type Halves<F> = lane_runs::Halves<
    <<F as Floor>::Berth as Berth>::Feed,
    <<F as Floor>::Berth as Berth>::Tap,
    <<F as Floor>::Berth as Berth>::Child,
>;

/// The result of a run, with everything that the run leaves.
#[derive(Drop)]
pub struct Ended<F: Floor> {
    /// The exit status. Without a fault it is 0 if every action succeeded, and 1 if any did not.
    /// With a fault it is the fault's status.
    pub status: u8,
    pub fault: Option<RunFault>,
    /// The resource that was lacking, if no lane was started. The contract does not cover it.
    pub lack: Option<Lack>,
    /// The task that was run, or `None` if no lane was started. In that case all lists are empty,
    /// except for the berths and the places that were made before memory ran out.
    pub task: Option<Task>,
    pub floor: F,
    /// The journal and, by number, the berths, the lines and the places. It also records if a lane
    /// has halted.
    pub laid: LaidOut<F::Berth, F::Place>,
}

impl<F: Floor> Model for Ended<F> {
    ghost use Rattle.lane_runs.specs.Runs.{laid_told};
    ghost use Rattle.worker_run.specs.Seen.{EndedTold, ended_told};

    ghost Value = { EndedTold };

    ghost view = { λ e. ended_told e.status e.fault (F.told e.floor) e.task (laid_told
        F.Berth.told F.Berth.Feed.told F.Berth.Tap.told F.Berth.Child.told F.Place.told e.laid) };
}

impl<F: Floor> Ended<F> {
    /// Returns the result of a run that this fault ended before its lanes were started.
    pub fn with_no_lane(alloc: Global, floor: F, fault: RunFault) -> Ended<F>
        ensures { result ≡ ended_told (fault_status fault) (Some fault) (F.told floor) None
            nothing_left }
    {
        Ended::of(Ran::with_nothing(alloc, floor, None), None, Some(fault))
    }

    /// Returns the result of a run of this task that left `ran` and ends with this fault.
    pub fn of(ran: Ran<F>, task: Option<Task>, fault: Option<RunFault>) -> Ended<F>
        requires { IfSome task (λ t. Sound t.plan) }
        ensures { result ≡ ended_told (status_by fault task ran.left.journal) fault ran.floor
            task ran.left }
    {
        let Ran {
            fault: _,
            lack,
            floor,
            laid,
        } = ran;
        Ended {
            status: status_of(&fault, &task, &laid.journal),
            fault,
            lack,
            task,
            floor,
            laid,
        }
    }
}

// Returns the exit status of a run with this fault, task and journal.
fn status_of(fault: &Option<RunFault>, task: &Option<Task>, journal: &Journal) -> u8
    requires { IfSome task.now (λ t. Sound t.plan) }
    ensures { result ≡ status_by fault.now task.now journal.now }
{
    match (fault, task) {
        (Some(fault), _) => fault.status(),
        (None, Some(task)) => status(&task.plan, journal),
        (None, None) => 0,
    }
}
