// The front of a run: what reads its arguments and its list, and makes the task and its core.
ghost use Rattle.std.specs.Prelude.{List, ℕ, [], IfOk, Result, map, string_bytes};
ghost use Rattle.build_report.specs.declared.fault.RunFault.{RunFault};
ghost use Rattle.core_contract.specs.Disciplines.{LegalBy};
ghost use Rattle.exec_journal.specs.Entry.{Entry};
ghost use Rattle.outside.specs.Causes.{Counts};
ghost use Rattle.outside.specs.Told.{SameFloor};
ghost use Rattle.outside.specs.declared.floor.FloorRead.{FloorRead};
ghost use Rattle.run_loading.specs.Reads.{IsFloorFailed};
ghost use Rattle.run_tasks.specs.declared.task.Task.{Task};
ghost use Rattle.worker_run.specs.Fronts.{FrontLeads, IsOfReading, IsReady, fault_of, read_by};
ghost use Rattle.worker_run.specs.declared.front.NoRun.{NoRun};

use build_report::RunFault;
use core_contract::Rules;
use outside::Floor;
use run_progress::Notes;
use run_tasks::Task;
use std::alloc::Global;

/// A task, with the core that runs it, before its lanes are started.
#[derive(Drop)]
pub struct Made<C> {
    pub task: Task,
    pub core: C,
    /// True if one more lane makes Ticks: the proxy lane of the berth after those that have speeches.
    pub ticks: bool,
}

/// The reason why there is no task to run.
#[derive(Drop)]
pub enum NoRun {
    /// The fault that ended the reading.
    Fault(RunFault),
    /// The action with this number is supported by no strategy of its strategy list.
    NoStrategy(u32),
}

/// What reads the arguments of a command and the list that they name, and makes the task and the core
/// that runs it. It determines what a run means. [`run`](crate::run) does the rest.
pub trait Front {
    /// The core by which the tasks of this front are run.
    type Core: Rules;

    // These arguments and these reads lead to this task by this basis, or to why there is none.
    ghost course: { List (List ℕ) → List FloorRead
        → Result (Task × Self.Core.Plan) NoRun → Type 0 };

    // What a legal journal of a task of this front has, in addition to what its orders keep.
    ghost promised: { Self.Core.Plan → List Entry → Type 0 };

    /// Returns the task that the arguments of a command yield, with a core that has answered no call
    /// yet, and that records the run's progress in `notes` if it can.
    ///
    /// # Errors
    ///
    /// Returns the reason why there is no task. Returns `NoMemory` with `Before` in `Fault` if memory
    /// runs out at any time.
    fn read<F: Floor>(
        alloc: Global,
        words: &[String],
        floor: &mut F,
        notes: Notes,
    ) -> Result<Made<Self::Core>, NoRun>
        ensures course { FrontLeads (F.told floor.old) (F.told floor.new)
            (read_by Self.Core.plan result) (course (map string_bytes words.now)) }
        ensures core { IfOk result (λ made. Self.Core.stands made.core []) }
        ensures ready { IfOk result (λ made.
            IsReady (Self.Core.discipline (Self.Core.plan made.core)) made.task made.ticks) }
        ensures promised { IfOk result (λ made. (j : List Entry)
            → LegalBy (Self.Core.discipline (Self.Core.plan made.core)) j
            → promised (Self.Core.plan made.core) j) }
        ensures cause { IsOfReading (fault_of result) }
        ensures floor { Counts (F.told floor.old).faults (F.told floor.new).faults
            (IsFloorFailed (fault_of result)) }
        ensures files { SameFloor (F.told floor.old) (F.told floor.new) };
}
