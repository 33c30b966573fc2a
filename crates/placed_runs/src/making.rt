// A task with the core of its plan, its berths and its Ticks.
ghost use Rattle.std.specs.Prelude.{◌≡◌, [], IfOk};
ghost use Rattle.placed_berths.specs.Basis.{SoundSeating, usable_placed};
ghost use Rattle.placed_rules.specs.Placed.{placed_discipline};
ghost use Rattle.run_plan.specs.Sound.{Sound};
ghost use Rattle.worker_run.specs.Fronts.{IsReady};
ghost use Rattle.worker_run.specs.Lanes.{FitsLanes};

use crate::run_core::RunCore;
use core_contract::Rules;
use placed_berths::placed_core;
use placed_rules::Placed;
use plain_values::NoMemory;
use run_progress::Notes;
use run_tasks::Task;
use std::alloc::Global;
use worker_run::Made;

// Returns the task with a core that goes by this basis, before any call.
pub(crate) fn made_with(
    alloc: Global,
    task: Task,
    placed: Placed,
    notes: Notes,
) -> Result<Made<RunCore>, NoMemory>
    requires plan { Sound placed.plan }
    requires seating { SoundSeating placed.plan placed.seating }
    requires fits { FitsLanes (placed_discipline placed) task }
    ensures task { IfOk result (λ m. m.task ≡ task) }
    ensures basis { IfOk result (λ m. ⟦<RunCore as Rules>⟧.plan m.core ≡ placed) }
    ensures stands { IfOk result (λ m. ⟦<RunCore as Rules>⟧.stands m.core []) }
    ensures ready { IfOk result (λ m. IsReady (placed_discipline (usable_placed placed)) task
        m.ticks) }
{
    let ticks = placed.ticks.is_some();
    let mut core = placed_core(alloc, placed)?;
    core.watch(notes);
    let core = RunCore { core };
    Ok(Made { task, core, ticks })
}
