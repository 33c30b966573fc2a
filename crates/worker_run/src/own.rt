// The front of a run on the plan's own berths.
ghost use Rattle.worker_run.specs.Own.{OwnPromised, own_course};

use crate::front::{Front, Made, NoRun};
use build_report::{RunFault, Stage};
use outside::Floor;
use run_progress::Notes;
use run_tasks::read_task;
use spawn_core::{Core, EarliestFirst};
use std::alloc::Global;

/// The front of a run on the plan's own berths. It reads the arguments that `worker_tool` has, and the list
/// at their path or a generated one.
pub struct OwnFront;

impl Front for OwnFront {
    type Core = Core<EarliestFirst>;

    ghost course = { own_course };

    ghost promised = { OwnPromised };

    fn read<F: Floor>(
        alloc: Global,
        words: &[String],
        floor: &mut F,
        notes: Notes,
    ) -> Result<Made<Core<EarliestFirst>>, NoRun> {
        match read_task(alloc, words, floor) {
            Ok(made) => {
                let (task, twin) = made;
                let Ok(mut core) = Core::new(alloc, twin) else {
                    return Err(NoRun::Fault(RunFault::NoMemory(Stage::Before)));
                };
                core.watch(notes);
                Ok(Made {
                    task,
                    core,
                    ticks: false,
                })
            }
            Err(fault) => Err(NoRun::Fault(fault)),
        }
    }
}
