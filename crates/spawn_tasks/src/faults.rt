ghost use Rattle.std.specs.Prelude.{◌≡◌};
ghost use Rattle.build_report.specs.declared.fault.RunFault.TheVariants.{NoMemory as no_memory};
ghost use Rattle.build_report.specs.declared.fault.Stage.TheVariants.{Before};
ghost use Rattle.spawn_tasks.specs.declared.faults.NoSpawn.TheVariants.{Fault};
ghost use Rattle.spawn_tasks.specs.Faults.{refused};

use action_list::{ListFault, What};
use plain_values::NoMemory;
use run_loading::{RunFault, Stage};
use spawn_strategies::ChoiceFault;

/// The reason why there is no task.
#[derive(Drop)]
pub enum NoSpawn {
    /// A fault that a run with the list's own strategies may have too.
    Fault(RunFault),
    /// The action with this number is supported by no strategy of its strategy list.
    NoStrategy(u32),
}

impl From<RunFault> for NoSpawn {
    ghost from_gives = { λ f e. e ≡ Fault f };

    fn from(fault: RunFault) -> Self {
        NoSpawn::Fault(fault)
    }
}

/// If memory runs out here, it runs out before the lanes.
impl From<NoMemory> for NoSpawn {
    ghost from_gives = { λ _ e. e ≡ Fault (no_memory Before) };

    fn from(_: NoMemory) -> Self {
        NoSpawn::Fault(RunFault::NoMemory(Stage::Before))
    }
}

impl From<ChoiceFault> for NoSpawn {
    ghost from_gives = { λ f e. e ≡ refused f };

    fn from(fault: ChoiceFault) -> Self {
        match fault {
            ChoiceFault::NoneSupports(action) => NoSpawn::NoStrategy(action),
            ChoiceFault::TooManyKeys(keys) => NoSpawn::Fault(RunFault::List(ListFault::TooMany {
                what: What::Keys,
                count: keys as u64,
            })),
            ChoiceFault::NoMemory => NoSpawn::Fault(RunFault::NoMemory(Stage::Before)),
        }
    }
}
