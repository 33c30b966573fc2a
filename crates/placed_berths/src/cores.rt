// The cores of the policy.
ghost use Rattle.std.specs.Prelude.{[], IfOk};
ghost use Rattle.run_plan.specs.Sound.{Sound};
ghost use Rattle.placed_rules.specs.Placed.{delayed_discipline, on_own, on_pools, placed_discipline, shared_discipline};
ghost use Rattle.placed_rules.specs.Pools.{SoundPools};
ghost use Rattle.spawn_core.specs.Stands.{StandsIn};
ghost use Rattle.placed_berths.specs.Basis.{SoundSeating};
ghost use Rattle.placed_berths.specs.Stands.{BerthsStand, DelayStands, StandsBy};

use crate::delay::Delay;
use crate::policy::{Berths, PlacedBerths};
use crate::shared::SharedBerths;
use placed_rules::{Placed, Seating, SharedPlan};
use plain_values::NoMemory;
use run_plan::Plan;
use spawn_core::Core;
use std::alloc::Global;

/// The scheduling core of a run on berths of either kind, with Ticks or without.
pub type PlacedCore = Core<PlacedBerths>;

/// The scheduling core of a run on shared berths.
pub type SharedCore = PlacedCore;

/// A scheduling core with a local delay.
pub type DelayCore = PlacedCore;

/// Creates the core of a run on these berths, before any call. Makes the room for all that later
/// calls need.
///
/// # Errors
///
/// Returns `NoMemory` if memory runs out.
pub fn placed_core(alloc: Global, placed: Placed) -> Result<PlacedCore, NoMemory>
    requires plan { Sound placed.plan }
    requires pools { SoundSeating placed.plan placed.seating }
    ensures { IfOk result (λ c. StandsIn (placed_discipline placed) (StandsBy placed) c []) }
{
    let Placed {
        plan,
        seating,
        ticks,
    } = placed;
    let seating = berths_for(alloc, &plan, seating)?;
    let delay = delay_for(alloc, &plan, ticks)?;
    Core::with_policy(alloc, PlacedBerths { seating, delay }, plan)
}

/// Creates the core of a run on shared berths, before any call. No branch waits.
///
/// # Errors
///
/// Returns `NoMemory` if memory runs out.
pub fn shared_core(alloc: Global, shared: SharedPlan) -> Result<SharedCore, NoMemory>
    requires plan { Sound shared.plan }
    requires pools { SoundPools shared }
    ensures { IfOk result (λ c. StandsIn (shared_discipline shared)
        (StandsBy (on_pools shared None)) c []) }
{
    let SharedPlan {
        plan,
        pools,
        instances,
    } = shared;
    let seating = Seating::Pools { pools, instances };
    placed_core(
        alloc,
        Placed {
            plan,
            seating,
            ticks: None,
        },
    )
}

/// Creates the core of a run on the plan's own berths, before any call. A local branch waits for
/// `ticks` Ticks.
///
/// # Errors
///
/// Returns `NoMemory` if memory runs out.
pub fn delay_core(alloc: Global, plan: Plan, ticks: u32) -> Result<DelayCore, NoMemory>
    requires { Sound plan }
    ensures { IfOk result (λ c. StandsIn (delayed_discipline plan ticks)
        (StandsBy (on_own plan (Some ticks))) c []) }
{
    placed_core(
        alloc,
        Placed {
            plan,
            seating: Seating::Own,
            ticks: Some(ticks),
        },
    )
}

// Returns the tables of the berths, before any call.
fn berths_for(alloc: Global, plan: &Plan, seating: Seating) -> Result<Berths, NoMemory>
    requires { SoundSeating plan.now seating }
    ensures { IfOk result (λ x. BerthsStand plan.now seating x []) }
{
    match seating {
        Seating::Own => Ok(Berths::Own),
        Seating::Pools { pools, instances } => {
            let shared = SharedBerths::new(alloc, plan, pools, instances)?;
            Ok(Berths::Shared(shared))
        }
    }
}

// Returns the tables of the Ticks, before any call.
fn delay_for(alloc: Global, plan: &Plan, ticks: Option<u32>) -> Result<Option<Delay>, NoMemory>
    requires { Sound plan.now }
    ensures { IfOk result (λ d. DelayStands plan.now ticks d []) }
{
    match ticks {
        Some(ticks) => {
            let delay = Delay::new(alloc, plan, ticks)?;
            Ok(Some(delay))
        }
        None => Ok(None),
    }
}
