// The task that a list yields by all options, computed from the list, its work and the options.
ghost use Rattle.std.specs.Prelude.{◌≡◌, IfOk, length};
ghost use Rattle.list_actions.specs.Whole.{IsWhole};
ghost use Rattle.run_plan.specs.Sound.{Sound};
ghost use Rattle.spawn_strategies.specs.Choices.{Answers};
ghost use Rattle.spawn_tasks.specs.Course.{UnlessMemory};
ghost use Rattle.placed_tasks.specs.Course.{ListLeads};
ghost use Rattle.placed_rules.specs.Placed.{on_own, on_pools};
ghost use Rattle.run_tasks.specs.Setup.{speeches_for};
ghost use Rattle.shared_tasks.specs.Pools.{speeches_in, spoken_pools};
ghost use Rattle.shared_tasks.specs.Tasks.{pooled};
ghost use Rattle.placed_tasks.specs.Tasks.{IsTaskOn, choice_by, limits_of, seated_on, speeches_by, ticks_for};
ghost use Rattle.placed_tasks.specs.Words.{AreRunOptions};

use crate::words::RunOptions;
use action_list::{ActionList, GroupPart, plan_again};
use placed_rules::{Placed, Seating};
use plain_values::{Items, NoMemory};
use remote_messages::Work;
use run_plan::{MOST_LOCAL_BERTHS, Plan, Speech};
use run_tasks::{Task, commands_of, speeches_of};
use shared_tasks::{MOST_KEYS, bare_groups, pools_of};
use spawn_strategies::{ChoiceFault, PlanLimits, chosen_plan};
use spawn_tasks::{NoSpawn, chosen_names, parts_by, reworded};
use std::alloc::Global;
use std::mem::replace;

/// The task that a list yields, before its lanes are started, and by which rules it runs.
#[derive(Drop)]
pub struct PlacedTask {
    pub task: Task,
    /// The plan once more, for the scheduler, with the berths on which it runs.
    pub placed: Placed,
}

/// A plan on its berths, with the speech of each berth.
#[derive(Drop)]
pub struct Seated {
    pub placed: Placed,
    pub speeches: Vec<Speech>,
}

/// Returns the task of a list that has this work with its own strategies.
///
/// # Errors
///
/// Returns `NoStrategy` of the first action that no name of its strategy list supports. Otherwise returns
/// a `Fault`: `List` with `TooMany` keys if the chosen strategies have more than 48, unless keys share
/// berths, and otherwise `Flags` of the first action whose request arguments can't be expanded. Returns
/// `NoMemory` with `Before` if memory runs out at any time.
pub fn placed_task_of(
    alloc: Global,
    options: &RunOptions,
    list: &ActionList,
    work: Work,
) -> Result<PlacedTask, NoSpawn>
    requires options { AreRunOptions options.now }
    requires list { IsWhole list.now.actions }
    requires worked { length work.actions ≡ length list.now.actions }
    ensures { UnlessMemory result (ListLeads options.now list.now.actions work.actions result) }
{
    let given = &options.given;
    let plan = plan_by(alloc, options, list)?;
    let actions = list.actions.as_slice();
    let names = chosen_names(alloc, &given.strategies, actions)?;
    let work = reworded(alloc, actions, names.as_slice(), work)?;
    let parts = parts_by(alloc, given, list, &plan, names.as_slice())?;
    Ok(task_on(alloc, options, plan, parts.as_slice(), work)?)
}

// Returns the plan of the chosen strategies.
fn plan_by(alloc: Global, options: &RunOptions, list: &ActionList) -> Result<Plan, ChoiceFault>
    requires options { AreRunOptions options.now }
    requires list { IsWhole list.now.actions }
    ensures plan { Answers result (choice_by options.now list.now.actions) }
    ensures sound { IfOk result Sound }
{
    chosen_plan(alloc, list, &options.given.strategies, options.limits())
}

impl RunOptions {
    // Returns the limits of the chosen plan. Keys that share berths have none of their own, and may be many.
    fn limits(&self) -> PlanLimits
        ensures { result ≡ limits_of self.now }
    {
        let own = &self.given.options;
        let (keys, instances) = match self.workers {
            None => (MOST_LOCAL_BERTHS, own.instances),
            Some(_) => (MOST_KEYS, 0),
        };
        PlanLimits {
            keys,
            instances,
            remote: own.remote,
            retries: own.retries,
        }
    }
}

// Returns the task of this plan, whose groups have these parts, with this work.
fn task_on(
    alloc: Global,
    options: &RunOptions,
    plan: Plan,
    parts: &[GroupPart],
    work: Work,
) -> Result<PlacedTask, NoMemory>
    requires sound { Sound plan }
    requires parts { length parts.now ≡ length plan.groups }
    ensures task { IfOk result (IsTaskOn options.now plan parts.now) }
    ensures work { IfOk result (λ made. made.task.work ≡ work) }
{
    let own = &options.given.options;
    let seated = seat(alloc, options, plan, parts)?;
    let task = Task {
        plan: plan_again(alloc, &seated.placed.plan)?,
        commands: commands_of(alloc, parts)?,
        speeches: seated.speeches,
        verbose: own.verbose,
        work,
        short: own.generate.is_some(),
    };
    Ok(PlacedTask {
        task,
        placed: seated.placed,
    })
}

// Returns the plan on its berths.
fn seat(
    alloc: Global,
    options: &RunOptions,
    plan: Plan,
    parts: &[GroupPart],
) -> Result<Seated, NoMemory>
    requires sound { Sound plan }
    requires parts { length parts.now ≡ length plan.groups }
    ensures placed { IfOk result (λ s. s.placed ≡ seated_on options.now plan parts.now) }
    ensures speeches { IfOk result
        (λ s. s.speeches.items ≡ speeches_by options.now.workers plan parts.now) }
{
    let ticks = ticks_for(options.given.local_delay);
    match options.workers {
        None => on_own(alloc, plan, parts, ticks),
        Some(workers) => {
            let instances = options.given.options.instances;
            on_pools(alloc, plan, parts, workers, instances, ticks)
        }
    }
}

// Returns the plan on its groups' own berths.
fn on_own(
    alloc: Global,
    plan: Plan,
    parts: &[GroupPart],
    ticks: Option<u32>,
) -> Result<Seated, NoMemory>
    requires parts { length parts.now ≡ length plan.groups }
    ensures placed { IfOk result (λ s. s.placed ≡ on_own plan ticks) }
    ensures speeches { IfOk result (λ s. s.speeches.items ≡ speeches_for plan parts.now) }
{
    let speeches = speeches_of(alloc, &plan, parts)?;
    let placed = Placed {
        plan,
        seating: Seating::Own,
        ticks,
    };
    Ok(Seated { placed, speeches })
}

// Returns the plan on the berths of pools, which its groups share.
fn on_pools(
    alloc: Global,
    plan: Plan,
    parts: &[GroupPart],
    workers: u32,
    instances: u32,
    ticks: Option<u32>,
) -> Result<Seated, NoMemory>
    requires sound { Sound plan }
    requires parts { length parts.now ≡ length plan.groups }
    ensures placed { IfOk result
        (λ s. s.placed ≡ on_pools (pooled plan parts.now workers instances) ticks) }
    ensures speeches { IfOk result
        (λ s. s.speeches.items ≡ speeches_in (spoken_pools plan.groups parts.now workers)) }
{
    let mut plan = plan;
    let groups = bare_groups(alloc, plan.groups.as_slice())?;
    let drawn = replace(&mut plan.groups, groups);
    let laid = pools_of(alloc, drawn.as_slice(), parts, workers)?;
    let seating = Seating::Pools {
        pools: Items::of(laid.pools),
        instances,
    };
    Ok(Seated {
        placed: Placed {
            plan,
            seating,
            ticks,
        },
        speeches: laid.speeches,
    })
}

// Returns the number of Ticks for which a local branch waits, if there is a delay.
fn ticks_for(delay: u32) -> Option<u32>
    ensures { result ≡ ticks_for delay }
{
    if delay == 0 { None } else { Some(delay) }
}
