// A copy of a plan.
ghost use Rattle.std.specs.Prelude.{◌≡◌, IfOk};

use plain_values::{Items, NoMemory, Text, texts_again};
use run_plan::{Plan, PlanAction};
use std::alloc::Global;

/// Returns the same plan in separate memory.
///
/// # Errors
///
/// Returns `NoMemory` if memory runs out.
pub fn plan_again(alloc: Global, plan: &Plan) -> Result<Plan, NoMemory>
    ensures { IfOk result (λ twin. twin ≡ plan.now) }
{
    Ok(Plan {
        actions: actions_again(alloc, plan.actions.as_slice())?,
        groups: Items::of(plan.groups.as_slice().to_vec(alloc)?),
        limit: plan.limit,
    })
}

fn actions_again(alloc: Global, actions: &[PlanAction]) -> Result<Items<PlanAction>, NoMemory>
    ensures { IfOk result (λ twins. twins ≡ actions.now) }
{
    let mut twins = Vec::with_capacity(alloc, actions.len())?;
    for action in actions {
        twins.push(action_again(alloc, action)?)?;
    }
    Ok(Items::of(twins))
}

fn action_again(alloc: Global, action: &PlanAction) -> Result<PlanAction, NoMemory>
    ensures { IfOk result (λ twin. twin ≡ action.now) }
{
    Ok(PlanAction {
        name: Text::copy_of(alloc, action.name.as_str())?,
        outputs: texts_again(alloc, action.outputs.as_slice())?,
        makers: Items::of(action.makers.as_slice().to_vec(alloc)?),
        local: action.local,
        remote: action.remote,
    })
}
