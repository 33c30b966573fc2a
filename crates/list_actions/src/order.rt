// The rules between the actions: for names, outputs and the inputs that others make.
ghost use Rattle.std.specs.Prelude.{◌≡◌, ◌≤◌, ◌++◌, ◌∷◌, ℕ, List, [], length, find, OnOk};
ghost use Rattle.list_actions.specs.Answers.{Settles};
ghost use Rattle.list_actions.specs.Order.{first_again, is_among, made_later, made_twice, name_twice, order_check, orders_check, outputs_of};
ghost use Rattle.list_actions.specs.declared.types.ListAction.{ListAction};
ghost use Rattle.list_actions.specs.Tables.{HasMakers, HasNames, HasPaths};
ghost use Rattle.run_plan.specs.Limits.{most_actions};

use crate::makers::LastMakers;
use crate::seen::Seen;
use crate::{ListAction, ListFault, ListRefusal};
use plain_values::Text;
use std::alloc::Global;

/// Looks for the first action that breaks a rule. It has a name or makes a path that an earlier one has, or it has an
/// input that it or a later action makes.
pub fn check_order(alloc: Global, actions: &[ListAction]) -> Result<(), ListRefusal>
    requires { length actions.now ≤ most_actions }
    ensures { Settles result (orders_check [] actions.now) }
{
    let makers = LastMakers::of(alloc, actions)?;
    let mut names = Seen::new(alloc);
    let mut made = Seen::new(alloc);
    let mut number = 0;
    for action in actions {
        check_action(alloc, &mut names, &mut made, &makers, number, action)?;
        number += 1;
    }
    Ok(())
}

fn check_action(
    alloc: Global,
    names: &mut Seen,
    made: &mut Seen,
    makers: &LastMakers,
    number: u32,
    action: &ListAction,
) -> Result<(), ListRefusal>
    ensures fault { (before rest : List ListAction) → HasNames names.old before
        → HasPaths made.old (outputs_of before) → HasMakers makers.now number rest
        → number ≡ length before → Settles result (order_check before action.now rest) }
    ensures names { (before : List ListAction) → HasNames names.old before
        → OnOk result (HasNames names.new (before ++ action.now ∷ [])) }
    ensures paths { (before : List ListAction) → HasPaths made.old (outputs_of before)
        → OnOk result (HasPaths made.new (outputs_of (before ++ action.now ∷ []))) }
{
    check_name(alloc, names, number, action)?;
    check_outputs(alloc, made, number, action.outputs.as_slice())?;
    check_inputs(alloc, makers, number, action.inputs.as_slice())
}

fn check_name(
    alloc: Global,
    names: &mut Seen,
    number: u32,
    action: &ListAction,
) -> Result<(), ListRefusal>
    ensures fault { (before : List ListAction) → HasNames names.old before
        → number ≡ length before → Settles result (name_twice number before action.now) }
    ensures names { (before : List ListAction) → HasNames names.old before
        → OnOk result (HasNames names.new (before ++ action.now ∷ [])) }
{
    if names.note(alloc, action.name.as_str())? {
        Ok(())
    } else {
        Err(ListRefusal::Fault(ListFault::TwiceNamed { action: number }))
    }
}

fn check_outputs(
    alloc: Global,
    made: &mut Seen,
    number: u32,
    outputs: &[Text],
) -> Result<(), ListRefusal>
    ensures fault { (before : List (List ℕ)) → HasPaths made.old before
        → Settles result (made_twice number (first_again before outputs.now)) }
    ensures paths { (before : List (List ℕ)) → HasPaths made.old before
        → OnOk result (HasPaths made.new (before ++ outputs.now)) }
{
    for path in outputs {
        if !made.note(alloc, path.as_str())? {
            return Err(ListRefusal::Fault(ListFault::TwiceMade {
                action: number,
                path: Text::copy_of(alloc, path.as_str())?,
            }));
        }
    }
    Ok(())
}

fn check_inputs(
    alloc: Global,
    makers: &LastMakers,
    number: u32,
    inputs: &[Text],
) -> Result<(), ListRefusal>
    ensures { (rest : List ListAction) → HasMakers makers.now number rest
        → Settles result (made_later number (find (is_among (outputs_of rest)) inputs.now)) }
{
    for path in inputs {
        if makers.is_late(path.as_str(), number) {
            return Err(ListRefusal::Fault(ListFault::MadeLater {
                action: number,
                path: Text::copy_of(alloc, path.as_str())?,
            }));
        }
    }
    Ok(())
}
