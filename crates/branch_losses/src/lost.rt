// The branches that were dropped or spoiled.
ghost use Rattle.std.specs.Prelude.{◌≡◌, ◌++◌, map, reverse, IfOk, OnOk, option_copied, option_map};
ghost use Rattle.run_plan.specs.Sound.{Sound};
ghost use Rattle.branch_losses.specs.Losses.{as_list, loss_told, losses_of, lost_by};

use crate::attempts::{Nth, Order, first_answers, last_orders};
use exec_journal::{Answer, Cause, Fate, Journal, Plan};
use journal_ends::action_ends;
use plain_values::NoMemory;
use run_plan::Branch;
use std::alloc::Global;

/// A branch that has no attempt left, or whose outputs couldn't be written.
#[derive(Clone, Copy)]
pub struct Loss<'a> {
    /// The number of the action, from 0.
    pub action: u32,
    pub branch: Branch,
    /// `Dropped`, with the cause of its last attempt's end, or `Spoiled`.
    pub fate: Fate,
    /// The last order to launch or to send that attempt. `None` if the outputs couldn't be written.
    pub order: Option<Order>,
    /// The answer by which an executor refused that attempt.
    pub refusal: Option<&'a Answer>,
}

/// Returns the branches that were dropped or spoiled, action by action and the local one first. It goes through the
/// journal a few times, regardless of the number of actions.
///
/// # Errors
///
/// Returns `NoMemory` if memory runs out.
pub fn losses<'a>(alloc: Global, plan: &Plan, j: &'a Journal) -> Result<Vec<Loss<'a>>, NoMemory>
    requires { Sound plan.now }
    ensures { IfOk result (λ ls. map loss_told ls.items ≡ losses_of plan.now (reverse j.now)) }
{
    let (entries, number) = (j.entries(), plan.limit);
    let ends = action_ends(alloc, plan, j)?;
    let ends = ends.as_slice();
    let count = ends.len();
    let of_local = Nth {
        branch: Branch::Local,
        number,
    };
    let of_remote = Nth {
        branch: Branch::Remote,
        number,
    };
    let local = last_orders(alloc, count, of_local, entries)?;
    let remote = last_orders(alloc, count, of_remote, entries)?;
    let answers = first_answers(alloc, count, of_remote, entries)?;
    let (local, remote) = (local.as_slice(), remote.as_slice());
    let answers = answers.as_slice();
    let mut made = Vec::new(alloc);
    for a in 0..count {
        let action = a as u32;
        let end = &ends[a];
        let order = local[a];
        push_lost(
            &mut made,
            lost(action, Branch::Local, end.local, order, None),
        )?;
        let order = remote[a];
        let answer = answers[a];
        push_lost(
            &mut made,
            lost(action, Branch::Remote, end.remote, order, answer),
        )?;
    }
    Ok(made)
}

fn push_lost<'a>(made: &mut Vec<Loss<'a>>, lost: Option<Loss<'a>>) -> Result<(), NoMemory>
    ensures { OnOk result (made.new.items ≡ made.old.items ++ as_list lost.entry) }
{
    if let Some(lost) = lost {
        made.push(lost)?;
    }
    Ok(())
}

// Returns the loss of a branch with this fate, with the last order for its last attempt and the answer to it.
fn lost<'a>(
    action: u32,
    branch: Branch,
    fate: Fate,
    order: Option<Order>,
    answer: Option<&'a Answer>,
) -> Option<Loss<'a>>
    ensures { option_map loss_told result ≡ lost_by action branch fate order (option_copied answer.entry) }
{
    let (order, refusal) = match fate {
        Fate::Dropped(Cause::Refused, _) => (order, answer),
        Fate::Dropped(..) => (order, None),
        Fate::Spoiled(_) => (None, None),
        Fate::Unused | Fate::Won | Fate::Lost | Fate::Idle => return None,
    };
    Some(Loss {
        action,
        branch,
        fate,
        order,
        refusal,
    })
}
