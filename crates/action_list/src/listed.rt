// The whole list, read and checked step by step.
ghost use Rattle.std.specs.Prelude.{◌≡◌, ◌≤◌, length, map, MatchResult, Ok};
ghost use Rattle.serde_json.specs.View.{view};
ghost use Rattle.action_list.specs.Actions.{action_in};
ghost use Rattle.list_actions.specs.Answers.{Answers, Refuses, Settles};
ghost use Rattle.action_list.specs.Checks.{action_check, actions_check};
ghost use Rattle.action_list.specs.Format.{draft_of};
ghost use Rattle.action_list.specs.Lists.{list_check, list_of, list_of_datas, list_of_top};
ghost use Rattle.run_plan.specs.Limits.{most_actions};

use crate::checks::check_action;
use crate::draft::Draft;
use crate::keys::check_keys;
use crate::made::action_of;
use crate::top::{actions_in, read_json};
use crate::{ActionList, ListAction, ListRefusal};
use list_actions::check_order;
use plain_values::Items;
use serde_json::Value;
use std::alloc::Global;

/// Returns the list that the bytes spell, if it has at most `limit` worker keys.
pub fn list_of(alloc: Global, limit: usize, bytes: &[u8]) -> Result<ActionList, ListRefusal>
    ensures { Answers result (list_of limit bytes.now) }
{
    let top = read_json(alloc, bytes)?;
    list_of_top(alloc, limit, &top)
}

fn list_of_top(alloc: Global, limit: usize, top: &Value) -> Result<ActionList, ListRefusal>
    ensures { Answers result (list_of_top limit (view top.now)) }
{
    let values = actions_in(top)?;
    list_of_values(alloc, limit, values)
}

fn list_of_values(alloc: Global, limit: usize, values: &[Value]) -> Result<ActionList, ListRefusal>
    requires { length values.now ≤ most_actions }
    ensures { Answers result (list_of_datas limit (map view values.now)) }
{
    let actions = read_actions(alloc, values)?;
    check_list(alloc, limit, actions.as_slice())?;
    Ok(ActionList {
        actions: Items::of(actions),
    })
}

fn check_list(alloc: Global, limit: usize, actions: &[ListAction]) -> Result<(), ListRefusal>
    requires { length actions.now ≤ most_actions }
    ensures { Settles result (list_check limit actions.now) }
{
    check_order(alloc, actions)?;
    check_keys(alloc, limit, actions)
}

fn read_actions(alloc: Global, values: &[Value]) -> Result<Vec<ListAction>, ListRefusal>
    requires { length values.now ≤ most_actions }
    ensures { MatchResult result
        (λ v. (actions_check 0 (map view values.now) ≡ Ok tt)
        × (v.items ≡ map action_in (map view values.now)))
        (λ r. Refuses r (actions_check 0 (map view values.now))) }
{
    let mut actions = Vec::new(alloc);
    let mut number = 0;
    for value in values {
        actions.push(read_action(alloc, number, value)?)?;
        number += 1;
    }
    Ok(actions)
}

fn read_action(alloc: Global, number: u32, value: &Value) -> Result<ListAction, ListRefusal>
    ensures { MatchResult result
        (λ x. (action_check number (draft_of (view value.now)) ≡ Ok tt)
        × (x ≡ action_in (view value.now)))
        (λ r. Refuses r (action_check number (draft_of (view value.now)))) }
{
    let draft = Draft::of(alloc, value)?;
    check_action(alloc, number, &draft)?;
    Ok(action_of(alloc, draft)?)
}
