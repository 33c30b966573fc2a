// The plan, written as a JSON value.
ghost use Rattle.std.specs.Prelude.{◌≡◌, IfOk, OnOk, map};
ghost use Rattle.serde_json.specs.Data.{string};
ghost use Rattle.serde_json.specs.View.{view};
ghost use Rattle.journal_text.specs.Fits.{Each, GroupFits, MakerFits, PlanActionFits, PlanFits};
ghost use Rattle.journal_text.specs.Values.{row_data};
ghost use Rattle.journal_text.specs.Writing.{group_data, maker_data, plan_action_data, plan_data};

use crate::row::Row;
use crate::words::kind_value;
use exec_journal::{Group, Maker, Plan, PlanAction};
use plain_values::{NoMemory, Text};
use serde_json::Value;
use std::alloc::Global;

pub(crate) fn plan_value(alloc: Global, plan: &Plan) -> Result<Value, NoMemory>
    ensures written { IfOk result (λ v. view v ≡ plan_data plan.now) }
    ensures fits { OnOk result (PlanFits plan.now) }
{
    let mut row = Row::new(alloc);
    row.value(actions_value(alloc, plan.actions.as_slice())?)?;
    row.value(groups_value(alloc, plan.groups.as_slice())?)?;
    row.count(plan.limit)?;
    Ok(row.into_value())
}

fn actions_value(alloc: Global, items: &[PlanAction]) -> Result<Value, NoMemory>
    ensures written { IfOk result (λ v. view v ≡ row_data (map plan_action_data items.now)) }
    ensures fits { OnOk result (Each PlanActionFits items.now) }
{
    let mut row = Row::new(alloc);
    for item in items {
        row.value(action_value(alloc, item)?)?;
    }
    Ok(row.into_value())
}

fn action_value(alloc: Global, action: &PlanAction) -> Result<Value, NoMemory>
    ensures written { IfOk result (λ v. view v ≡ plan_action_data action.now) }
    ensures fits { OnOk result (PlanActionFits action.now) }
{
    let mut row = Row::new(alloc);
    row.text(action.name.as_str())?;
    row.value(texts_value(alloc, action.outputs.as_slice())?)?;
    row.value(makers_value(alloc, action.makers.as_slice())?)?;
    row.maybe(action.local)?;
    row.maybe(action.remote)?;
    Ok(row.into_value())
}

fn texts_value(alloc: Global, items: &[Text]) -> Result<Value, NoMemory>
    ensures { IfOk result (λ v. view v ≡ row_data (map string items.now)) }
{
    let mut row = Row::new(alloc);
    for item in items {
        row.text(item.as_str())?;
    }
    Ok(row.into_value())
}

fn makers_value(alloc: Global, items: &[Maker]) -> Result<Value, NoMemory>
    ensures written { IfOk result (λ v. view v ≡ row_data (map maker_data items.now)) }
    ensures fits { OnOk result (Each MakerFits items.now) }
{
    let mut row = Row::new(alloc);
    for item in items {
        row.value(maker_value(alloc, item)?)?;
    }
    Ok(row.into_value())
}

fn maker_value(alloc: Global, maker: &Maker) -> Result<Value, NoMemory>
    ensures written { IfOk result (λ v. view v ≡ maker_data maker.now) }
    ensures fits { OnOk result (MakerFits maker.now) }
{
    let mut row = Row::new(alloc);
    row.count(maker.action)?;
    row.count(maker.output)?;
    Ok(row.into_value())
}

fn groups_value(alloc: Global, items: &[Group]) -> Result<Value, NoMemory>
    ensures written { IfOk result (λ v. view v ≡ row_data (map group_data items.now)) }
    ensures fits { OnOk result (Each GroupFits items.now) }
{
    let mut row = Row::new(alloc);
    for item in items {
        row.value(group_value(alloc, item)?)?;
    }
    Ok(row.into_value())
}

fn group_value(alloc: Global, group: &Group) -> Result<Value, NoMemory>
    ensures written { IfOk result (λ v. view v ≡ group_data group.now) }
    ensures fits { OnOk result (GroupFits group.now) }
{
    let mut row = Row::new(alloc);
    row.value(kind_value(alloc, group.kind)?)?;
    row.flag(group.cancel)?;
    row.count(group.berths)?;
    Ok(row.into_value())
}
