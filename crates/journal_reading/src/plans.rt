// The plan, read from the tokens of a JSON text.
ghost use Rattle.journal_reading.specs.Pulls.{Pulls, PullsRow};
ghost use Rattle.journal_text.specs.Options.{each};
ghost use Rattle.journal_text.specs.Reading.{group_in, maker_in, plan_action_in, plan_in};
ghost use Rattle.journal_text.specs.Values.{list_in};

use crate::misread::Misread;
use crate::values::{end, next_count, next_flag, next_maybe, next_text, next_texts, open};
use crate::words::next_kind;
use exec_journal::{Group, Maker, Plan, PlanAction};
use json::Reader;
use plain_values::Items;
use std::alloc::Global;

pub(crate) fn next_plan(alloc: Global, reader: &mut Reader<'_>) -> Result<Plan, Misread>
    ensures { Pulls 5 plan_in result reader.old reader.new }
{
    open(reader)?;
    let actions = next_actions(alloc, reader)?;
    let groups = next_groups(alloc, reader)?;
    let limit = next_count(reader)?;
    end(reader)?;
    Ok(Plan {
        actions,
        groups,
        limit,
    })
}

pub(crate) fn next_actions(
    alloc: Global,
    reader: &mut Reader<'_>,
) -> Result<Items<PlanAction>, Misread>
    ensures { Pulls 4 (list_in plan_action_in) result reader.old reader.new }
{
    open(reader)?;
    each_action(alloc, reader)
}

fn each_action(alloc: Global, reader: &mut Reader<'_>) -> Result<Items<PlanAction>, Misread>
    ensures { PullsRow 3 (each plan_action_in) result reader.old reader.new }
{
    let mut actions = Vec::new(alloc);
    'row: while !reader.take_end_array() {
        let action = next_plan_action(alloc, reader)?;
        actions.push(action)?;
    }
    Ok(Items::of(actions))
}

fn next_plan_action(alloc: Global, reader: &mut Reader<'_>) -> Result<PlanAction, Misread>
    ensures { Pulls 3 plan_action_in result reader.old reader.new }
{
    open(reader)?;
    let name = next_text(alloc, reader)?;
    let outputs = next_texts(alloc, reader)?;
    let makers = next_makers(alloc, reader)?;
    let local = next_maybe(reader)?;
    let remote = next_maybe(reader)?;
    end(reader)?;
    Ok(PlanAction {
        name,
        outputs,
        makers,
        local,
        remote,
    })
}

pub(crate) fn next_makers(alloc: Global, reader: &mut Reader<'_>) -> Result<Items<Maker>, Misread>
    ensures { Pulls 2 (list_in maker_in) result reader.old reader.new }
{
    open(reader)?;
    each_maker(alloc, reader)
}

fn each_maker(alloc: Global, reader: &mut Reader<'_>) -> Result<Items<Maker>, Misread>
    ensures { PullsRow 1 (each maker_in) result reader.old reader.new }
{
    let mut makers = Vec::new(alloc);
    'row: while !reader.take_end_array() {
        let maker = next_maker(reader)?;
        makers.push(maker)?;
    }
    Ok(Items::of(makers))
}

fn next_maker(reader: &mut Reader<'_>) -> Result<Maker, Misread>
    ensures { Pulls 1 maker_in result reader.old reader.new }
{
    open(reader)?;
    let action = next_count(reader)?;
    let output = next_count(reader)?;
    end(reader)?;
    Ok(Maker { action, output })
}

pub(crate) fn next_groups(alloc: Global, reader: &mut Reader<'_>) -> Result<Items<Group>, Misread>
    ensures { Pulls 3 (list_in group_in) result reader.old reader.new }
{
    open(reader)?;
    each_group(alloc, reader)
}

fn each_group(alloc: Global, reader: &mut Reader<'_>) -> Result<Items<Group>, Misread>
    ensures { PullsRow 2 (each group_in) result reader.old reader.new }
{
    let mut groups = Vec::new(alloc);
    'row: while !reader.take_end_array() {
        let group = next_group(reader)?;
        groups.push(group)?;
    }
    Ok(Items::of(groups))
}

fn next_group(reader: &mut Reader<'_>) -> Result<Group, Misread>
    ensures { Pulls 2 group_in result reader.old reader.new }
{
    open(reader)?;
    let kind = next_kind(reader)?;
    let cancel = next_flag(reader)?;
    let berths = next_count(reader)?;
    end(reader)?;
    Ok(Group {
        kind,
        cancel,
        berths,
    })
}
