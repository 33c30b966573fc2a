// The plan on its berths, written as a JSON value.
ghost use Rattle.std.specs.Prelude.{◌≡◌, IfOk, OnOk, map};
ghost use Rattle.placed_rules.specs.declared.placed.Seating.TheVariants as seating;
ghost use Rattle.serde_json.specs.View.{view};
ghost use Rattle.journal_text.specs.Fits.{Each, IsCount, PlacedFits, PoolFits, SeatingFits};
ghost use Rattle.journal_text.specs.Placed.{has_row, placed_data, pool_data, seating_data};
ghost use Rattle.journal_text.specs.Values.{count_data, row_data};

use crate::plans::plan_value;
use crate::row::{Row, word_value};
use placed_rules::{Placed, Seating, SharedPool};
use plain_values::NoMemory;
use serde_json::Value;
use std::alloc::Global;

/// Returns true unless berths are own and there are no Ticks: then the plan's row stands alone.
pub(crate) fn has_row(placed: &Placed) -> bool
    ensures { result ≡ has_row placed.now.seating placed.now.ticks }
{
    match placed.seating {
        Seating::Own => placed.ticks.is_some(),
        Seating::Pools { .. } => true,
    }
}

pub(crate) fn placed_value(alloc: Global, placed: &Placed) -> Result<Value, NoMemory>
    ensures written { IfOk result (λ v. view v ≡ placed_data placed.now) }
    ensures fits { OnOk result (PlacedFits placed.now) }
{
    let mut row = Row::variant(alloc, "Placed")?;
    row.value(plan_value(alloc, &placed.plan)?)?;
    row.value(seating_value(alloc, &placed.seating)?)?;
    row.count(placed.ticks.unwrap_or(0))?;
    Ok(row.into_value())
}

fn seating_value(alloc: Global, seating: &Seating) -> Result<Value, NoMemory>
    ensures written { IfOk result (λ v. view v ≡ seating_data seating.now) }
    ensures fits { OnOk result (SeatingFits seating.now) }
{
    match seating {
        Seating::Own => word_value(alloc, "Own"),
        Seating::Pools { pools, instances } => pooled_value(alloc, pools.as_slice(), *instances),
    }
}

fn pooled_value(alloc: Global, pools: &[SharedPool], instances: u32) -> Result<Value, NoMemory>
    ensures written { IfOk result (λ v.
        view v ≡ seating_data (seating.Pools pools.now instances)) }
    ensures fits { OnOk result (SeatingFits (seating.Pools pools.now instances)) }
{
    let mut row = Row::variant(alloc, "Pools")?;
    row.value(pools_value(alloc, pools)?)?;
    row.count(instances)?;
    Ok(row.into_value())
}

fn pools_value(alloc: Global, items: &[SharedPool]) -> Result<Value, NoMemory>
    ensures written { IfOk result (λ v. view v ≡ row_data (map pool_data items.now)) }
    ensures fits { OnOk result (Each PoolFits items.now) }
{
    let mut row = Row::new(alloc);
    for item in items {
        row.value(pool_value(alloc, item)?)?;
    }
    Ok(row.into_value())
}

fn pool_value(alloc: Global, pool: &SharedPool) -> Result<Value, NoMemory>
    ensures written { IfOk result (λ v. view v ≡ pool_data pool.now) }
    ensures fits { OnOk result (PoolFits pool.now) }
{
    let mut row = Row::new(alloc);
    row.value(counts_value(alloc, pool.groups.as_slice())?)?;
    row.count(pool.berths)?;
    Ok(row.into_value())
}

fn counts_value(alloc: Global, items: &[u32]) -> Result<Value, NoMemory>
    ensures written { IfOk result (λ v. view v ≡ row_data (map count_data items.now)) }
    ensures fits { OnOk result (Each IsCount items.now) }
{
    let mut row = Row::new(alloc);
    for item in items {
        row.count(*item)?;
    }
    Ok(row.into_value())
}
