// The plan on its berths, read from the tokens of a JSON text.
ghost use Rattle.placed_rules.specs.declared.placed.Seating.TheVariants as seating;
ghost use Rattle.journal_reading.specs.Pulls.{Pulls, PullsRow};
ghost use Rattle.journal_reading.specs.Readings.{Reads};
ghost use Rattle.journal_text.specs.Options.{each};
ghost use Rattle.journal_text.specs.Placed.{placed_by, placed_in, placed_row, pool_in, pools_by, seating_by, seating_in, ticks_for, ticks_in};
ghost use Rattle.journal_text.specs.Values.{count_in, list_in, whole};

use crate::misread::Misread;
use crate::plans::next_plan;
use crate::values::{end, next_count, open, variant};
use json::Reader;
use placed_rules::{Placed, Seating, SharedPool};
use plain_values::Items;
use std::alloc::Global;

pub(crate) fn next_placed(alloc: Global, reader: &mut Reader<'_>) -> Result<Placed, Misread>
    ensures { Pulls 6 placed_in result reader.old reader.new }
{
    let name = variant(reader)?;
    placed_by(alloc, name, reader)
}

fn placed_by(alloc: Global, name: &str, reader: &mut Reader<'_>) -> Result<Placed, Misread>
    ensures { PullsRow 5 (placed_by name.now) result reader.old reader.new }
{
    match name {
        "Placed" => placed_row(alloc, reader),
        _ => Err(Misread::Otherwise),
    }
}

fn placed_row(alloc: Global, reader: &mut Reader<'_>) -> Result<Placed, Misread>
    ensures { PullsRow 5 placed_row result reader.old reader.new }
{
    let plan = next_plan(alloc, reader)?;
    let seating = next_seating(alloc, reader)?;
    let ticks = next_ticks(&seating, reader)?;
    end(reader)?;
    Ok(Placed {
        plan,
        seating,
        ticks,
    })
}

fn next_seating(alloc: Global, reader: &mut Reader<'_>) -> Result<Seating, Misread>
    ensures { Pulls 4 seating_in result reader.old reader.new }
{
    let name = variant(reader)?;
    seating_by(alloc, name, reader)
}

fn seating_by(alloc: Global, name: &str, reader: &mut Reader<'_>) -> Result<Seating, Misread>
    ensures { PullsRow 3 (seating_by name.now) result reader.old reader.new }
{
    match name {
        "Own" => own(reader),
        "Pools" => pools_by(alloc, reader),
        _ => Err(Misread::Otherwise),
    }
}

fn own(reader: &mut Reader<'_>) -> Result<Seating, Misread>
    ensures { PullsRow 0 (whole seating.Own) result reader.old reader.new }
{
    end(reader)?;
    Ok(Seating::Own)
}

fn pools_by(alloc: Global, reader: &mut Reader<'_>) -> Result<Seating, Misread>
    ensures { PullsRow 3 pools_by result reader.old reader.new }
{
    let pools = next_pools(alloc, reader)?;
    let instances = next_count(reader)?;
    end(reader)?;
    Ok(Seating::Pools { pools, instances })
}

fn next_pools(alloc: Global, reader: &mut Reader<'_>) -> Result<Items<SharedPool>, Misread>
    ensures { Pulls 3 (list_in pool_in) result reader.old reader.new }
{
    open(reader)?;
    each_pool(alloc, reader)
}

fn each_pool(alloc: Global, reader: &mut Reader<'_>) -> Result<Items<SharedPool>, Misread>
    ensures { PullsRow 2 (each pool_in) result reader.old reader.new }
{
    let mut pools = Vec::new(alloc);
    'row: while !reader.take_end_array() {
        let pool = next_pool(alloc, reader)?;
        pools.push(pool)?;
    }
    Ok(Items::of(pools))
}

fn next_pool(alloc: Global, reader: &mut Reader<'_>) -> Result<SharedPool, Misread>
    ensures { Pulls 2 pool_in result reader.old reader.new }
{
    open(reader)?;
    let groups = next_counts(alloc, reader)?;
    let berths = next_count(reader)?;
    end(reader)?;
    Ok(SharedPool { groups, berths })
}

fn next_counts(alloc: Global, reader: &mut Reader<'_>) -> Result<Items<u32>, Misread>
    ensures { Pulls 1 (list_in count_in) result reader.old reader.new }
{
    open(reader)?;
    each_count(alloc, reader)
}

fn each_count(alloc: Global, reader: &mut Reader<'_>) -> Result<Items<u32>, Misread>
    ensures { PullsRow 0 (each count_in) result reader.old reader.new }
{
    let mut counts = Vec::new(alloc);
    'row: while !reader.take_end_array() {
        let count = next_count(reader)?;
        counts.push(count)?;
    }
    Ok(Items::of(counts))
}

// Reads the number of Ticks behind this seating.
fn next_ticks(seating: &Seating, reader: &mut Reader<'_>) -> Result<Option<u32>, Misread>
    ensures { Pulls 0 (ticks_in seating.now) result reader.old reader.new }
{
    let number = next_count(reader)?;
    ticks_for(seating, number)
}

// Returns the Ticks that the number means. Own berths without Ticks have no row.
fn ticks_for(seating: &Seating, number: u32) -> Result<Option<u32>, Misread>
    ensures { Reads result (ticks_for seating.now number) }
{
    if number > 0 {
        return Ok(Some(number));
    }
    match seating {
        Seating::Own => Err(Misread::Otherwise),
        Seating::Pools { .. } => Ok(None),
    }
}
