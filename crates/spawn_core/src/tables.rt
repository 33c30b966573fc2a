// The tables of a new core, in groups. So no function holds many tables when another one finds no
// memory.
ghost use Rattle.std.specs.Prelude.{◌≡◌, ◌<◌, ◌*◌, ◌^◌, [], IfOk, replicate};
ghost use Rattle.run_plan.specs.Sound.{Sound};
ghost use Rattle.worker_pool.specs.Stands as pools;
ghost use Rattle.request_table.specs.Stands as requests;
ghost use Rattle.cancel_rules.specs.Stands as cancels;
ghost use Rattle.ready_order.specs.Stands as queues;
ghost use Rattle.race_core.specs.Stands as races;
ghost use Rattle.retry_rules.specs.Stands as attempts;
ghost use Rattle.core_tables.specs.Lanes.{no_work};
ghost use Rattle.core_tables.specs.Last.{no_line};
ghost use Rattle.core_tables.specs.Greetings.{silent};
ghost use Rattle.core_tables.specs.Matches.{no_matches};

use cancel_rules::Cancels;
use core_tables::{Greetings, Lanes, LastLines, Matches};
use exec_journal::Plan;
use plain_values::NoMemory;
use race_core::Race;
use ready_order::Ready;
use request_table::Requests;
use retry_rules::Attempts;
use std::alloc::Global;
use worker_pool::Pool;

/// Creates the tables of the workers' lines, on `berths` berths.
pub fn line_tables(
    alloc: Global,
    plan: &Plan,
    berths: usize,
) -> Result<(Pool, Requests, Cancels), NoMemory>
    requires { Sound plan.now }
    ensures { IfOk result (λ t. pools.Stands plan.now berths t.0 []
        × requests.Stands plan.now t.1 [] × cancels.Stands plan.now t.2 []) }
{
    let pool = Pool::new(alloc, plan, berths)?;
    let requests = Requests::new(alloc, plan)?;
    let cancels = Cancels::new(alloc, plan)?;
    Ok((pool, requests, cancels))
}

/// Creates the tables of the actions.
pub fn action_tables(alloc: Global, plan: &Plan) -> Result<(Ready, Race, Attempts), NoMemory>
    requires { Sound plan.now }
    ensures { IfOk result (λ t. queues.Stands plan.now t.0 []
        × races.Stands plan.now t.1 [] × attempts.Stands plan.now t.2 []) }
{
    let ready = Ready::new(alloc, plan)?;
    let race = Race::new(alloc, plan)?;
    let attempts = Attempts::new(alloc, plan)?;
    Ok((ready, race, attempts))
}

/// Creates the tables of the lanes, two for each berth, and of the berths.
pub fn lane_tables(
    alloc: Global,
    berths: usize,
) -> Result<(Lanes, LastLines, Greetings, Matches), NoMemory>
    requires { berths < 2 ^ 31 }
    ensures { IfOk result (λ t. (t.0 ≡ replicate (2 * berths) no_work)
        × (t.1 ≡ replicate berths no_line) × (t.2 ≡ replicate berths silent)
        × (t.3 ≡ replicate berths no_matches)) }
{
    let lanes = Lanes::new(alloc, 2 * berths)?;
    let last = LastLines::new(alloc, berths)?;
    let greetings = Greetings::new(alloc, berths)?;
    let matches = Matches::new(alloc, berths)?;
    Ok((lanes, last, greetings, matches))
}
