// The pool of a berth.
ghost use Rattle.std.specs.Prelude.{◌≡◌, Some, option_copied};
ghost use Rattle.run_plan.specs.Groups.{is_remote};
ghost use Rattle.exec_journal.specs.Seated.{kind_in};
ghost use Rattle.placed_rules.specs.Pools.{pool_at, pool_from, usable_seats};

use exec_journal::{Kind, Plan};
use placed_rules::SharedPool;
use run_plan::MOST_BERTHS;

/// Returns the number of berths of these pools, or 0 if a run may not have as many.
pub fn berths_of(pools: &[SharedPool]) -> u32
    ensures { result ≡ usable_seats pools.now }
{
    let mut berths: u64 = 0;
    for pool in pools {
        berths += u64::from(pool.berths);
        if berths > u64::from(MOST_BERTHS) {
            return 0;
        }
    }
    berths as u32
}

/// Returns the berth's pool.
pub fn pool_of(pools: &[SharedPool], berth: u32) -> Option<&SharedPool>
    ensures { option_copied result ≡ pool_from pools.now berth }
{
    let mut rest = berth;
    for pool in pools {
        if rest < pool.berths {
            return Some(pool);
        }
        rest -= pool.berths;
    }
    None
}

/// Returns the place of the berth's pool among these.
pub fn pool_at(pools: &[SharedPool], berth: u32) -> usize
    ensures { result ≡ pool_at pools.now 0 berth }
{
    let mut rest = berth;
    for (place, pool) in pools.iter().enumerate() {
        if rest < pool.berths {
            return place;
        }
        rest -= pool.berths;
    }
    pools.len()
}

/// Returns the kind of the group, if it is one of the plan's.
pub fn kind_of(plan: &Plan, group: u32) -> Kind
    ensures { result ≡ kind_in plan.now (Some group) }
{
    match plan.groups.as_slice().get(group as usize) {
        Some(group) => group.kind,
        None => Kind::Single,
    }
}

/// Returns true if the group is an executor's.
pub fn is_executor(plan: &Plan, group: u32) -> bool
    ensures { result ≡ is_remote (kind_in plan.now (Some group)) }
{
    matches!(kind_of(plan, group), Kind::Remote)
}
