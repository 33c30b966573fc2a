use crate::pools::SharedPool;
use plain_values::Items;
use run_plan::Plan;

/// The berths on which the groups of a plan run.
#[derive(Drop)]
pub enum Seating {
    /// Each group has berths of its own, as the plan says.
    Own,
    /// Each group is in one pool, and the pool's groups share its berths. `instances` limits the
    /// lines of a group, unless it is an executor's.
    Pools {
        pools: Items<SharedPool>,
        instances: u32,
    },
}

/// A plan, the berths on which it runs, and the number of Ticks for which the local branch of an
/// action waits if an executor may also run the action. Without `ticks` no branch waits, and no
/// lane makes Ticks.
#[derive(Drop)]
pub struct Placed {
    pub plan: Plan,
    pub seating: Seating,
    pub ticks: Option<u32>,
}
