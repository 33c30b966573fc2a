use plain_values::Items;
use run_plan::Plan;

/// A plan whose groups have no berths of their own. Each group is in one pool, and the pool's
/// groups share its berths. `instances` limits the lines of a group, unless it is an executor's.
#[derive(Drop)]
pub struct SharedPlan {
    pub plan: Plan,
    pub pools: Items<SharedPool>,
    pub instances: u32,
}

#[derive(Drop)]
pub struct SharedPool {
    pub groups: Items<u32>,
    pub berths: u32,
}
