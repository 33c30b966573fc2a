/// The largest number of actions in a plan.
pub const MOST_ACTIONS: usize = 4096;

/// The largest number of berths of all groups of a plan together.
pub const MOST_BERTHS: u32 = 64;

/// The largest number of berths of all worker keys of a list together. If each key has a berth, it also limits the
/// keys.
pub const MOST_LOCAL_BERTHS: u32 = 48;

/// The largest number of berths of the executor.
pub const MOST_REMOTE_BERTHS: u32 = 16;

/// The largest number of attempts of a branch.
pub const MOST_ATTEMPTS: u32 = 10;
