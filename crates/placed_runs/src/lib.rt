//! The runs by the policy of placed berths: that whose worker keys share berths, that with strategies,
//! in which local branches may be delayed, and that which has all options. The front of each reads the
//! arguments and the list, and makes the task and its core.
#![tactic(auto)]

mod making;
mod placed_front;
mod run_core;
mod shared_front;
mod spawn_front;

pub use placed_front::{PlacedFront, run_placed};
pub use run_core::RunCore;
pub use shared_front::{SharedFront, run_shared};
pub use spawn_front::{SpawnFront, Strategic, run_strategies};
pub use worker_run::NO_STRATEGY;
