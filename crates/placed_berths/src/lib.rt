//! The policy of a plan on its berths, with and without Ticks. Each group has berths of its own, or
//! worker keys share the berths of pools: a berth of a pool runs any group of the pool that needs
//! it, and if a group has no line, an idle line of another group is given up for it. With Ticks, the
//! local branch of an action that uses both branches waits for some of them, or until the remote one
//! is dropped. The proxy lane of one more berth, after the others, makes the Ticks.
//!
//! [`PlacedBerths`] is the policy, and [`placed_core`] makes its core.
#![tactic(auto)]

mod cores;
mod delay;
mod homes;
mod lines;
mod order;
mod policy;
mod pools;
mod shared;
mod sought;
mod starved;
mod ticking;

pub use cores::{DelayCore, PlacedCore, SharedCore, delay_core, placed_core, shared_core};
pub use policy::PlacedBerths;
