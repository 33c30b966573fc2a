//! The scheduling rules of a plan's berths, with and without Ticks. Either each group has berths
//! of its own, or worker keys share the berths of pools: a berth of a pool runs any group of the
//! pool that needs it, and if a group has no line, an idle line of another group is given up for
//! it. With Ticks, the local branch of an action that an executor may also run waits for some of
//! them first. Each law is the contract of a function without a body.
#![tactic(auto)]

pub mod histories;
pub mod laws;
mod placed;
mod pools;

pub use placed::{Placed, Seating};
pub use pools::{SharedPlan, SharedPool};
