//! The branches of a run's actions that were dropped or spoiled, and why. For each: how its last attempt ended, to
//! which lane it was given on which line, and the answer by which an executor refused it.
#![tactic(auto)]

mod attempts;
mod lost;

pub use attempts::Order;
pub use lost::{Loss, losses};
