//! The plan of a run: its actions and groups, and the conditions of every call that takes a plan.
#![tactic(auto)]

mod limits;
mod plan;

pub use limits::{MOST_ACTIONS, MOST_ATTEMPTS, MOST_BERTHS, MOST_LOCAL_BERTHS, MOST_REMOTE_BERTHS};
pub use plan::{Branch, Group, Kind, Maker, Plan, PlanAction, Speech};
