//! The executor that runs jobs in parallel. Lanes at a work queue each run one job after another in their
//! own shops.
#![tactic(auto)]

mod lane;
mod pool;

pub use lane::JobLane;
pub use pool::pool_jobs;
pub use work_lanes::{LanesEnded, Streams};
