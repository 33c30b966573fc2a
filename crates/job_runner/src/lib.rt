//! The executor: it runs jobs in a shop, each in a separate folder, and answers each with a result.
//!
//! [`Executor`] runs one job after another. [`run_job`] and the results [`refused`] and [`given_up`] are
//! for programs that run several jobs at once.
#![tactic(auto)]

mod collecting;
mod executor;
mod fate;
mod filling;
mod laws;
mod paths;
mod results;
mod running;

pub use executor::{Executor, GREETING};
pub use fate::has_bad_path;
pub use laws::replies_fit;
pub use results::{given_up, refused};
pub use running::run_job;
