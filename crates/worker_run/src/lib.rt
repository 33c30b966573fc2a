//! The top call: it reads a list of actions, runs the lanes of its workers on threads, and reports.
#![tactic(auto)]

mod build;
mod by_core;
mod by_front;
mod ended;
mod front;
mod objects;
mod own;
mod running;

pub use build::{run_build, run_build_watched};
pub use build_report::{RunFault, Stage, fault_line};
pub use by_core::{run_and_report, run_paced};
pub use by_front::{Around, Finished, NO_STRATEGY, run};
pub use ended::{Ended, EndedLine, Halves, UnsaidLine};
pub use front::{Front, Made, NoRun};
pub use lane_runs::{Laid, LaidOut};
pub use lane_threads::Lack;
pub use own::OwnFront;
pub use run_tasks::Task;
pub use running::{Ran, Surroundings, run_plan};
