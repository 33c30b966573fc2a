//! Runs actions, and writes the run's journal as text after the report.
#![tactic(auto)]

mod recording;
mod told;

pub use recording::{put_journal, run_recorded};
pub use told::run_told_recorded;
