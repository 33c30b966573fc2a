//! The results of a run: the report on its actions, the status, and the reason if it ended without a report.
#![tactic(auto)]

mod fault;
mod telling;
mod words;

pub use fault::{RunFault, Stage, fault_line};
pub use telling::{report, status};
