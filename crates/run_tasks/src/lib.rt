//! From the arguments of a command to a task: the plan of its list, the work of its actions, and the
//! settings of the lanes. The settings are a speech (a protocol) for each berth, and a command for each
//! group.
//!
//! A plan numbers its berths group by group, and all berths of a group have the same speech.
//! [`speeches_of`] returns the speeches berth by berth. [`commands_of`] returns the command that starts
//! the lines (worker processes) of each group.
#![tactic(auto)]

pub mod laws;
mod reading;
mod setup;
mod task;

pub use reading::read_task;
pub use setup::{commands_of, speeches_of};
pub use task::Task;
