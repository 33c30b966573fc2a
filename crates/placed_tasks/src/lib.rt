//! From the arguments of the command that has all options to a task: the plan of the chosen strategies, the
//! berths on which it runs, which groups have of their own or share, the Ticks for which a local branch
//! waits, the work of the actions, and the lanes' settings.
#![tactic(auto)]

mod reading;
mod tasks;
mod words;

pub use reading::read_placed_task;
pub use tasks::PlacedTask;
pub use words::{RunOptions, read_run_words};
