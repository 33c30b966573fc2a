//! From the arguments of the command with strategies to a task. The task has the plan of the chosen
//! strategies, the work of its actions, and the lanes' settings. The work has the request arguments that
//! these strategies need.
#![tactic(auto)]

mod faults;
pub mod laws;
mod parts;
mod reading;
mod tasks;
mod wording;

pub use faults::NoSpawn;
pub use parts::parts_by;
pub use reading::read_spawn_task;
pub use spawn_strategies::other_words;
pub use tasks::{SpawnTask, chosen_names};
pub use wording::reworded;
