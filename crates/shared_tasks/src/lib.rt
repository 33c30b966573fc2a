//! From the arguments of the command with shared berths to a task. The result has the plan of the list,
//! whose groups have no berths of their own, the pools that the groups share, and the task.
#![tactic(auto)]

mod plans;
mod pools;
mod reading;
mod words;

pub use plans::bare_groups;
pub use pools::{SpokenPools, pools_of};
pub use reading::{MOST_KEYS, SharedTask, read_shared_task};
pub use words::{SharedOptions, other_words, read_shared_words};
