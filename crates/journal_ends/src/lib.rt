//! The results of a journal, gathered in one pass from its start: the ends of all actions, the answer that
//! won each of them, and whether all succeed, which takes no memory.
//!
//! The outcome of one action and the fate of one branch are found by looking back (`journal_lookback`).
#![tactic(auto)]

mod endings;
mod replay;
mod successes;
mod winning;

pub use endings::action_ends;
pub use journal_lookback::{fate, outcome};
pub use successes::is_all_success;
pub use winning::winning_answers;
