//! The results of a journal, found by looking back over it: the outcome of an action, the fate of a branch,
//! and the effect of one entry on an attempt.
//!
//! `outcome` and `fate` take no memory.
#![tactic(auto)]

mod attempt_state;
mod grant;
mod lookback;
mod outcomes;

pub use attempt_state::Track;
pub use grant::{Grant, GrantKind, grant_in};
pub use lookback::{
    break_by, commit_in, ended_line, is_answered, is_end, is_send_of, is_unwritten, is_work_of,
    last_work, match_in, sent_by,
};
pub use outcomes::{
    committed_outcome, fate, is_input_lost, loser_fate, outcome, starved_outcome, winner_fate,
};
