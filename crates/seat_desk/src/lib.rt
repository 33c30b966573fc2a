//! A desk: many lanes call one machine. Each call has its own turn, and there is one history of all
//! calls.
//!
//! A [`Machine`] is a sequential object whose meaning is a list of entries, its history. A [`Desk`]
//! holds it under a ticket lock. Each lane has a [`Pass`], with which it calls. The [`Root`] splits
//! passes off and joins them again.
//!
//! A contract sees two lists of a pass. `seen` is a front of the one history. `mine` contains the
//! pass's own calls: in the history, the entries of its lane are exactly this list. So a caller
//! knows the reply of each call as the machine's reply at a point of the history. After
//! [`Desk::close`], it knows the whole history, with the machine that stands for it.
//!
//! Nothing is promised about waiting: a call waits for its turn, and no clause states that the turn
//! comes.
#![tactic(auto)]

mod desk;
mod entry;
mod held;
mod machine;
mod pieces;
mod plays;
mod rule;
mod turn;
mod view;

pub use desk::{Closed, Desk, Pass, Refused, Root};
pub use entry::HistoryEntry;
pub use machine::{Machine, Then};
