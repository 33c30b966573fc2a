//! The progress of a run: the scheduling tables record it, and a watcher reads it.
//!
//! Contracts don't cover it. It consists of counts and marks that any thread may read at any time, so a
//! look may mix values of slightly different moments.
#![tactic(auto)]

mod notes;
mod progress;
#[cfg(test)]
mod tests;
mod watcher;

pub use notes::Notes;
pub use progress::Progress;
pub use watcher::{Look, Oldest, Watcher};
