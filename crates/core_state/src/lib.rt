//! The scheduler's state: one table for each concern, and how each call changes them.
#![tactic(auto)]

mod choice;
mod make;
mod reports;
mod state;

pub use choice::Choice;
pub use state::State;
