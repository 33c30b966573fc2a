//! The calls of a proxy lane, one by one: how each changes the lane's own entries, and what the
//! lane owes then. No call is answered as one off its script.
#![tactic(auto)]

mod asking;
mod claiming;
mod goods;
mod halting;
mod looking;
mod reporting;

pub use asking::{Answered, Order, ask};
pub use claiming::{Grant, claim, commit_files};
pub use halting::halt;
pub use looking::{look, look_made};
pub use reporting::{Unsaid, tell, tell_started};
