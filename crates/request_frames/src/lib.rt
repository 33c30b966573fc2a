//! The bytes to write for an order: to a worker or to the executor, for a Send or for a Cancel.
#![tactic(auto)]

mod frames;
mod requests;

pub use frames::{Due, cancel_frame, send_frame};
pub use requests::{DueWork, room_of};
