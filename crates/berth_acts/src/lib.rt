//! The work outside for an order, between the order and its report: on the berth, and on the feed
//! of the line.
#![tactic(auto)]

mod gathering;
mod launching;
mod sending;

pub use gathering::gather_line;
pub use launching::{Opened, launch_line};
pub use sending::{RoomFiles, give, send_line};
