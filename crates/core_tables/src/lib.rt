//! The scheduling core's tables in addition to the six. They record the outstanding work of each
//! lane, facts about each berth's last line and its greeting, and the matches that wait there. They
//! also contain the files that were granted or that matched answers have.
#![tactic(auto)]

mod berth_group;
pub mod file_laws;
mod file_rows;
mod files;
mod greetings;
mod lanes;
mod last;
mod matches;

pub use berth_group::{BerthGroup, group_of_berth};
pub use files::{Files, Slot};
pub use greetings::{Greeting, Greetings};
pub use lanes::{LaneState, Lanes, Owed, Said};
pub use last::{LastLine, LastLines};
pub use matches::{Match, Matches};
