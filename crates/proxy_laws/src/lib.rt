//! The requirements and results of each step of a proxy lane, and the feeds of its lines. Lemmas
//! state how a step changes the record of the lane's work.
#![tactic(auto)]

mod hands;

pub use hands::{EndedFeed, OpenFeed};
