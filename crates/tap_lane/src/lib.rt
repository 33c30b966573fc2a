//! The lane that reads the output of one berth's processes, and reports it to the scheduling core.
//!
//! It takes one line after another. It reads the tap of each piece by piece, reports each answer
//! that the bytes spell, and then reports how the line has ended.
#![tactic(auto)]

mod calls;
mod ends;
mod hearing;
mod lane;
mod seat;

pub use ends::{EndedTap, TapHalt, TapLeft};
pub use seat::TapStart;
