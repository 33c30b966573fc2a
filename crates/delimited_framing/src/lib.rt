//! Messages on a stream, each preceded by its length, in pieces of any size.
#![tactic(auto)]

mod frame;
mod readings;
mod splitter;

pub use frame::{FrameFault, Next};
pub use readings::{delimited_is_read, given_frames_come_first, one_reading};
pub use splitter::Splitter;
