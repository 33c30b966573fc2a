//! Messages on a stream, each on a line, in whatever pieces the stream comes.
#![tactic(auto)]

mod cutter;
mod line;
mod readings;
mod splitter;

pub use cutter::{Cutter, Framing};
pub use readings::{given_lines_come_first, one_reading};
pub use splitter::LineSplitter;
