//! The demonstration worker. A command copies files of a shop, and requests contain such commands.
//!
//! The arguments `--in=PATH` of a command name the files that are read, in order. Their contents are written
//! one after the other to the file of the last `--out=PATH`. The last `--exit=N` gives the exit code. Other
//! arguments are ignored.
#![tactic(auto)]

mod flags;
mod folders;
mod lane;
mod looking;
mod requests;
mod running;
mod stop;
mod words;

pub use flags::run_once;
pub use lane::DemoLane;
pub use requests::RequestLines;
pub use running::{Answer, run_words};
