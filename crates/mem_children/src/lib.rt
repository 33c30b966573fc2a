//! Children in memory, and berths, feeds and taps over them. A child plays from a script what a process
//! would do with its input.
//!
//! The feed, the tap and the child of a line, and its berth, share what a process and its folder would
//! share. These are the bytes that were given and not yet read, the files of the room, and if the child was
//! killed. None of that is recorded: each object records only what was done with itself.
//!
//! A child has no thread of its own. It is played when its tap is read, up to the next bytes, and waits
//! there. A wait looks again for some hundred turns. Then it rests until it is rung, so that no waiting
//! object burns a processor.
#![tactic(auto)]

mod actor;
mod bell;
mod berth;
mod calls;
mod child;
mod ears;
mod feed;
mod line;
mod notes;
mod obliging;
mod patience;
mod ready;
mod room;
mod script;
mod scripted;
mod tap;

pub use berth::MemBerth;
pub use calls::Calls;
pub use child::MemChild;
pub use feed::MemFeed;
pub use line::Gates;
pub use notes::{note, note_end};
pub use room::Files;
pub use script::{Beat, FailAt, Object, Script};
pub use tap::MemTap;
