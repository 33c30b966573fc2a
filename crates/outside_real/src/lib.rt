//! The real outside: files, folders and processes below the start folder. These objects keep the traits' counts, and
//! record the calls that were made on them, with their answers. They don't record the contents of the floor's files,
//! nor what a child leaves in its room. They work by the calls of `bare_calls`, which are trusted.
#![tactic(auto)]

mod about;
mod floor;
mod input;
mod job_folder;
mod line;
mod notes;
mod output_flag;
mod pipe;
mod place;
mod reason;
mod room;
mod shop;
mod sink;
mod unended;

pub use about::{VERSION, tell_about};
pub use bare_calls::open_standard;
pub use floor::RealFloor;
pub use input::RealInput;
pub use job_folder::{JobFolders, lock_jobs};
pub use line::{RealChild, RealFeed, RealTap};
pub use output_flag::OutputFlag;
pub use pipe::ProcessEnd;
pub use place::RealPlace;
pub use reason::Reason;
pub use room::RealBerth;
pub use shop::RealShop;
pub use sink::RealSink;
