//! Reads a list of actions and the files that the actions read, and computes the actions' work from both.
#![tactic(auto)]

mod loading;
mod reading;
mod sources;
mod works;

pub use build_report::{RunFault, Stage};
pub use loading::{Loaded, load, load_work, read_actions};
pub use works::source_files;
