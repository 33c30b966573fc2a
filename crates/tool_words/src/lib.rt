//! The words of the command `worker_tool`, and the options that they give.
#![tactic(auto)]

mod options;
mod word;

pub use options::{Options, generated, read_words};
pub use word::number_behind;
