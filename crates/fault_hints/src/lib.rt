//! Hints for a fault of the command's words, a list, a flag file or a path: lines that name the cause and, if it is
//! known, the cure. Each begins with two spaces and ends with a line feed. No clause covers the rest of their text,
//! since only people read them.
#![tactic(auto)]

mod action;
mod keys;
mod list;
mod page;
mod path;
mod words;

pub use list::{flag_lines, key_lines, list_lines};
pub use path::{AtPath, at_path_line, path_lines};
pub use words::word_lines;
