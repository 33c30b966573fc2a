//! The common parts of the programs that run a list: their words, their output on standard error, and the line on a
//! terminal that shows a run's progress.
#![tactic(auto)]

mod cures;
mod hints;
mod names;
mod reasons;
mod rules;
mod screen;
mod telling;

pub use hints::{Cause, OPTIONS, Outputs, Prints, Program, TOGETHER};
pub use screen::{BehindLine, Screen, is_dumb};
pub use telling::{end, end_unread, tell, tell_ended, tell_refused, words};
