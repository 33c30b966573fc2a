//! Reads the lines of a journal's text. Each spells a plan, a plan on its berths or an entry, or nothing.
#![tactic(auto)]

mod answers;
mod calls;
mod misread;
mod numbers;
mod placed;
mod plans;
mod reading;
mod replies;
mod values;
mod words;

pub use misread::Misread;
pub use reading::{read_entry, read_placed, read_plan};
