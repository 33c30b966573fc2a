//! The journal of a run as text: a JSON line for the plan, and one for each entry. The definitions cover both how a
//! line is written and what it spells. The code writes.
#![tactic(auto)]

mod calls;
mod placed;
mod plans;
mod replies;
mod row;
mod words;
mod writing;

pub use writing::{journal_text, placed_text};
