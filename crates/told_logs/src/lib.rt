//! The record of what an object of the outside has been asked, as clauses see it. It has no bytes: nothing of it exists
//! when a program runs.
#![tactic(auto)]

mod told;

pub use told::{Note, Told};
