//! A core's tables agree with the journal about shared berths: which lines are idle, which groups are
//! starved, what is launched for them, and which line is given up. The functions do nothing: each is a law.
#![tactic(auto)]

pub mod berths;
pub mod groups;
pub mod words;
