//! An action's outputs are written to its place.
#![tactic(auto)]

mod commits;

pub use commits::{Committed, commit};
