//! Words on lists and optional values that several crates' definitions use, and what holds of them.
#![tactic(auto)]
