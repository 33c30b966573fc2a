//! Laws of every legal journal of a sound plan. Each law is the contract of a function without a body.
#![tactic(auto)]

pub mod laws;
