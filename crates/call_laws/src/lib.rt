//! Laws of a legal journal for the moment at which a lane makes a call of its script. Each law is the
//! contract of a function without a body.
#![tactic(auto)]

pub mod laws;
