//! The journal's rules keep the requirements of a scheduling core: the laws of `Rules`, stated for any
//! history through its journal. Each law is the contract of a function without a body.
#![tactic(auto)]

pub mod laws;
