//! The lane that carries out the scheduling core's orders for one berth.
//!
//! It asks for an order, carries it out and reports the outcome, until it is told to stop. An order
//! is a Launch, a Send, a Cancel, a Gather or a Kill. If memory runs out, the lane halts. The contract
//! of each step relates the lane's record of its work before and after.
#![tactic(auto)]

mod gathering;
mod hands;
mod inputs;
mod killing;
mod lane;
mod launching;
mod sending;
mod site;

pub use lane::{ProxyLeft, run};
pub use site::Site;
