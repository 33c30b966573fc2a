//! The scheduling core. Its reply to each call of a lane is that of its policy's discipline. Its
//! state stands for the journal of the calls so far. The core keeps the laws of `Rules`, the trait
//! by which the bench and the lanes know a core. The policy decides which group each berth has, and
//! what the core orders there next.
#![tactic(auto)]

mod earliest;
mod lanes;
mod outlook;
mod policy;
mod scheduler;
mod tables;
mod turn;

pub use earliest::EarliestFirst;
pub use policy::Policy;
pub use scheduler::Core;
