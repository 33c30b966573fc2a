//! Machines for trials of the desk. An adder is called on four threads. Another adder has a modulus that is
//! known only at run time, and a reply for lack of room. A shelf has goods and paid calls, and a lane
//! leaves a token on it. Lanes on threads fill and empty one slot, so that each call waits for the call
//! of another lane.
#![tactic(auto)]

pub mod adder;
pub mod adding;
pub mod counter;
pub mod counting;
pub mod exchanging;
pub mod lending;
pub mod locker;
mod nothing;
pub mod slot;

pub use nothing::Nothing;
