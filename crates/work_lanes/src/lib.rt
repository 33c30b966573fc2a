//! Lanes over a work queue: one reads requests, and others answer them, each request once.
//!
//! Whatever requests and responses are, and how they are read and written, an [`Answerer`] says. A
//! request that is cancelled before a lane takes it is given up and not answered. If one is cancelled
//! while it is answered, its answerer sees a [`Flag`] raised and may stop. [`run_lanes`] runs all
//! lanes, up to the end of the input.
#![tactic(auto)]

mod answerer;
mod calls;
mod flag;
mod handling;
mod reading;
mod serving;
mod unbegun;

pub use answerer::{Answerer, Made};
pub use flag::Flag;
pub use serving::{LanesEnded, Streams, run_lanes};
pub use unbegun::Unbegun;
pub use work_queue::Kind;
