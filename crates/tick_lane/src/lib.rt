//! The lane that makes Ticks: the calls by which a scheduling core with a delay counts time.
//!
//! It is the proxy lane of a berth that never gets an order. It makes a Tick. If the Tick is noted,
//! the lane waits for its pacer's next tick. If nobody waits for a Tick, the lane waits at the
//! bench.
#![tactic(auto)]

mod calls;
mod clock;
mod lane;
mod pacer;
mod seat;

pub use clock::ClockPacer;
pub use pacer::{EagerPacer, Pacer};
pub use seat::{TickEnd, TickLeft, TickStart};
