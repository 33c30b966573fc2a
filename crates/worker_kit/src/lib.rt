//! A library for writing workers that answer many requests at once.
//!
//! A worker is a [`Handler`]: what it makes of one request. [`serve`] does the rest: one lane reads
//! the input, and others answer what it has read, each request once and under its number. A request
//! that is cancelled before a lane takes it is answered as cancelled and not handled. If one is
//! cancelled while it is handled, its handler sees a [`Flag`] raised and may stop. [`serve_each`] gives
//! each lane a handler of its own, and hands the handlers back.
//!
//! [`Delimited`] reads and writes messages in the binary form of Protocol Buffers, each behind its
//! length.
#![tactic(auto)]

mod end;
mod handler;
mod serving;
mod speech;

pub use end::KitEnd;
pub use handler::{Handled, Handler, LaneHandler};
pub use serving::{EachEnded, KitEnded, Size, serve, serve_each};
pub use speech::{Delimited, Speech};
pub use work_lanes::{Flag, Streams, Unbegun};
