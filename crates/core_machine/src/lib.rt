//! The machine of the desk: a scheduling core with a shelf, which contains children, taps and
//! places while no lane has them.
//!
//! The contents of the shelf are a function of the history. A started line puts its child and its
//! tap there. Its tap lane takes the tap. A Kill, or its proxy lane's Halt, takes the child. A
//! grant of files takes the action's place, and its Committed puts the place back.
//!
//! The bench also records which lanes have news, and after each call names the lanes that got news
//! by it.
#![tactic(auto)]

mod bench;
pub mod laws;
mod marks;
mod replies;
mod shelf;
mod slots;
mod waking;

pub use bench::Bench;
pub use shelf::Good;
