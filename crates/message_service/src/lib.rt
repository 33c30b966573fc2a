//! Programs that read messages from their input and answer each by calls on a shop.
//!
//! A [`Service`] defines the kind of messages and how each is answered. [`serve`] does the rest. It reads
//! the available messages, handles them one after another, and reads on, up to the end of the input.
//! [`hear_piece`] and [`answer_one`] are for programs that read while messages are handled.
#![tactic(auto)]

mod answering;
mod finish;
mod hearing;
mod service;
mod serving;

pub use answering::answer_one;
pub use finish::Finish;
pub use hearing::{Come, hear_piece};
pub use service::Service;
pub use serving::serve;
