//! Programs that read messages on a separate thread while earlier ones are answered.
//!
//! [`serve_ahead`] does the same as `message_service::serve`, and satisfies its clause. But input that
//! arrives while a message is answered is read at once, and is in sight by the turn of the next message.
#![tactic(auto)]

mod answering;
mod backlog;
mod both;
mod lanes;
mod reading;
mod serving;
mod start;

pub use serving::serve_ahead;
