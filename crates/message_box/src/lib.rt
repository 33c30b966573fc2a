//! A mailbox between two lanes of a desk. One lane reads messages and puts them in, and the other takes
//! them out.
//!
//! The [`Mailbox`] is the machine. Its contents after a history are the history's state. The contracts of
//! the calls here state how they change the state that a lane has seen. So each lane knows its own part
//! without the other. The reader knows all that it has put in and how it stopped, and the taker knows all
//! that it has taken. Once the taker has left, nothing changes, so both then know the same state.
//! [`settle`] proves that.
//!
//! The last report of each lane takes no memory: how the reader stopped, and that the taker has left.
#![tactic(auto)]

mod mailbox;
mod reading;
mod settling;
mod taking;

pub use mailbox::{AHEAD, Answer, Ask, Mailbox, Nothing, READER, Stop, TAKER};
pub use reading::{Offered, await_leave, await_room, put, stop};
pub use settling::settle;
pub use taking::{Took, leave, take, take_waiting};
