//! Requests that one lane reads and others answer, and the one sink to which their responses are
//! put.
//!
//! The [`WorkQueue`] is the machine of a desk. What waits, what is in hand and what was answered is
//! a function of the history: each request that is to be answered stands in one of the three, once.
//! A response is put in the turn in which it is answered, so responses stand whole, one after
//! another, in the order of the history.
//!
//! That memory ran out, that the sink failed, and that no more comes, the history doesn't know. Once
//! memory has run out or the sink has failed the queue answers `Closed`, and nothing changes any
//! more; where no more comes it does so to who asks for a request while none waits. Who has the
//! queue in the end asks it how all is over.
#![tactic(auto)]

mod kind;
mod outlet;
mod queue;
mod rows;
mod signs;

pub use kind::Kind;
pub use outlet::Outlet;
pub use queue::{Ask, How, Load, READER, Start, Told, WorkQueue};
pub use rows::{Asked, Hand};
pub use signs::{CancelFlag, Flags};
