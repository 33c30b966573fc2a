//! Worker keys: which actions may share a worker, and the bytes and the name of a key.
#![tactic(auto)]

mod key;
mod making;
mod written;

pub use key::{KeyParts, Mode, Named, Tool, WorkerKey};
