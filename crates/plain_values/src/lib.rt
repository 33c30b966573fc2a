//! The small values that every layer shares: text, bytes that are cheap to copy and whose digest is computed
//! once, lists, how a process is started, the entry of a call, and that memory ran out.
#![tactic(auto)]

mod blob;
mod command;
mod digest;
mod digit_slot;
mod entry;
mod items;
mod no_memory;
#[cfg(test)]
mod tests;
mod text;

pub use blob::Blob;
pub use command::{Command, Variable, variables_again};
pub use digest::digest_of;
pub use entry::Entry;
pub use items::Items;
pub use no_memory::NoMemory;
pub use text::{Text, texts_again};
