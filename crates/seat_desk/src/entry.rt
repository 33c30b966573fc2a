//! The history's record of one call.
use crate::machine::Machine;
use plain_values::Entry;

/// An entry in the history of the machine `M`.
pub type HistoryEntry<M> = Entry<<M as Machine>::Call, <M as Machine>::Reply>;
