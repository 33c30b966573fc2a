//! The contents of the desk's slot.
use crate::pieces::Pieces;
use plain_values::Entry;

/// The machine, and the history of the calls that led to its state.
#[derive(Drop)]
pub struct Held<M, C, R> {
    pub machine: M,
    pub history: Pieces<Entry<C, R>>,
}
