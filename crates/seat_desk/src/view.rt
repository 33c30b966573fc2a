//! The knowledge of each seat at the table. No value of these types is made: they are data of the
//! proofs.
//!
//! Seat 0 is the root's, and seat `k + 1` is lane `k`'s.
use plain_values::Entry;
use std::collections::LinkedList;

/// The owner of a seat.
pub enum Role {
    /// The root, after this number of passes were split.
    Root(u64),
    /// The pass of this lane.
    Lane(u64),
    /// A pass that was joined.
    Gone,
}

/// The stage of a seat in the queue. Tickets are counted from the first one. The table's words hold
/// them modulo 2^64.
pub enum Stage {
    /// The seat has no ticket.
    Idle,
    /// The seat has drawn this ticket.
    Waits(u64),
    /// This ticket is served, and the seat has the machine.
    Turn(u64),
}

/// The calls of one lane whose pass was joined.
pub struct Joined<C, R> {
    pub lane: u64,
    pub calls: LinkedList<Entry<C, R>>,
}

/// The knowledge of a seat.
pub struct View<C, R, Q> {
    /// The seat's owner.
    pub role: Role,
    /// The basis of the machine that the table has.
    pub basis: Q,
    /// The seat's stage in the queue.
    pub stage: Stage,
    /// A front of the one history.
    pub seen: LinkedList<Entry<C, R>>,
    /// The entries that the seat has learned of, also a front of the history.
    pub told: LinkedList<Entry<C, R>>,
    /// The calls of the seat's own lane.
    pub mine: LinkedList<Entry<C, R>>,
    /// The passes that the root has joined.
    pub joined: LinkedList<Joined<C, R>>,
}
