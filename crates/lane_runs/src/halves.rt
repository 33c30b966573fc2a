//! The halves that are left of lines.

/// The feed, the tap and the child of a line.
#[derive(Drop)]
pub struct Halves<D, T, K> {
    pub feed: D,
    pub tap: T,
    pub child: K,
}

/// A line, with its halves if it was started.
#[derive(Drop)]
pub struct EndedLine<D, T, K> {
    /// The line's number, counted from 0 in the order in which the run's journal orders the launches.
    pub number: u32,
    /// `None` if the line failed to launch.
    pub halves: Option<Halves<D, T, K>>,
}
