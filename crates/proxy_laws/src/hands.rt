//! The feeds of a proxy lane's lines.

/// The feed of a line that has ended, with the line's child, which was killed.
#[derive(Drop)]
pub struct EndedFeed<D, K> {
    pub line: u32,
    pub feed: D,
    pub child: K,
}

/// The feed of a line that was started. Its child is on the shelf.
#[derive(Drop)]
pub struct OpenFeed<D> {
    pub line: u32,
    pub feed: D,
}
