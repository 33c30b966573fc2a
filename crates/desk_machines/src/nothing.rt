//! Types for the goods and the basis of a machine that has none.

/// A good that no call takes and no reply gives, or the basis of a machine that has none.
#[derive(Drop)]
pub struct Nothing;
