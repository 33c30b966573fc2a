//! Checks if the text of a run's journal spells a legal journal. The author of the text isn't trusted.
#![tactic(auto)]

mod auditing;
mod auditor;
mod beyond;
mod feeding;
mod front;
pub mod laws;
mod replayed;
mod same;
mod sound;
mod streaming;
mod verdict;

pub use auditing::audit_with;
pub use replayed::{Begun, Replayed};
pub use sound::is_sound;
pub use streaming::check_stream_with;
pub use verdict::Verdict;
