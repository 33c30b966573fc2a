//! Creates two lanes for each berth in use, and runs them at one bench, each on its own thread. Then
//! arranges by number what they leave: the journal, the berths, the lines and the places.
//!
//! A proxy lane leaves the feeds of its lines with their children, and a tap lane the taps that it
//! took. The halves of each line are put together at the line's number, regardless of what they are.
//! All room for that is made before the lanes begin, so that no run is lost once its lanes have ended.
//! `proofs/FactsAt.antt` shows that facts known of each feed and each tap by its line are known of the
//! halves at that line.
#![tactic(auto)]

mod berths;
mod blank;
mod halves;
mod histories;
mod history;
mod lanes;
mod layout;
mod lines;
mod means;
mod pacing;
mod proxies;
mod run;

pub use halves::{EndedLine, Halves};
pub use layout::{Laid, LaidOut};
pub use means::AllMeans;
pub use proxy_laws::EndedFeed;
pub use run::{NotStarted, Run, Unrun, run_lanes};
