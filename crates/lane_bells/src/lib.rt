//! A bell for each lane, for which the lane waits until it may have news.
//!
//! A lane that got the reply "nothing for you now" rests, and asks again only after it is rung. If a
//! call may be news for other lanes, its caller rings them right after its turn, in the same thread.
//! Before that it reads, writes and calls nothing else.
//!
//! Then no ring is lost. Let lane L get "nothing" in turn i, and let turn j be the first call after
//! which L would get another reply. Turn j is after turn i, since turns have one order. Its caller
//! rings after j, so after L took any earlier ring. L either finds that ring when it begins to
//! rest, or is woken by it.
//!
//! Waking every lane at every call is right too, and a thousand times slower.
//!
//! A rest ends by itself after a second at most, so a caller that forgets a lane costs only a
//! second. A [`Ringer`] records how often it has rung and which lanes it rang last, so that a call
//! can promise its ring. No contract can state that a thread is woken.
#![tactic(auto)]

mod bells;

pub use bells::{Bells, Ringer};
