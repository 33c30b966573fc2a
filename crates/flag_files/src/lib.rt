//! Flag files: the words of an action that start a worker, the words that go into a request, and the words to which a
//! request's flag files expand.
#![tactic(auto)]

mod expanding;
mod splitting;
mod texts;

pub use expanding::{FlagFault, expand};
pub use splitting::{Split, SplitFault, request_words, split_args};
