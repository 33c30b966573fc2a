//! Work requests and responses as JSON, one object on a line.
//!
//! Reading looks at the keys of a message in the order of its field numbers and returns the first fault. Writing
//! returns the only written form: compact, with keys in the order of their bytes, and without parts at their default.
#![tactic(auto)]

mod keys;
mod parts;
mod read;
mod top;
mod values;
mod write;

pub use read::{read_request_line, read_response_line};
pub use write::{request_line, response_line};
