//! Work requests and responses in the binary form of Protocol Buffers.
//!
//! Each kind of message is a [`Message`]. It defines which of its fields it refuses, what a list of fields means, and
//! which fields are written for it. One decoder and one encoder do the rest. The `push_` functions append fields, the
//! `_len` functions measure them, and the methods of [`Value`] take them. A crate with its own messages builds on
//! these.
#![tactic(auto)]

mod fault;
mod input;
mod measure;
mod message;
mod push;
mod readings;
mod request;
mod response;
mod value;

pub use fault::{JsonKey, MessageFault};
pub use input::Input;
pub use measure::{bool_len, bytes_len, int32_len, messages_len, span_len, texts_len};
pub use message::{Message, decode, encode, encode_delimited};
pub use push::{push_bool, push_bytes, push_int32, push_messages, push_texts};
pub use readings::{requests_are_read_one_way, responses_are_read_one_way};
pub use request::{WorkRequest, decode_request, encode_request};
pub use response::{WorkResponse, decode_response, encode_response};
pub use value::{Value, push_item};
