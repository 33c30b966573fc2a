//! Bytes that wait in pieces, so that none of them moves while others come and go.
#![tactic(auto)]

mod pieces;

pub use pieces::Pieces;
