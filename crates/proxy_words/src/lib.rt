//! The work of a proxy lane for each of its entries, between an order and its report.
#![tactic(auto)]

mod halt;

pub use halt::ProxyHalt;
