//! The reasons why the trials ended early.
use plain_values::NoMemory;
use std::io;

/// The reason why the trials ended early.
#[derive(Debug, Drop)]
pub enum Failure {
    /// Memory ran out.
    NoMemory,
    /// Standard output failed.
    Io(io::Error),
}

impl From<NoMemory> for Failure {
    fn from(_: NoMemory) -> Self {
        Failure::NoMemory
    }
}

impl From<io::Error> for Failure {
    fn from(error: io::Error) -> Self {
        Failure::Io(error)
    }
}
