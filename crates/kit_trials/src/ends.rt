// An input and an output in memory.
ghost use Rattle.std.specs.Prelude.{None};

use outside::{Io, Sink, Taken, Tap};
use std::alloc::Global;

/// The reply of an input once all its bytes have been read.
#[derive(Clone, Copy, PartialEq, Eq)]
pub enum Last {
    End,
    Fault,
}

/// An input that returns these bytes, at most `piece` for each read.
#[derive(Drop)]
pub struct Fed<'a> {
    rest: &'a [u8],
    piece: usize,
    last: Last,
    faults: u64,
}

impl<'a> Fed<'a> {
    pub fn new(rest: &'a [u8], piece: usize, last: Last) -> Fed<'a> {
        Fed {
            rest,
            piece,
            last,
            faults: 0,
        }
    }
}

impl Tap for Fed<'_> {
    ghost told = { λ t. record { line = None; faults = t.faults; taken = None; ended = None } };

    fn faults(&self) -> u64 {
        self.faults
    }

    fn read(&mut self, into: &mut [u8]) -> Taken {
        let count = self.rest.len().min(self.piece).min(into.len());
        if count == 0 {
            if self.last == Last::End {
                return Taken::End;
            }
            self.faults = self.faults.saturating_add(1);
            return Taken::Failed;
        }
        let (now, later) = self.rest.split_at(count);
        into[..count].copy_from_slice(now);
        self.rest = later;
        Taken::Bytes(count)
    }
}

/// An output that stores the bytes written to it while there is room, and then fails.
#[derive(Drop)]
pub struct Kept {
    bytes: Vec<u8>,
    room: usize,
    faults: u64,
}

impl Kept {
    pub fn new(alloc: Global, room: usize) -> Kept {
        Kept {
            bytes: Vec::new(alloc),
            room,
            faults: 0,
        }
    }

    /// Returns the bytes that were stored.
    pub fn bytes(&self) -> &[u8] {
        &self.bytes
    }

    pub fn into_bytes(self) -> Vec<u8> {
        self.bytes
    }
}

impl Sink for Kept {
    ghost told = { λ s. record { faults = s.faults; contents = None } };

    fn faults(&self) -> u64 {
        self.faults
    }

    fn put(&mut self, bytes: &[u8]) -> Io {
        let left = self.room.saturating_sub(self.bytes.len());
        let count = bytes.len().min(left);
        if self.bytes.extend_from_slice(&bytes[..count]).is_ok() && count == bytes.len() {
            return Io::Done;
        }
        self.faults = self.faults.saturating_add(1);
        Io::Failed
    }
}
