use crate::line::Line;
use delimited_framing::Next;
use json_framing::{Cutter, Framing};
use plain_values::NoMemory;
use std::alloc::Global;
use std::sync::Wait;

/// The first bytes of a JSON line.
const OBJECT: &[u8] = b"{\"";

/// The part of a child that reads its input frame by frame. After a bad frame it reads none.
#[derive(Drop)]
pub struct Ears {
    alloc: Global,
    serves: bool,
    /// The bytes that were read before the framing was known.
    first: Vec<u8>,
    cutter: Option<(Framing, Cutter)>,
}

impl Ears {
    pub fn new(alloc: Global, serves: bool) -> Ears {
        Ears {
            alloc,
            serves,
            first: Vec::new(alloc),
            cutter: None,
        }
    }

    /// Reads the bytes that were given since the last call.
    pub fn listen<R: Wait>(&mut self, rt: &R, line: &Line) -> Result<(), NoMemory> {
        let bytes = line.hear(rt);
        match &mut self.cutter {
            Some((_, cutter)) => cutter.feed(bytes.as_slice()),
            None => self.listen_first(bytes.as_slice()),
        }
    }

    fn listen_first(&mut self, bytes: &[u8]) -> Result<(), NoMemory> {
        self.first.extend_from_slice(bytes)?;
        if let Some(framing) = framing_of(self.serves, self.first.as_slice()) {
            let mut cutter = Cutter::new(self.alloc, framing, u64::MAX);
            cutter.feed(self.first.as_slice())?;
            self.cutter = Some((framing, cutter));
        }
        Ok(())
    }

    /// Returns the next whole frame, if there is one.
    pub fn next(&mut self) -> Result<Option<(Framing, Vec<u8>)>, NoMemory> {
        let Some((framing, cutter)) = &mut self.cutter else {
            return Ok(None);
        };
        match cutter.next()? {
            Next::Frame(frame) => Ok(Some((*framing, frame))),
            Next::NotYet | Next::Bad(_) => Ok(None),
        }
    }
}

// Returns the framing of the input, once the first bytes show it.
fn framing_of(serves: bool, first: &[u8]) -> Option<Framing> {
    if !serves && first.starts_with(OBJECT) {
        return Some(Framing::Lines);
    }
    if !serves && OBJECT.starts_with(first) {
        return None;
    }
    Some(Framing::Delimited)
}
