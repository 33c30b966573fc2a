ghost use Rattle.std.specs.Prelude.{◌≡◌, [], Some};

use crate::calls::Calls;
use crate::line::Line;
use crate::{Object, Script};
use outside::{Feed, Io};
use std::alloc::Global;
use std::sync::{Arc, Wait};

/// The pipe into a child. It records the bytes given.
#[derive(Drop)]
pub struct MemFeed<R> {
    rt: R,
    script: Arc<Script>,
    shared: Arc<Line>,
    line: u32,
    given: Vec<u8>,
    calls: Calls,
    faults: u64,
}

impl<R> MemFeed<R> {
    /// Returns the feed of this line.
    pub fn new(
        rt: R,
        alloc: Global,
        script: Arc<Script>,
        shared: Arc<Line>,
        line: u32,
    ) -> MemFeed<R>
        ensures line { result.line ≡ line }
        ensures given { result.given.items ≡ [] }
        ensures faults { result.faults ≡ 0 }
    {
        MemFeed {
            rt,
            script,
            shared,
            line,
            given: Vec::new(alloc),
            calls: Calls::new(),
            faults: 0,
        }
    }

    /// Returns the bytes given.
    pub fn given(&self) -> &[u8] {
        &self.given
    }
}

impl<R: Wait + Drop> Feed for MemFeed<R> {
    ghost told = { λ f.
        record { line = Some f.line; faults = f.faults; given = Some f.given.items } };

    fn faults(&self) -> u64 {
        self.faults
    }

    fn write(&mut self, bytes: &[u8]) -> Io {
        if !self
            .calls
            .fails_now(&self.script.fails, Object::Feed(self.line))
            && self.given.reserve(bytes.len()).is_ok()
            && self.shared.give(&self.rt, bytes).is_ok()
            && self.given.extend_from_slice(bytes).is_ok()
        {
            return Io::Done;
        }
        self.faults = self.faults.saturating_add(1);
        Io::Failed
    }
}
