ghost use Rattle.std.specs.Prelude.{◌≡◌, [], Some, false};

use crate::actor::{Acted, Actor};
use crate::calls::Calls;
use crate::line::Line;
use crate::ready::Ready;
use crate::{Object, Script};
use outside::{Taken, Tap};
use std::alloc::Global;
use std::sync::{Arc, Wait};

/// The pipe out of a child, which is played when the tap is read. It records the bytes that were taken.
#[derive(Drop)]
pub struct MemTap<R> {
    rt: R,
    script: Arc<Script>,
    shared: Arc<Line>,
    line: u32,
    actor: Actor,
    ready: Ready,
    taken: Vec<u8>,
    ended: bool,
    calls: Calls,
    faults: u64,
}

impl<R> MemTap<R> {
    /// Returns the tap of this line.
    pub fn new(rt: R, alloc: Global, script: Arc<Script>, shared: Arc<Line>, line: u32) -> MemTap<R>
        ensures line { result.line ≡ line }
        ensures taken { result.taken.items ≡ [] }
        ensures ended { result.ended ≡ false }
        ensures faults { result.faults ≡ 0 }
    {
        let actor = Actor::new(alloc, &script, line, shared.serves);
        MemTap {
            rt,
            script,
            shared,
            line,
            actor,
            ready: Ready::new(alloc),
            taken: Vec::new(alloc),
            ended: false,
            calls: Calls::new(),
            faults: 0,
        }
    }
}

impl<R: Wait + Drop> Tap for MemTap<R> {
    ghost told = { λ t. record {
      line = Some t.line;
      faults = t.faults;
      taken = Some t.taken.items;
      ended = Some t.ended;
    } };

    fn faults(&self) -> u64 {
        self.faults
    }

    fn read(&mut self, into: &mut [u8]) -> Taken {
        if self
            .calls
            .fails_now(&self.script.fails, Object::Tap(self.line))
        {
            self.faults = self.faults.saturating_add(1);
            return Taken::Failed;
        }
        if self.ready.is_empty()
            && let Ok(Acted::Ended) = self.actor.play(
                &self.rt,
                &self.script,
                self.line,
                &self.shared,
                &mut self.ready,
            )
        {
            self.ended = true;
            return Taken::End;
        }
        if !self.ready.is_empty() {
            let count = self.ready.take(into);
            if self.taken.extend_from_slice(&into[..count]).is_ok() {
                return Taken::Bytes(count);
            }
        }
        self.faults = self.faults.saturating_add(1);
        Taken::Failed
    }
}
