use crate::Script;
use crate::ears::Ears;
use crate::line::Line;
use crate::obliging::Obliging;
use crate::ready::Ready;
use crate::scripted::Scripted;
use plain_values::NoMemory;
use std::alloc::Global;
use std::sync::Wait;

/// The result of playing a child.
#[derive(Clone, Copy, PartialEq, Eq)]
pub enum Acted {
    /// It has done its next step.
    On,
    /// It has ended.
    Ended,
    /// It has waited too long.
    Late,
}

/// The player of a child.
#[derive(Drop)]
pub enum Actor {
    Scripted(Scripted),
    Obliging(Obliging),
}

impl Actor {
    /// Returns the actor of the line with this number.
    pub fn new(alloc: Global, script: &Script, number: u32, serves: bool) -> Actor {
        let ears = Ears::new(alloc, serves);
        match script.lines.get(number as usize) {
            Some(Some(_)) => Actor::Scripted(Scripted::new(ears)),
            _ => Actor::Obliging(Obliging::new(alloc, ears)),
        }
    }

    /// Plays on until bytes are ready or the child has ended.
    pub fn play<R: Wait>(
        &mut self,
        rt: &R,
        script: &Script,
        number: u32,
        line: &Line,
        ready: &mut Ready,
    ) -> Result<Acted, NoMemory> {
        match self {
            Actor::Obliging(child) => child.play(rt, line, ready),
            Actor::Scripted(child) => match script.lines.get(number as usize) {
                Some(Some(beats)) => child.play(rt, beats.as_slice(), line, ready),
                _ => Ok(Acted::Ended),
            },
        }
    }
}
