// An input that comes in pieces. Only the unfinished line is kept.
ghost use Rattle.std.specs.Prelude.{◌≡◌, ◌≤◌, ◌<◌, ◌+◌, ◌++◌, ◌∷◌, ◌^◌, ℕ, Bool, true, false, List, [], IfOk, OnOk, length};
ghost use Rattle.journal_replay.specs.Fed.{Fed, FedSo};
ghost use Rattle.journal_text.specs.Lines.{lines_of};
ghost use Rattle.journal_replay.specs.Staged.{SaysOn};

use crate::auditor::Found;
use crate::front::{Stage, stage_with, verdict_on};
use crate::replayed::Replayed;
use crate::verdict::Verdict;
use plain_values::NoMemory;
use std::alloc::Global;
use std::mem;

/// The findings about the bytes so far.
#[derive(Drop)]
pub(crate) struct Auditor<C: Drop> {
    alloc: Global,
    stage: Stage<C>,
    // The number of the unfinished line, from 1.
    number: u64,
    begun: Vec<u8>,
}

impl<C: Replayed> Auditor<C> {
    /// Returns an auditor of a text, which has received nothing.
    pub(crate) fn of_text(alloc: Global) -> Auditor<C>
        ensures { Fed false C.rules C.stands result [] }
    {
        Auditor {
            alloc,
            stage: Stage::Text {
                skipped: 0,
                found: Found::Nothing,
            },
            number: 1,
            begun: Vec::new(alloc),
        }
    }

    /// Returns an auditor of an input that may begin with a report. It has received nothing.
    pub(crate) fn of_input(alloc: Global) -> Auditor<C>
        ensures { Fed true C.rules C.stands result [] }
    {
        Auditor {
            alloc,
            stage: Stage::Report,
            number: 1,
            begun: Vec::new(alloc),
        }
    }

    /// Takes the next bytes. After a lack of memory the auditor must not be used.
    pub(crate) fn feed(&mut self, piece: &[u8]) -> Result<(), NoMemory>
        ensures { (skips : Bool) (bytes : List ℕ) → Fed skips C.rules C.stands self.old bytes
            → length bytes + length piece.now < 2 ^ 63
            → OnOk result (Fed skips C.rules C.stands self.new (bytes ++ piece.now)) }
    {
        let mut start = 0;
        for (at, byte) in piece.iter().enumerate() {
            if *byte == b'\n' {
                self.end_line(&piece[start..at])?;
                start = at + 1;
            }
        }
        self.begun.extend_from_slice(&piece[start..])?;
        Ok(())
    }

    // Ends the unfinished line with these bytes. A line feed follows them.
    fn end_line(&mut self, rest: &[u8]) -> Result<(), NoMemory>
        ensures { (skips : Bool) (bytes : List ℕ)
            → FedSo skips C.rules C.stands self.old.stage self.old.number
            (self.old.begun.items ++ rest.now) bytes → length bytes < 2 ^ 63
            → OnOk result (Fed skips C.rules C.stands self.new (bytes ++ 10 ∷ [])) }
    {
        self.begun.extend_from_slice(rest)?;
        let stage = mem::replace(&mut self.stage, Stage::Report);
        self.stage = stage_with(self.alloc, stage, self.number, self.begun.as_slice())?;
        self.number = self.number.saturating_add(1);
        self.begun.clear();
        Ok(())
    }

    /// Returns the verdict on all bytes so far.
    pub(crate) fn verdict(self) -> Result<Verdict, NoMemory>
        ensures { (skips : Bool) (bytes : List ℕ) → Fed skips C.rules C.stands self bytes
            → length bytes ≤ 268435456
            → IfOk result (SaysOn skips C.rules (lines_of bytes)) }
    {
        let Auditor {
            alloc,
            stage,
            number,
            begun,
        } = self;
        let line = begun.as_slice();
        if line.is_empty() {
            return Ok(verdict_on(stage));
        }
        let stage = stage_with(alloc, stage, number, line)?;
        Ok(verdict_on(stage))
    }
}
