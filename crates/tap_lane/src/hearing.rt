//! One line, from its Take to its end.
ghost use Rattle.std.specs.Prelude.{◌≡◌, List, ℕ, IfOk, OnOk, IfErr, OnErr, Some, None};
ghost use Rattle.run_plan.specs.declared.plan.Speech.{Speech};
ghost use Rattle.exec_journal.specs.declared.call.Answer.{Answer};
ghost use Rattle.answer_reader.specs.Says.{Hears, SaysFirst};
ghost use Rattle.core_contract.specs.Laws.{hearing_of};
ghost use Rattle.core_contract.specs.Laws as laws;
ghost use Rattle.core_machine.specs.Bench.{IsTapOf};
ghost use Rattle.tap_lane.specs.Heard.{Went, AfterAll, HasHeard, HeardWhole};
ghost use Rattle.tap_lane.specs.Lane.{HeardUntil};
ghost use Rattle.tap_lane.specs.Working.{IsAt, IsSameLane, own, number};

use crate::ends::TapHalt;
use crate::lane::TapLane;
use answer_reader::{AnswerReader, Spoken};
use core_contract::Rules;
use core_machine::Bench;
use exec_journal::HowEnded;
use outside::{Berth, PIECE, Place, READS, Taken, Tap};
use plain_values::NoMemory;
use std::sync::Wait;

impl<'a, B: Berth, P: Place, C: Rules> TapLane<'a, Bench<B, P, C>> {
    /// Reads a line to its end: reports each answer, and how the line has ended.
    ///
    /// # Errors
    ///
    /// Returns the step for which memory ran out. Then the line's end wasn't reported.
    pub(crate) fn hear<R: Wait>(
        &mut self,
        rt: &R,
        line: u32,
        tap: &mut B::Tap,
    ) -> Result<(), TapHalt>
        requires hears { IsAt C.discipline (laws.Hears line) self.old }
        requires tap { IsTapOf B.Tap.told line tap.old }
        ensures same { IsSameLane self.old self.new }
        ensures ok { OnOk result (HeardWhole self.old.speech (number self.old) line
            (B.Tap.told tap.new) (own self.old) (own self.new)
            × (hearing_of (own self.new) ≡ laws.Free)) }
        ensures err { IfErr result (λ want. HeardUntil want self.old.speech line
            (B.Tap.told tap.new) (own self.old) (own self.new)
            × (hearing_of (own self.new) ≡ laws.Hears line)) }
    {
        let Ok(how) = self.listen(rt, line, tap) else {
            return Err(TapHalt::Answers);
        };
        match self.tell_end(rt, line, how) {
            Ok(()) => Ok(()),
            Err(NoMemory) => Err(TapHalt::End(how)),
        }
    }

    // Reports each answer of a line, up to its end. Memory runs out only for bytes that were taken,
    // while the tap is open.
    fn listen<R: Wait>(&mut self, rt: &R, line: u32, tap: &mut B::Tap) -> Result<HowEnded, NoMemory>
        requires hears { IsAt C.discipline (laws.Hears line) self.old }
        requires tap { IsTapOf B.Tap.told line tap.old }
        ensures same { IsSameLane self.old self.new }
        ensures hears { IsAt C.discipline (laws.Hears line) self.new }
        ensures ok { IfOk result (λ how. HasHeard self.old.speech line (B.Tap.told tap.new)
            (Some how) (own self.old) (own self.new)) }
        ensures err { OnErr result (HasHeard self.old.speech line (B.Tap.told tap.new) None
            (own self.old) (own self.new)) }
    {
        let mut piece = [0u8; PIECE];
        let mut reader = AnswerReader::new(self.alloc, self.speech);
        for _ in 0..READS {
            match tap.read(&mut piece) {
                Taken::Bytes(count) => {
                    reader.feed(&piece[..count])?;
                    if !self.tell_all(rt, line, &mut reader)? {
                        return Ok(HowEnded::BadFrame);
                    }
                }
                Taken::End => return Ok(HowEnded::End),
                Taken::Failed => return Ok(HowEnded::TapFault),
            }
        }
        Ok(HowEnded::Long)
    }

    // Reports each answer that has arrived completely. Returns `false` if the bytes after them are
    // no answer.
    fn tell_all<R: Wait>(
        &mut self,
        rt: &R,
        line: u32,
        reader: &mut AnswerReader,
    ) -> Result<bool, NoMemory>
        requires { IsAt C.discipline (laws.Hears line) self.old }
        ensures same { IsSameLane self.old self.new }
        ensures hears { IsAt C.discipline (laws.Hears line) self.new }
        ensures ok { IfOk result (λ whole. (speech : Speech) (fed : List ℕ) (answers : List Answer)
            → Hears speech fed answers reader.old
            → Went line answers (own self.old) (own self.new)
            (AfterAll speech fed reader.new whole)) }
        ensures err { OnErr result ((speech : Speech) (fed : List ℕ) (answers : List Answer)
            → Hears speech fed answers reader.old
            → Went line answers (own self.old) (own self.new) (SaysFirst speech fed)) }
    {
        for _ in rt.forever() {
            match reader.next(self.alloc)? {
                Spoken::Answer(answer) => self.tell_answer(rt, line, answer)?,
                Spoken::More => {}
                Spoken::NotYet => return Ok(true),
                Spoken::Bad => return Ok(false),
            }
        }
        unreachable!()
    }
}
