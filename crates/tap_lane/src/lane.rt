//! The lane at work.
ghost use Rattle.std.specs.Prelude.{◌≡◌, [], map, OnOk, IfErr, None};
ghost use Rattle.core_contract.specs.Laws.{Free};
ghost use Rattle.tap_lane.specs.Heard.{back_by};
ghost use Rattle.tap_lane.specs.Lane.{LaneEnds, ToHalt};
ghost use Rattle.tap_lane.specs.Working.{IsAt, IsSameLane, own, number};

use crate::calls::Took;
use crate::ends::{EndedTap, TapHalt, TapLeft};
use core_contract::Rules;
use core_machine::Bench;
use lane_threads::Caller;
use outside::{Berth, Place};
use plain_values::NoMemory;
use run_plan::Speech;
use seat_desk::Machine;
use std::alloc::Global;
use std::sync::Wait;

/// The tap lane of a berth, from its first call to its last.
pub(crate) struct TapLane<'a, M: Machine> {
    pub(crate) alloc: Global,
    /// The protocol of the berth's lines.
    pub(crate) speech: Speech,
    pub(crate) caller: Caller<'a, M>,
}

impl<'a, B: Berth, P: Place, C: Rules> TapLane<'a, Bench<B, P, C>> {
    /// Reads one line after another until the lane is told to stop. If memory runs out, the lane
    /// halts.
    pub(crate) fn hear_all<R: Wait>(&mut self, rt: &R) -> TapLeft<B::Tap>
        requires free { IsAt C.discipline Free self.old }
        requires fresh { own self.old ≡ [] }
        ensures same { IsSameLane self.old self.new }
        ensures ends { LaneEnds self.old.speech (number self.old) result.halted
            (map (back_by B.Tap.told) result.taps.items) (own self.new) }
    {
        let mut taps = Vec::new(self.alloc);
        let halted = match self.hear_lines(rt, &mut taps) {
            Ok(()) => None,
            Err(want) => {
                self.halt(rt);
                Some(want)
            }
        };
        TapLeft { taps, halted }
    }

    // Reads one line after another until the lane is told to stop.
    fn hear_lines<R: Wait>(
        &mut self,
        rt: &R,
        taps: &mut Vec<EndedTap<B::Tap>>,
    ) -> Result<(), TapHalt>
        requires free { IsAt C.discipline Free self.old }
        requires fresh { (own self.old ≡ []) × (taps.old.items ≡ []) }
        ensures same { IsSameLane self.old self.new }
        ensures ok { OnOk result (LaneEnds self.old.speech (number self.old) None
            (map (back_by B.Tap.told) taps.new.items) (own self.new)) }
        ensures err { IfErr result (ToHalt self.old.speech (number self.old)
            (map (back_by B.Tap.told) taps.new.items) (own self.new)) }
    {
        for _ in rt.forever() {
            if taps.reserve(1).is_err() {
                return Err(TapHalt::Line);
            }
            match self.take(rt) {
                Ok(Took::Line(line, mut tap)) => {
                    let heard = self.hear(rt, line, &mut tap);
                    taps.push_reserved(EndedTap { line, tap });
                    heard?;
                }
                Ok(Took::Stop) => return Ok(()),
                Err(NoMemory) => return Err(TapHalt::Line),
            }
        }
        unreachable!()
    }
}
