//! The tap lane of a berth, as a lane of a crew.
ghost use Rattle.std.specs.Prelude.{◌≡◌, ◌<◌, map};
ghost use Rattle.seat_desk.specs.Passes.{IsPassOf, IsSamePass, mine, basis};
ghost use Rattle.lane_threads.specs.Lanes.{IsFresh};
ghost use Rattle.core_contract.specs.Laws.{tap_lane};
ghost use Rattle.tap_lane.specs.Heard.{back_by};
ghost use Rattle.tap_lane.specs.Lane.{LaneEnds};

use crate::ends::TapLeft;
use crate::lane::TapLane;
use core_contract::Rules;
use core_machine::Bench;
use lane_bells::Bells;
use lane_threads::{Caller, Lane};
use outside::{Berth, Place};
use run_plan::Speech;
use seat_desk::{Desk, Pass};
use std::alloc::Global;
use std::sync::Wait;
use std::thread::Threads;

/// The parameters of a berth's tap lane.
///
/// The lane reads the lines of the berth, one after another, until the core replies Stop. If memory
/// runs out, it halts. It gives its pass back. For each line, the pass's calls are its Take, the
/// answers that the bytes of its tap spell in this protocol, in order, and its Ended.
#[derive(Drop)]
pub struct TapStart {
    pub alloc: Global,
    /// The number of its berth.
    pub berth: u32,
    /// The protocol of the berth's lines.
    pub speech: Speech,
}

impl<B: Berth, P: Place, C: Rules> Lane<Desk<Bench<B, P, C>>, Pass<Bench<B, P, C>>> for TapStart {
    type End = TapLeft<B::Tap>;

    ghost may_run = { λ self desk bells pass. IsPassOf desk pass × IsFresh pass
        × (pass.lane ≡ tap_lane self.berth) × (self.berth < (C.discipline (basis pass)).seats)
        × (pass.lane < bells) };

    ghost has_run = { λ self pass left after. IsSamePass pass after
        × LaneEnds self.speech pass.lane left.halted (map (back_by B.Tap.told) left.taps.items)
        (mine after) };

    fn run<R: Threads + Wait + Sync>(
        self,
        rt: &R,
        desk: &Desk<Bench<B, P, C>>,
        bells: &Bells,
        pass: Pass<Bench<B, P, C>>,
    ) -> (TapLeft<B::Tap>, Pass<Bench<B, P, C>>) {
        let TapStart {
            alloc,
            berth,
            speech,
        } = self;
        let caller = Caller::new(desk, bells, pass);
        let mut lane = TapLane {
            alloc,
            speech,
            caller,
        };
        let left = lane.hear_all(rt);
        let TapLane {
            alloc: _,
            speech: _,
            caller,
        } = lane;
        (left, caller.into_pass())
    }
}
