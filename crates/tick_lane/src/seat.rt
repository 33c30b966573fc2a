//! The lane that makes Ticks, as a lane of a crew.
ghost use Rattle.std.specs.Prelude.{◌≡◌, ◌<◌};
ghost use Rattle.seat_desk.specs.Passes.{IsPassOf, IsSamePass, mine};
ghost use Rattle.lane_threads.specs.Lanes.{IsFresh};
ghost use Rattle.tick_lane.specs.Ticks.{IsTicker, LaneTicks};

use crate::lane::tick_on;
use crate::pacer::Pacer;
use core_contract::Rules;
use core_machine::Bench;
use lane_bells::Bells;
use lane_threads::{Caller, Lane};
use outside::{Berth, Place};
use plain_values::NoMemory;
use proxy_calls::halt;
use seat_desk::{Desk, Pass};
use std::sync::Wait;
use std::thread::Threads;

/// The parameters of the lane that makes Ticks.
///
/// The lane makes Ticks until the core replies Stop. If memory runs out, it halts. It gives its
/// pass back. The pass's calls are the noted Ticks, for each of which its pacer waited for a tick,
/// and then its last call. The last call is a Tick with the reply Stop, or the lane's Halt.
#[derive(Drop)]
pub struct TickStart<W> {
    /// The number of its berth. The lane is the berth's proxy lane.
    pub berth: u32,
    pub pacer: W,
}

/// The end of a lane that makes Ticks.
#[derive(Clone, Copy, PartialEq, Eq)]
pub enum TickEnd {
    /// The lane was told to stop.
    Stopped,
    /// The lane has halted, since memory ran out for the entry of a Tick. Nothing else makes it
    /// halt.
    Halted,
}

/// The result of the lane, in addition to its pass.
#[derive(Drop)]
pub struct TickLeft<W> {
    /// Its pacer, which has counted the ticks that it waited for.
    pub pacer: W,
    pub end: TickEnd,
}

impl<W: Pacer, B: Berth, P: Place, C: Rules> Lane<Desk<Bench<B, P, C>>, Pass<Bench<B, P, C>>>
    for TickStart<W> {
    type End = TickLeft<W>;

    ghost may_run = { λ self desk bells pass. IsPassOf desk pass × IsFresh pass
        × IsTicker C.discipline self.berth pass × (pass.lane < bells) };

    ghost has_run = { λ self pass left after. IsSamePass pass after
        × LaneTicks pass.lane (W.told self.pacer) (W.told left.pacer) left.end (mine after) };

    fn run<R: Threads + Wait + Sync>(
        self,
        rt: &R,
        desk: &Desk<Bench<B, P, C>>,
        bells: &Bells,
        pass: Pass<Bench<B, P, C>>,
    ) -> (TickLeft<W>, Pass<Bench<B, P, C>>) {
        let TickStart { berth, mut pacer } = self;
        let mut caller = Caller::new(desk, bells, pass);
        let end = match tick_on(rt, &mut caller, berth, &mut pacer) {
            Ok(()) => TickEnd::Stopped,
            Err(NoMemory) => {
                // The shelf contains no child for a berth whose lane was given no order.
                let _none = halt(rt, &mut caller, berth);
                TickEnd::Halted
            }
        };
        (TickLeft { pacer, end }, caller.into_pass())
    }
}
