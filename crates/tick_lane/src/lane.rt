//! The lane at work.
ghost use Rattle.std.specs.Prelude.{◌≡◌, [], ◌∷◌, OnOk, OnErr};
ghost use Rattle.seat_desk.specs.History.{entry};
ghost use Rattle.seat_desk.specs.Passes.{IsSamePass, mine};
ghost use Rattle.exec_journal.specs.declared.call.Call.TheVariants as call;
ghost use Rattle.exec_journal.specs.declared.reply.Reply.TheVariants as reply;
ghost use Rattle.tick_lane.specs.Ticks.{IsTicker, HasTicked};

use crate::calls::{Ticked, make_tick};
use crate::pacer::Pacer;
use core_contract::Rules;
use core_machine::Bench;
use lane_threads::Caller;
use outside::{Berth, Place};
use plain_values::NoMemory;
use std::sync::Wait;

/// Makes one Tick after another, until the lane is told to stop. After each noted Tick, waits for
/// the pacer's next tick.
///
/// # Errors
///
/// Returns `NoMemory` if memory runs out for the entry of a Tick. The lane hasn't halted then.
pub(crate) fn tick_on<W: Pacer, B: Berth, P: Place, C: Rules, R: Wait>(
    rt: &R,
    caller: &mut Caller<'_, Bench<B, P, C>>,
    berth: u32,
    pacer: &mut W,
) -> Result<(), NoMemory>
    requires lane { IsTicker C.discipline berth caller.old.pass }
    requires fresh { mine caller.old.pass ≡ [] }
    ensures same { IsSamePass caller.old.pass caller.new.pass }
    ensures ok { OnOk result (HasTicked caller.old.pass.lane (W.told pacer.old)
        (W.told pacer.new) (entry caller.old.pass.lane call.Tick reply.Stop ∷ [])
        (mine caller.new.pass)) }
    ensures err { OnErr result (HasTicked caller.old.pass.lane (W.told pacer.old)
        (W.told pacer.new) [] (mine caller.new.pass)) }
{
    for _ in rt.forever() {
        match make_tick(rt, caller, berth)? {
            Ticked::Noted => pacer.tick(),
            Ticked::Stop => return Ok(()),
        }
    }
    unreachable!()
}
