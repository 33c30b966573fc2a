//! The Tick.
ghost use Rattle.std.specs.Prelude.{◌≡◌, IfOk, OnErr};
ghost use Rattle.seat_desk.specs.Passes.{IsSamePass, mine};
ghost use Rattle.exec_journal.specs.declared.call.Call.TheVariants as call;
ghost use Rattle.core_contract.specs.Duties.{Asks, duty_of};
ghost use Rattle.proxy_calls.specs.Calls.{MakesNone, MakesOne};
ghost use Rattle.exec_journal.specs.Idle.{is_idle, idle_not_kept};
ghost use Rattle.tick_lane.specs.Ticks.{IsTicker, reply_of};

use core_contract::Rules;
use core_machine::Bench;
use exec_journal::{Call, Reply};
use lane_threads::{Caller, Question};
use outside::{Berth, Place};
use plain_values::NoMemory;
use std::sync::Wait;

/// The reply to a Tick.
#[derive(Clone, Copy, PartialEq, Eq)]
pub(crate) enum Ticked {
    Noted,
    Stop,
}

// The question that makes a Tick, asked until somebody waits for a Tick or the lane must stop.
struct NextTick;

impl<B: Berth, P: Place, C: Rules> Question<Bench<B, P, C>> for NextTick {
    ghost asks = { λ self. call.Tick };

    ghost idles = { is_idle };

    ghost idle_is_not_kept = { λ e idle. idle_not_kept e.reply idle };

    fn call(&self) -> Call {
        Call::Tick
    }

    fn is_idle(&self, reply: &Reply) -> bool {
        matches!(reply, Reply::Idle)
    }
}

/// Makes a Tick again and again, until it is noted or the lane is told to stop. While nobody waits
/// for a Tick, the lane waits for its bell.
///
/// # Errors
///
/// Returns `NoMemory` if memory runs out for the Tick's entry. Then no Tick was made.
pub(crate) fn make_tick<B: Berth, P: Place, C: Rules, R: Wait>(
    rt: &R,
    caller: &mut Caller<'_, Bench<B, P, C>>,
    berth: u32,
) -> Result<Ticked, NoMemory>
    requires lane { IsTicker C.discipline berth caller.old.pass }
    requires asks { duty_of (mine caller.old.pass) ≡ Asks }
    ensures same { IsSamePass caller.old.pass caller.new.pass }
    ensures ok { IfOk result (λ told. MakesOne call.Tick (reply_of told)
        caller.old.pass caller.new.pass) }
    ensures err { OnErr result (MakesNone caller.old.pass caller.new.pass) }
{
    match caller.ask(rt, &NextTick) {
        Ok((reply, _none)) => match reply {
            Reply::Noted => Ok(Ticked::Noted),
            Reply::Stop => Ok(Ticked::Stop),
            _ => unreachable!(),
        },
        Err(_refused) => Err(NoMemory),
    }
}
