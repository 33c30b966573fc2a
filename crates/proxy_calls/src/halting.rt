//! The Halt of a proxy lane.
ghost use Rattle.std.specs.Prelude.{◌≡◌, true};
ghost use Rattle.seat_desk.specs.Passes.{IsSamePass, mine};
ghost use Rattle.exec_journal.specs.declared.call.Call.TheVariants as call;
ghost use Rattle.exec_journal.specs.declared.reply.Reply.TheVariants as reply;
ghost use Rattle.core_contract.specs.Duties.{duty_of};
ghost use Rattle.core_contract.specs.Shelf.{child_at};
ghost use Rattle.proxy_words.specs.Ends.{may_halt};
ghost use Rattle.proxy_calls.specs.Calls.{IsProxyOf, MakesOne};
ghost use Rattle.proxy_calls.specs.Goods.{IsChildThere};

use crate::goods::child_in;
use core_contract::Rules;
use core_machine::Bench;
use exec_journal::Call;
use lane_threads::Caller;
use outside::{Berth, Place};
use std::sync::Wait;

/// Halts, and returns the berth's child if it is on the shelf. The call takes no memory.
pub fn halt<B: Berth, P: Place, C: Rules, R: Wait>(
    rt: &R,
    caller: &mut Caller<'_, Bench<B, P, C>>,
    berth: u32,
) -> Option<B::Child>
    requires lane { IsProxyOf C.discipline berth caller.old.pass }
    requires may { may_halt (duty_of (mine caller.old.pass)) ≡ true }
    ensures same { IsSamePass caller.old.pass caller.new.pass }
    ensures halted { MakesOne call.Halt reply.Noted caller.old.pass caller.new.pass }
    ensures child { IsChildThere B.Child.told (child_at berth (mine caller.old.pass)) result }
{
    let answer = caller.call_paid(rt, Call::Halt, None);
    child_in(answer.1)
}
