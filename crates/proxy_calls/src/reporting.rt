//! The reports of a proxy lane that are answered Noted.
ghost use Rattle.std.specs.Prelude.{◌≡◌, ◌<◌, true, OnOk, IfErr};
ghost use Rattle.seat_desk.specs.Passes.{IsSamePass, mine};
ghost use Rattle.exec_journal.specs.declared.call.Call.TheVariants as call;
ghost use Rattle.exec_journal.specs.declared.call.Started.TheVariants as start;
ghost use Rattle.exec_journal.specs.declared.reply.Reply.TheVariants as reply;
ghost use Rattle.outside.specs.Launches.{IsNewTap, IsNewChild};
ghost use Rattle.core_contract.specs.Duties.{Asks, duty_of};
ghost use Rattle.proxy_calls.specs.Calls.{IsProxyOf, MakesNone, MakesOne, MayMake};
ghost use Rattle.proxy_calls.specs.Reports.{is_report, OwesLaunch, Reports};

use crate::goods::child_back;
use core_contract::Rules;
use core_machine::{Bench, Good};
use exec_journal::{Call, Started};
use lane_threads::Caller;
use outside::{Berth, Place};
use proxy_words::ProxyHalt;
use seat_desk::Refused;
use std::sync::Wait;

/// Makes a report without a good: Wrote, Killed, or Launched with a fault.
///
/// # Errors
///
/// Returns the report if the desk had no memory for its entry. Then it was not made.
pub fn tell<B: Berth, P: Place, C: Rules, R: Wait>(
    rt: &R,
    caller: &mut Caller<'_, Bench<B, P, C>>,
    berth: u32,
    report: Call,
) -> Result<(), ProxyHalt>
    requires lane { IsProxyOf C.discipline berth caller.old.pass }
    requires report { is_report report ≡ true }
    requires may { MayMake C.discipline berth caller.old.pass report }
    ensures { Reports report result caller.old.pass caller.new.pass }
{
    match caller.call(rt, report, None) {
        Ok(_answer) => Ok(()),
        Err(refused) => {
            let Refused { call, put: _ } = refused;
            Err(ProxyHalt::Refused(call))
        }
    }
}

/// A line that was started and could not be reported, with its child, which isn't killed.
#[derive(Drop)]
pub struct Unsaid<K> {
    pub child: K,
}

/// Reports that a line was started. Its child and its tap go onto the shelf.
///
/// # Errors
///
/// Returns `Unsaid` if the desk had no memory for the entry. Then the report was not made.
pub fn tell_started<B: Berth, P: Place, C: Rules, R: Wait>(
    rt: &R,
    caller: &mut Caller<'_, Bench<B, P, C>>,
    berth: u32,
    line: u32,
    child: B::Child,
    tap: B::Tap,
) -> Result<(), Unsaid<B::Child>>
    requires lane { IsProxyOf C.discipline berth caller.old.pass }
    requires child { IsNewChild line (B.Child.told child) }
    requires tap { IsNewTap line (B.Tap.told tap) }
    requires owes { OwesLaunch line (mine caller.old.pass) }
    ensures same { IsSamePass caller.old.pass caller.new.pass }
    ensures told { OnOk result (MakesOne (call.Launched line start.Done) reply.Noted
        caller.old.pass caller.new.pass × (duty_of (mine caller.new.pass) ≡ Asks)) }
    ensures refused { IfErr result (λ unsaid. (unsaid.child ≡ child)
        × MakesNone caller.old.pass caller.new.pass) }
{
    let report = Call::Launched {
        line,
        how: Started::Done,
    };
    match caller.call(rt, report, Some(Good::Line(child, tap))) {
        Ok(_answer) => Ok(()),
        Err(refused) => {
            let Refused { call: _, put } = refused;
            match child_back(put) {
                Some(child) => Err(Unsaid { child }),
                None => unreachable!(),
            }
        }
    }
}
