//! Looks at made inputs, and at the outputs of an answer.
ghost use Rattle.core_contract.specs.Discipline.{makers_in};
ghost use Rattle.core_contract.specs.Ruled.{answer_after};
ghost use Rattle.std.specs.Prelude.{◌≡◌, true, IfOk};
ghost use Rattle.seat_desk.specs.Passes.{mine, basis, seen};
ghost use Rattle.exec_journal.specs.declared.call.Call.TheVariants as call;
ghost use Rattle.proxy_words.specs.Told.{IsTold, reply_for};
ghost use Rattle.proxy_calls.specs.Calls.{IsProxyOf, MayMake, Stays};
ghost use Rattle.core_contract.specs.Duties.{is_maker};
ghost use Rattle.proxy_calls.specs.Looks.{told_as, made_as, OwesSend};

use core_contract::Rules;
use core_machine::Bench;
use exec_journal::{Attempt, Call, Reply, Wanted};
use lane_threads::Caller;
use outside::{Berth, Place};
use plain_values::{Blob, NoMemory};
use run_plan::Maker;
use std::sync::Wait;

/// Returns the wanted bytes, or `None` if the core has none.
///
/// # Errors
///
/// Returns `NoMemory` if memory runs out.
pub fn look<B: Berth, P: Place, C: Rules, R: Wait>(
    rt: &R,
    caller: &mut Caller<'_, Bench<B, P, C>>,
    berth: u32,
    wanted: Wanted,
) -> Result<Option<Blob>, NoMemory>
    requires lane { IsProxyOf C.discipline berth caller.old.pass }
    requires may { MayMake C.discipline berth caller.old.pass (call.Look wanted) }
    ensures told { IfOk result (λ found. IsTold (answer_after (C.discipline (basis caller.old.pass)))
        caller.old.pass.lane (seen caller.new.pass) (told_as wanted found)) }
    ensures stays { Stays caller.old.pass caller.new.pass }
{
    match caller.call(rt, Call::Look(wanted), None) {
        Ok(answer) => found_in(answer.0),
        Err(_refused) => Err(NoMemory),
    }
}

// Returns the bytes in the reply to a Look, or `None` if the reply reports that there are none.
fn found_in(reply: Reply) -> Result<Option<Blob>, NoMemory>
    ensures { IfOk result (λ found. reply ≡ reply_for found) }
{
    match reply {
        Reply::File(bytes) => Ok(Some(bytes)),
        Reply::NoFile => Ok(None),
        _ => Err(NoMemory),
    }
}

/// Returns the bytes of a made input of the request that the lane must send. They are present.
///
/// # Errors
///
/// Returns `NoMemory` if memory runs out.
pub fn look_made<B: Berth, P: Place, C: Rules, R: Wait>(
    rt: &R,
    caller: &mut Caller<'_, Bench<B, P, C>>,
    berth: u32,
    attempt: Attempt,
    maker: Maker,
) -> Result<Blob, NoMemory>
    requires lane { IsProxyOf C.discipline berth caller.old.pass }
    requires owes { OwesSend attempt (mine caller.old.pass) }
    requires made { is_maker (makers_in (C.discipline (basis caller.old.pass)).plan attempt.action)
        maker.action maker.output ≡ true }
    ensures told { IfOk result (λ bytes. IsTold (answer_after (C.discipline (basis caller.old.pass)))
        caller.old.pass.lane (seen caller.new.pass) (made_as maker bytes)) }
    ensures stays { Stays caller.old.pass caller.new.pass }
{
    let _ = attempt;
    let wanted = Wanted::Made {
        action: maker.action,
        output: maker.output,
    };
    match caller.call(rt, Call::Look(wanted), None) {
        Ok(answer) => {
            let (reply, _good) = answer;
            match reply {
                Reply::File(bytes) => Ok(bytes),
                Reply::NoFile => unreachable!(),
                _ => Err(NoMemory),
            }
        }
        Err(_refused) => Err(NoMemory),
    }
}
