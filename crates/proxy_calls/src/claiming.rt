//! The Claim of an answer's result, and the commit of files that were granted.
ghost use Rattle.std.specs.Prelude.{◌≡◌, ◌<◌, ◌^◌, true, length, IfOk, IfErr};
ghost use Rattle.seat_desk.specs.Passes.{IsSamePass, mine, basis};
ghost use Rattle.core_contract.specs.Shelf.{Fresh, Back};
ghost use Rattle.core_contract.specs.Duties.{Asks, duty_of};
ghost use Rattle.core_machine.specs.Objects.{IsPlaceAt};
ghost use Rattle.proxy_words.specs.declared.halt.ProxyHalt.TheVariants as cause;
ghost use Rattle.proxy_calls.specs.Calls.{IsProxyOf, MakesNone, MayMake};
ghost use Rattle.proxy_calls.specs.Claims.{claim_of, HasClaimed, HasCommitted};
ghost use Rattle.proxy_calls.specs.Grants.{MayCommit};

use crate::goods::place_in;
use core_contract::Rules;
use core_machine::{Bench, Good};
use exec_journal::{Attempt, Call, CommitEnd, Found};
use lane_threads::Caller;
use output_commit::{Committed, commit};
use outside::{Berth, Place};
use plain_values::{Blob, Text};
use proxy_words::ProxyHalt;
use seat_desk::Refused;
use std::sync::Wait;

/// Claims what was found for the attempt. If files were claimed and granted, returns the action's
/// place, to which nothing was written.
///
/// # Errors
///
/// Returns the Claim if the desk had no memory for its entry. Then it was not made.
pub fn claim<B: Berth, P: Place, C: Rules, R: Wait>(
    rt: &R,
    caller: &mut Caller<'_, Bench<B, P, C>>,
    berth: u32,
    attempt: Attempt,
    found: Found,
) -> Result<Option<P>, ProxyHalt>
    requires lane { IsProxyOf C.discipline berth caller.old.pass }
    requires may { MayMake C.discipline berth caller.old.pass (claim_of attempt found) }
    ensures same { IsSamePass caller.old.pass caller.new.pass }
    ensures claimed { IfOk result (λ place. HasClaimed P.told C.discipline attempt found place
        caller.old.pass caller.new.pass) }
    ensures refused { IfErr result (λ by. (by ≡ cause.Refused (claim_of attempt found))
        × MakesNone caller.old.pass caller.new.pass) }
{
    let call = Call::Claim {
        action: attempt.action,
        branch: attempt.branch,
        attempt: attempt.number,
        found,
    };
    match caller.call(rt, call, None) {
        Ok(answer) => Ok(place_in(answer.1)),
        Err(refused) => {
            let Refused { call, put: _ } = refused;
            Err(ProxyHalt::Refused(call))
        }
    }
}

/// A grant to an attempt: these files, one for each of its action's outputs, may be written to the
/// action's place.
#[derive(Drop)]
pub struct Grant<'a, P> {
    pub attempt: Attempt,
    pub files: &'a [Blob],
    pub outputs: &'a [Text],
    pub place: P,
}

/// Writes the files that were granted to the action's place, and reports the outcome. The place
/// goes back onto the shelf. The function takes no memory.
pub fn commit_files<B: Berth, P: Place, C: Rules, R: Wait>(
    rt: &R,
    caller: &mut Caller<'_, Bench<B, P, C>>,
    berth: u32,
    grant: Grant<'_, P>,
)
    requires lane { IsProxyOf C.discipline berth caller.old.pass }
    requires may { MayCommit P.told C.discipline grant caller.old.pass }
    ensures same { IsSamePass caller.old.pass caller.new.pass }
    ensures committed { HasCommitted grant.entry.attempt caller.old.pass caller.new.pass }
    ensures asks { duty_of (mine caller.new.pass) ≡ Asks }
{
    let Grant {
        attempt,
        files,
        outputs,
        place,
    } = grant;
    let mut place = place;
    let how = write_out(&mut place, attempt.action, outputs, files);
    let call = Call::Committed {
        action: attempt.action,
        branch: attempt.branch,
        how,
    };
    let _answer = caller.call_paid(rt, call, Some(Good::Place(place)));
}

// Writes the files, and returns the outcome.
fn write_out<P: Place>(place: &mut P, action: u32, outputs: &[Text], files: &[Blob]) -> CommitEnd
    requires place { IsPlaceAt action outputs.now Fresh (P.told place.old) }
    requires fits { length files.now ≡ length outputs.now }
    requires few { length outputs.now < 2 ^ 32 }
    ensures { IsPlaceAt action outputs.now (Back files.now result) (P.told place.new) }
{
    let _ = action;
    match commit(place, outputs, files) {
        Committed::Done => CommitEnd::Done,
        Committed::PlaceFault { written } => CommitEnd::PlaceFault { written },
    }
}
