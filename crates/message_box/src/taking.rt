//! The taker's calls.
ghost use Rattle.std.specs.Prelude.{◌≡◌, ◌<◌, false, None, IfOk, OnErr};
ghost use Rattle.seat_desk.specs.Passes.{IsSamePass};
ghost use Rattle.message_box.specs.States.{taker};
ghost use Rattle.message_box.specs.Sides.{state_at, TakerStands, HasTaken, HasTook, HasLeft};
ghost use Rattle.message_box.specs.Sides.{MayHaveTaken, took_by};

use crate::mailbox::{Answer, Ask, Mailbox, Stop, TAKER};
use lane_bells::Bells;
use lane_threads::Caller;
use plain_values::NoMemory;
use std::alloc::Global;
use std::sync::Wait;

/// The result of a take.
#[derive(Drop)]
pub enum Took<X> {
    /// All messages that were waiting.
    Messages(Vec<X>),
    /// The reader has stopped for this reason, and no message waits.
    Stopped(Stop),
}

// Returns what a reply gives to the taker, or `None` if there is nothing now.
fn what_came<X: Drop>(reply: Answer, good: Option<Vec<X>>) -> Option<Took<X>>
    ensures { result ≡ took_by reply good }
{
    match reply {
        Answer::Done => match good {
            Some(messages) => Some(Took::Messages(messages)),
            None => None,
        },
        Answer::Stopped(stop) => Some(Took::Stopped(stop)),
        Answer::Open | Answer::Idle | Answer::Gone | Answer::NoRoom => None,
    }
}

// Takes all waiting messages. Returns `None` if there is nothing now.
fn take_once<X: Drop, R: Wait>(
    rt: &R,
    caller: &mut Caller<Mailbox<X>>,
) -> Result<Option<Took<X>>, NoMemory>
    requires lane { caller.old.pass.lane ≡ taker }
    requires here { (state_at caller.old.pass).left ≡ false }
    ensures same { IsSamePass caller.old.pass caller.new.pass }
    ensures ok { IfOk result (λ took. MayHaveTaken took (state_at caller.old.pass)
        (state_at caller.new.pass)) }
    ensures err { OnErr result (TakerStands (state_at caller.old.pass)
        (state_at caller.new.pass)) }
{
    match caller.call(rt, Ask::Take, None) {
        Ok((reply, good)) => Ok(what_came(reply, good)),
        Err(_) => Err(NoMemory),
    }
}

/// Takes all waiting messages once there are any, or returns how the reader has stopped.
///
/// # Errors
///
/// Returns `NoMemory` if memory runs out, and then nothing was taken.
pub fn take<X: Drop, R: Wait>(
    rt: &R,
    bells: &Bells,
    caller: &mut Caller<Mailbox<X>>,
) -> Result<Took<X>, NoMemory>
    requires lane { caller.old.pass.lane ≡ taker }
    requires here { (state_at caller.old.pass).left ≡ false }
    requires bell { taker < bells.now }
    ensures same { IsSamePass caller.old.pass caller.new.pass }
    ensures ok { IfOk result (λ took. HasTook took (state_at caller.old.pass)
        (state_at caller.new.pass)) }
    ensures err { OnErr result (TakerStands (state_at caller.old.pass)
        (state_at caller.new.pass)) }
{
    for _ in rt.forever() {
        if let Some(took) = take_once(rt, caller)? {
            return Ok(took);
        }
        bells.rest(rt, TAKER);
    }
    unreachable!()
}

/// Takes all messages that wait now, perhaps none. So no message that was put in by then is lost.
///
/// # Errors
///
/// Same as [`take`].
pub fn take_waiting<X: Drop, R: Wait>(
    rt: &R,
    alloc: Global,
    caller: &mut Caller<Mailbox<X>>,
) -> Result<Vec<X>, NoMemory>
    requires lane { caller.old.pass.lane ≡ taker }
    requires here { (state_at caller.old.pass).left ≡ false }
    ensures same { IsSamePass caller.old.pass caller.new.pass }
    ensures ok { IfOk result (λ messages. HasTaken messages.items (state_at caller.old.pass)
        (state_at caller.new.pass)) }
    ensures err { OnErr result (TakerStands (state_at caller.old.pass)
        (state_at caller.new.pass)) }
{
    match take_once(rt, caller)? {
        Some(Took::Messages(messages)) => Ok(messages),
        Some(Took::Stopped(_)) | None => Ok(Vec::new(alloc)),
    }
}

/// Leaves the mailbox. From then on nothing changes. It takes no memory.
pub fn leave<X: Drop, R: Wait>(rt: &R, caller: &mut Caller<Mailbox<X>>)
    requires lane { caller.old.pass.lane ≡ taker }
    requires here { (state_at caller.old.pass).left ≡ false }
    ensures same { IsSamePass caller.old.pass caller.new.pass }
    ensures left { HasLeft (state_at caller.old.pass) (state_at caller.new.pass) }
{
    caller.call_paid(rt, Ask::Leave, None);
}
