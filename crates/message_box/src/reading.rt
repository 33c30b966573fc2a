//! The reader's calls.
ghost use Rattle.std.specs.Prelude.{◌≡◌, ◌<◌, true, None, IfOk, OnErr};
ghost use Rattle.seat_desk.specs.Passes.{IsSamePass};
ghost use Rattle.message_box.specs.declared.mailbox.Answer.TheVariants as answer;
ghost use Rattle.message_box.specs.declared.reading.Offered.TheVariants as offered;
ghost use Rattle.message_box.specs.States.{reader, IsLook};
ghost use Rattle.message_box.specs.Sides.{state_at, ReaderStands, HasPut, HasStopped, offered_by};

use crate::mailbox::{Answer, Ask, Mailbox, READER, Stop};
use lane_bells::Bells;
use lane_threads::Caller;
use plain_values::NoMemory;
use std::snapshot::Snapshot;
use std::sync::Wait;

/// The reply to a reader: if there is still a taker for its messages.
#[derive(Clone, Copy, PartialEq, Eq)]
pub enum Offered {
    /// The messages were put in, or there is room.
    Done,
    /// The taker has left.
    Gone,
}

// Asks a question that changes nothing. It takes no memory.
fn look<X: Drop, R: Wait>(rt: &R, caller: &mut Caller<Mailbox<X>>, question: Ask<X>) -> Answer
    requires lane { caller.old.pass.lane ≡ reader }
    requires looks { IsLook question }
    ensures same { IsSamePass caller.old.pass caller.new.pass }
    ensures stands { ReaderStands (state_at caller.old.pass) (state_at caller.new.pass) }
    ensures gone { result ≡ answer.Gone → (state_at caller.new.pass).left ≡ true }
{
    caller.call_paid(rt, question, None).0
}

// Returns the result for a reader that received this reply.
fn told(reply: Answer) -> Result<Offered, NoMemory>
    ensures { result ≡ offered_by reply }
{
    match reply {
        Answer::Done => Ok(Offered::Done),
        Answer::NoRoom => Err(NoMemory),
        Answer::Open | Answer::Idle | Answer::Stopped(_) | Answer::Gone => Ok(Offered::Gone),
    }
}

/// Waits until there is room for more, or the taker has left. It takes no memory.
pub fn await_room<X: Drop, R: Wait>(
    rt: &R,
    bells: &Bells,
    caller: &mut Caller<Mailbox<X>>,
) -> Offered
    requires lane { caller.old.pass.lane ≡ reader }
    requires bell { reader < bells.now }
    ensures same { IsSamePass caller.old.pass caller.new.pass }
    ensures stands { ReaderStands (state_at caller.old.pass) (state_at caller.new.pass) }
    ensures gone { result ≡ offered.Gone → (state_at caller.new.pass).left ≡ true }
{
    for _ in rt.forever() {
        match look(rt, caller, Ask::Room) {
            Answer::Open => return Offered::Done,
            Answer::Gone => return Offered::Gone,
            _ => bells.rest(rt, READER),
        }
    }
    unreachable!()
}

/// Appends these messages to the waiting ones, unless the taker has left.
///
/// # Errors
///
/// Returns `NoMemory` if memory runs out, and then the messages are lost.
pub fn put<X: Drop, R: Wait>(
    rt: &R,
    caller: &mut Caller<Mailbox<X>>,
    messages: Vec<X>,
) -> Result<Offered, NoMemory>
    requires lane { caller.old.pass.lane ≡ reader }
    requires reads { (state_at caller.old.pass).stop ≡ None }
    ensures same { IsSamePass caller.old.pass caller.new.pass }
    ensures ok { IfOk result (λ offered. HasPut messages.items offered
        (state_at caller.old.pass) (state_at caller.new.pass)) }
    ensures err { OnErr result (ReaderStands (state_at caller.old.pass)
        (state_at caller.new.pass)) }
{
    let about = Snapshot::of(&messages);
    match caller.call(rt, Ask::Put(about), Some(messages)) {
        Ok((reply, _)) => told(reply),
        Err(_) => Err(NoMemory),
    }
}

/// Reports how the reader has stopped, unless the taker has left. It takes no memory.
pub fn stop<X: Drop, R: Wait>(rt: &R, caller: &mut Caller<Mailbox<X>>, stop: Stop)
    requires lane { caller.old.pass.lane ≡ reader }
    requires reads { (state_at caller.old.pass).stop ≡ None }
    ensures same { IsSamePass caller.old.pass caller.new.pass }
    ensures stopped { HasStopped stop (state_at caller.old.pass) (state_at caller.new.pass) }
{
    caller.call_paid(rt, Ask::Stop(stop), None);
}

/// Waits until the taker has left. It takes no memory.
pub fn await_leave<X: Drop, R: Wait>(rt: &R, bells: &Bells, caller: &mut Caller<Mailbox<X>>)
    requires lane { caller.old.pass.lane ≡ reader }
    requires bell { reader < bells.now }
    ensures same { IsSamePass caller.old.pass caller.new.pass }
    ensures stands { ReaderStands (state_at caller.old.pass) (state_at caller.new.pass) }
    ensures left { (state_at caller.new.pass).left ≡ true }
{
    for _ in rt.forever() {
        if let Answer::Gone = look(rt, caller, Ask::Left) {
            return;
        }
        bells.rest(rt, READER);
    }
    unreachable!()
}
