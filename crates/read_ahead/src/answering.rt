//! The worker: it answers the messages that were read, one after another.
ghost use Rattle.std.specs.Prelude.{◌≡◌, ◌<◌, [], false, Some, vec_len};
ghost use Rattle.seat_desk.specs.Passes.{IsSamePass};
ghost use Rattle.message_service.specs.Ends.{end_of};
ghost use Rattle.message_service.specs.Serves.{Answered};
ghost use Rattle.message_box.specs.States.{taker, first};
ghost use Rattle.message_box.specs.Sides.{state_at};
ghost use Rattle.read_ahead.specs.Reading.{finish_of};
ghost use Rattle.read_ahead.specs.Working.{ToldBy, Refills, DealsFirst};

use crate::lanes::Hall;
use lane_bells::Bells;
use lane_threads::Caller;
use message_box::{Mailbox, Stop, Took, take, take_waiting};
use message_service::{Finish, Service, answer_one};
use outside::{Shop, Sink};
use plain_values::NoMemory;
use std::alloc::Global;
use std::sync::Wait;

/// Answers the messages that come out of the mailbox, in order. Each message is answered with all messages
/// in sight that follow it and were put in by its turn. Returns the cause of its end.
pub(crate) fn work<O: Sink, S: Shop, V: Service<S>, R: Wait>(
    rt: &R,
    hall: &Hall<'_, V>,
    caller: &mut Caller<Mailbox<V::Message>>,
    out: &mut O,
    shop: &mut S,
) -> Finish
    requires lane { caller.old.pass.lane ≡ taker }
    requires bell { taker < hall.now.bells.now }
    requires fresh { state_at caller.old.pass ≡ first }
    ensures same { IsSamePass caller.old.pass caller.new.pass }
    ensures here { (state_at caller.new.pass).left ≡ false }
    ensures told { ToldBy result (state_at caller.new.pass) }
    ensures answered { Answered V.answers (Some result) [] (state_at caller.new.pass).taken
        (O.told out.old) (O.told out.new) (S.told shop.old) (S.told shop.new) }
{
    let mut queue = Vec::new(hall.alloc);
    for _ in rt.forever() {
        if let Err(finish) = refill(rt, hall.alloc, hall.bells, caller, &mut queue) {
            return finish;
        }
        hall.backlog.note(hall.bells, queue.len());
        if queue.is_empty() {
            continue;
        }
        if let Err(finish) = answer_first(hall.alloc, hall.service, &mut queue, out, shop) {
            return finish;
        }
    }
    unreachable!()
}

// Takes all waiting messages. If there is nothing to do, it waits for more.
fn refill<X: Drop, R: Wait>(
    rt: &R,
    alloc: Global,
    bells: &Bells,
    caller: &mut Caller<Mailbox<X>>,
    queue: &mut Vec<X>,
) -> Result<(), Finish>
    requires lane { caller.old.pass.lane ≡ taker }
    requires bell { taker < bells.now }
    requires here { (state_at caller.old.pass).left ≡ false }
    ensures same { IsSamePass caller.old.pass caller.new.pass }
    ensures refills { Refills result queue.old.items queue.new.items
        (state_at caller.old.pass) (state_at caller.new.pass) }
{
    if queue.is_empty() {
        return begin(rt, bells, caller, queue);
    }
    let Ok(mut messages) = take_waiting(rt, alloc, caller) else {
        return Err(Finish::NoMemory);
    };
    match queue.append(&mut messages) {
        Ok(()) => Ok(()),
        Err(_) => Err(Finish::NoMemory),
    }
}

// Waits for messages while none is left to answer.
fn begin<X: Drop, R: Wait>(
    rt: &R,
    bells: &Bells,
    caller: &mut Caller<Mailbox<X>>,
    queue: &mut Vec<X>,
) -> Result<(), Finish>
    requires lane { caller.old.pass.lane ≡ taker }
    requires bell { taker < bells.now }
    requires here { (state_at caller.old.pass).left ≡ false }
    requires none { queue.old.items ≡ [] }
    ensures same { IsSamePass caller.old.pass caller.new.pass }
    ensures refills { Refills result queue.old.items queue.new.items
        (state_at caller.old.pass) (state_at caller.new.pass) }
{
    match take(rt, bells, caller) {
        Ok(Took::Messages(messages)) => {
            *queue = messages;
            Ok(())
        }
        Ok(Took::Stopped(stop)) => Err(finish(stop)),
        Err(NoMemory) => Err(Finish::NoMemory),
    }
}

// Returns how the program ends if its reader has stopped for this reason.
fn finish(stop: Stop) -> Finish
    ensures { result ≡ finish_of stop }
{
    match stop {
        Stop::AtEnd => Finish::AtEnd,
        Stop::NoMemory => Finish::NoMemory,
        Stop::BadInput => Finish::BadInput,
        Stop::InputFault => Finish::InputFault,
        Stop::TooLong => Finish::TooLong,
    }
}

// Answers the first message. The others come after it.
fn answer_first<O: Sink, S: Shop, V: Service<S>>(
    alloc: Global,
    service: &V,
    queue: &mut Vec<V::Message>,
    out: &mut O,
    shop: &mut S,
) -> Result<(), Finish>
    requires { 0 < vec_len queue.old }
    ensures { DealsFirst V.answers (end_of result) queue.old.items queue.new.items (O.told out.old)
        (O.told out.new) (S.told shop.old) (S.told shop.new) }
{
    let message = queue.remove(0);
    answer_one(alloc, service, &message, queue.as_slice(), out, shop)
}
