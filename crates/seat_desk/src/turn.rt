//! The work of a turn, while the machine is out of the slot.
ghost use Rattle.std.specs.Prelude.{◌≡◌, ◌<◌, ◌+◌, true, false, cond};
ghost use Rattle.seat_desk.specs.History.{entry, after, IsReply};
ghost use Rattle.seat_desk.specs.Helds.{IsGood, HasRoom};
ghost use Rattle.seat_desk.specs.Desks.{MayFollow, Follows};

use crate::held::Held;
use crate::machine::{Machine, Then};
use crate::pieces::Pieces;
use plain_values::Entry;

// Adds the entry to the history, if it is recorded. The function takes no memory.
fn write<M: Machine>(
    history: &mut Pieces<Entry<M::Call, M::Reply>>,
    lane: u32,
    call: M::Call,
    reply: &M::Reply,
)
    requires { M.keeps (entry lane call reply.now) ≡ true
        → 0 < history.old.room }
    ensures items { history.new.items ≡ after M.keeps history.old.items
        (entry lane call reply.now) }
    ensures room { history.new.room + cond (M.keeps (entry lane call reply.now)) 1 0
        ≡ history.old.room }
{
    if M::is_kept(lane, &call, reply) {
        let reply = M::copy(reply);
        history.push_reserved(Entry { lane, call, reply });
    }
}

/// Makes one call of the machine, and adds its entry.
pub(crate) fn step<M: Machine>(
    held: &mut Held<M, M::Call, M::Reply>,
    lane: u32,
    call: M::Call,
    put: Option<M::Good>,
) -> (M::Reply, Option<M::Good>)
    requires good { IsGood M.basis M.stands M.owes (M.basis held.old.machine) held.old }
    requires room { HasRoom (M.owes (M.basis held.old.machine)) (M.paid (M.basis held.old.machine))
        lane call held.old }
    requires suits { M.goes_in (M.basis held.old.machine) held.old.history.items lane call put }
    ensures history { held.new.history.items ≡ after M.keeps held.old.history.items
        (entry lane call result.0) }
    ensures good { IsGood M.basis M.stands M.owes (M.basis held.old.machine) held.new }
    ensures reply { IsReply (M.next (M.basis held.old.machine)) M.short
        (M.may_be_short (M.basis held.old.machine)) held.old.history.items lane call result.0 }
    ensures paid { M.paid (M.basis held.old.machine) held.old.history.items lane call
        → (result.0 ≡ M.next (M.basis held.old.machine) held.old.history.items lane call)
        × (M.short result.0 ≡ false) }
    ensures comes { M.comes_out
        (M.basis held.old.machine) held.old.history.items lane call result.0 result.1 }
{
    let (reply, good) = held.machine.turn(lane, &call, put);
    write::<M>(&mut held.history, lane, call, &reply);
    (reply, good)
}

/// Makes the call that the work returns for the first call's reply, if it returns one.
pub(crate) fn follow<M: Machine, W: Then<M>>(
    held: &mut Held<M, M::Call, M::Reply>,
    lane: u32,
    reply: M::Reply,
    good: Option<M::Good>,
    work: &mut W,
) -> (M::Reply, Option<M::Good>)
    requires good { IsGood M.basis M.stands M.owes (M.basis held.old.machine) held.old }
    requires may { MayFollow W.meets (M.paid (M.basis held.old.machine)) (M.goes_in
        (M.basis held.old.machine))
        lane held.old.history.items work.old reply good }
    ensures good { IsGood M.basis M.stands M.owes (M.basis held.old.machine) held.new }
    ensures follows { Follows W.meets (M.next (M.basis held.old.machine)) M.short M.keeps
        (M.comes_out (M.basis held.old.machine)) lane held.old.history.items work.old reply good
        result.0 result.1 work.new held.new.history.items }
{
    match work.then(&reply, good) {
        Some((call, put)) => step(held, lane, call, put),
        None => (reply, None),
    }
}
