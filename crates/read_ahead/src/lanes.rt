//! The two lanes.
ghost use Rattle.std.specs.Prelude.{◌≡◌, ◌<◌, None};
ghost use Rattle.outside.specs.Told.{TapTold, SinkTold, ShopTold};
ghost use Rattle.seat_desk.specs.Passes.{IsSamePass};
ghost use Rattle.json_framing.specs.Cutter.{form_of};
ghost use Rattle.message_box.specs.States.{reader, taker, put_in, first};
ghost use Rattle.message_box.specs.Sides.{state_at};
ghost use Rattle.read_ahead.specs.Reading.{ReaderLeaves, SaidBy};
ghost use Rattle.read_ahead.specs.Working.{WorkerLeaves};

use crate::answering::work;
use crate::backlog::Backlog;
use crate::both::{Reads, Works};
use crate::reading::{Pause, read_all};
use crate::start::Start;
use lane_bells::Bells;
use lane_threads::Caller;
use message_box::{Mailbox, await_leave, leave, stop};
use message_service::{Finish, Service};
use outside::{Shop, Sink, Tap};
use std::alloc::Global;
use std::sync::Wait;

/// The state that both lanes share.
#[derive(Drop)]
pub(crate) struct Hall<'a, V> {
    pub(crate) alloc: Global,
    pub(crate) service: &'a V,
    pub(crate) bells: &'a Bells,
    pub(crate) backlog: &'a Backlog,
    pub(crate) start: &'a Start,
}

impl<'a, T: Tap, S: Shop, V: Service<S>> Reads<T, S, Caller<'a, Mailbox<V::Message>>>
    for Hall<'_, V> {
    type Pause = Pause;

    ghost can_read = { λ self caller. (caller.pass.lane ≡ reader) × (reader < self.bells.now)
        × (state_at caller.pass ≡ first) };

    ghost has_read = { λ caller input pause caller' input'. IsSamePass caller.pass caller'.pass
        × ReaderLeaves (form_of V.framing) V.spells pause (state_at caller'.pass) (T.told input)
        (T.told input') };

    fn read<R: Wait>(
        &self,
        rt: &R,
        caller: &mut Caller<'a, Mailbox<V::Message>>,
        input: &mut T,
    ) -> Pause {
        if !self.start.begin(rt, self.bells) {
            return stay_out::<S, V, R>(rt, self.bells, caller);
        }
        read_lane(rt, self, caller, input)
    }
}

impl<'a, O: Sink, S: Shop, V: Service<S>> Works<O, S, Caller<'a, Mailbox<V::Message>>>
    for Hall<'_, V> {
    type Finish = Finish;

    ghost can_work = { λ self caller. (caller.pass.lane ≡ taker) × (taker < self.bells.now)
        × (state_at caller.pass ≡ first) };

    ghost has_worked = { λ caller out shop finish caller' out' shop'.
        IsSamePass caller.pass caller'.pass
        × WorkerLeaves V.answers finish (state_at caller'.pass) (O.told out) (O.told out')
        (S.told shop) (S.told shop') };

    fn work<R: Wait>(
        &self,
        rt: &R,
        caller: &mut Caller<'a, Mailbox<V::Message>>,
        out: &mut O,
        shop: &mut S,
    ) -> Finish {
        if !self.start.await_reader(rt, self.bells) {
            return call_off::<S, V, R>(rt, caller);
        }
        work_lane(rt, self, caller, out, shop)
    }
}

// Runs the reader's lane if the run was called off before it began. It reads nothing, and waits until the
// taker has left.
fn stay_out<S: Shop, V: Service<S>, R: Wait>(
    rt: &R,
    bells: &Bells,
    caller: &mut Caller<Mailbox<V::Message>>,
) -> Pause
    requires lane { caller.old.pass.lane ≡ reader }
    requires bell { reader < bells.now }
    requires fresh { state_at caller.old.pass ≡ first }
    ensures same { IsSamePass caller.old.pass caller.new.pass }
    ensures leaves { (input : TapTold) → ReaderLeaves (form_of V.framing) V.spells result
        (state_at caller.new.pass) input input }
{
    await_leave(rt, bells, caller);
    Pause::Gone
}

// Runs the worker's lane if the run is called off. It answers nothing, and leaves.
fn call_off<S: Shop, V: Service<S>, R: Wait>(
    rt: &R,
    caller: &mut Caller<Mailbox<V::Message>>,
) -> Finish
    requires lane { caller.old.pass.lane ≡ taker }
    requires fresh { state_at caller.old.pass ≡ first }
    ensures same { IsSamePass caller.old.pass caller.new.pass }
    ensures leaves { (out : SinkTold) → (shop : ShopTold) → WorkerLeaves V.answers result
        (state_at caller.new.pass) out out shop shop }
{
    leave(rt, caller);
    Finish::NoMemory
}

// Runs the reader's lane. It reads, reports how it has stopped, and waits until the taker has left.
fn read_lane<T: Tap, S: Shop, V: Service<S>, R: Wait>(
    rt: &R,
    hall: &Hall<'_, V>,
    caller: &mut Caller<Mailbox<V::Message>>,
    input: &mut T,
) -> Pause
    requires lane { caller.old.pass.lane ≡ reader }
    requires bell { reader < hall.now.bells.now }
    requires fresh { state_at caller.old.pass ≡ first }
    ensures same { IsSamePass caller.old.pass caller.new.pass }
    ensures leaves { ReaderLeaves (form_of V.framing) V.spells result (state_at caller.new.pass)
        (T.told input.old) (T.told input.new) }
{
    let pause = read_all(rt, hall, caller, input);
    say_end(rt, caller, pause);
    await_leave(rt, hall.bells, caller);
    pause
}

// Reports how the reader has stopped, if the taker still takes messages.
fn say_end<X: Drop, R: Wait>(rt: &R, caller: &mut Caller<Mailbox<X>>, pause: Pause)
    requires lane { caller.old.pass.lane ≡ reader }
    requires reads { (state_at caller.old.pass).stop ≡ None }
    ensures same { IsSamePass caller.old.pass caller.new.pass }
    ensures stands { put_in (state_at caller.new.pass) ≡ put_in (state_at caller.old.pass) }
    ensures said { SaidBy pause (state_at caller.new.pass) }
{
    if let Pause::Stopped(how) = pause {
        stop(rt, caller, how);
    }
}

// Runs the worker's lane. It works, and then leaves.
fn work_lane<O: Sink, S: Shop, V: Service<S>, R: Wait>(
    rt: &R,
    hall: &Hall<'_, V>,
    caller: &mut Caller<Mailbox<V::Message>>,
    out: &mut O,
    shop: &mut S,
) -> Finish
    requires lane { caller.old.pass.lane ≡ taker }
    requires bell { taker < hall.now.bells.now }
    requires fresh { state_at caller.old.pass ≡ first }
    ensures same { IsSamePass caller.old.pass caller.new.pass }
    ensures leaves { WorkerLeaves V.answers result (state_at caller.new.pass) (O.told out.old)
        (O.told out.new) (S.told shop.old) (S.told shop.new) }
{
    let finish = work(rt, hall, caller, out, shop);
    leave(rt, caller);
    finish
}
