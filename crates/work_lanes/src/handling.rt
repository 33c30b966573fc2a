// A lane that answers requests.
ghost use Rattle.std.specs.Prelude.{◌≡◌, ◌<◌, [], true, false, IfOk, OnOk, OnErr};
ghost use Rattle.seat_desk.specs.Passes.{IsPassOf, IsSamePass};
ghost use Rattle.lane_threads.specs.Lanes.{IsFresh};
ghost use Rattle.work_queue.specs.States.{reader};
ghost use Rattle.work_lanes.specs.Calls.{state_at, begun_at, InHand};
ghost use Rattle.work_lanes.specs.Handles.{AnswersOne, AnswersUnless, DidOne, DidUnless, Follows};

use crate::answerer::{Answerer, Made};
use crate::calls::{answer, halt, take};
use crate::flag::LaneFlag;
use lane_bells::Bells;
use lane_threads::{Caller, Lane};
use outside::Sink;
use plain_values::NoMemory;
use seat_desk::{Desk, Pass};
use std::alloc::Global;
use std::sync::Wait;
use std::thread::Threads;
use work_queue::{Asked, CancelFlag, WorkQueue};

/// A lane that answers requests by its handler.
#[derive(Drop)]
pub(crate) struct Hands<H> {
    pub(crate) alloc: Global,
    pub(crate) number: u32,
    pub(crate) handler: H,
    pub(crate) hint: CancelFlag,
}

impl<H> Hands<H> {
    pub(crate) fn into_handler(self) -> H
        ensures { result ≡ self.handler }
    {
        let Hands { handler, .. } = self;
        handler
    }
}

impl<O: Sink, X: Drop, Y: Drop, H: Answerer<X, Y>> Lane<
    Desk<WorkQueue<O, X, Y, H>>,
    Pass<WorkQueue<O, X, Y, H>>,
> for Hands<H> {
    type End = H;

    ghost may_run = { λ self desk bells pass. IsPassOf desk pass × IsFresh pass
        × (pass.lane ≡ self.number) × (pass.lane ≡ reader → ⊥) × (pass.lane < bells) };

    ghost has_run = { λ self pass end after. IsSamePass pass after
        × Follows H.answers H.breaks self.handler (begun_at H.number H.cancels after) end };

    fn run<R: Threads + Wait + Sync>(
        self,
        rt: &R,
        desk: &Desk<WorkQueue<O, X, Y, H>>,
        bells: &Bells,
        pass: Pass<WorkQueue<O, X, Y, H>>,
    ) -> (H, Pass<WorkQueue<O, X, Y, H>>) {
        let Hands {
            alloc,
            number: _,
            handler,
            hint,
        } = self;
        let mut handler = handler;
        let caller = Caller::new(desk, bells, pass);
        let mut flag = LaneFlag { caller, hint };
        if work(rt, alloc, &mut flag, &mut handler).is_err() {
            halt(rt, &mut flag.caller);
        }
        let LaneFlag { caller, hint: _ } = flag;
        (handler, caller.into_pass())
    }
}

// Answers one request after another, until all is over.
fn work<O: Sink, X: Drop, Y: Drop, H: Answerer<X, Y>, R: Wait>(
    rt: &R,
    alloc: Global,
    flag: &mut LaneFlag<'_, WorkQueue<O, X, Y, H>>,
    handler: &mut H,
) -> Result<(), NoMemory>
    requires hand { flag.old.caller.pass.lane ≡ reader → ⊥ }
    requires fresh { begun_at H.number H.cancels flag.old.caller.pass ≡ [] }
    ensures same { IsSamePass flag.old.caller.pass flag.new.caller.pass }
    ensures followed { Follows H.answers H.breaks handler.old
        (begun_at H.number H.cancels flag.new.caller.pass) handler.new }
{
    for _ in rt.forever() {
        let Some(asked) = take(rt, &mut flag.caller)? else {
            return Ok(());
        };
        answer_one(rt, alloc, flag, handler, asked)?;
    }
    unreachable!()
}

// Answers the request that the lane has taken.
fn answer_one<O: Sink, X: Drop, Y: Drop, H: Answerer<X, Y>, R: Wait>(
    rt: &R,
    alloc: Global,
    flag: &mut LaneFlag<'_, WorkQueue<O, X, Y, H>>,
    handler: &mut H,
    asked: Asked<X>,
) -> Result<(), NoMemory>
    requires hand { InHand flag.old.caller.pass.lane asked.request asked.cancelled asked.cancelled
        (state_at H.number H.cancels flag.old.caller.pass) }
    ensures same { IsSamePass flag.old.caller.pass flag.new.caller.pass }
    ensures begun { begun_at H.number H.cancels flag.new.caller.pass
        ≡ begun_at H.number H.cancels flag.old.caller.pass }
    ensures answered { OnOk result (AnswersUnless H.answers asked.cancelled handler.old
        asked.request handler.new) }
    ensures did { DidUnless H.answers H.breaks asked.cancelled handler.old asked.request
        handler.new }
{
    let Asked { request, cancelled } = asked;
    if cancelled {
        let said = Said::given_up(H::give_up(alloc, &request));
        return put(rt, alloc, &mut flag.caller, &request, true, said);
    }
    let said = handle(rt, alloc, flag, handler, &request)?;
    put(rt, alloc, &mut flag.caller, &request, false, said)
}

// A response, and whether it is that of a cancelled request.
#[derive(Drop)]
struct Said<Y> {
    response: Y,
    cancelled: bool,
}

impl<Y> Said<Y> {
    fn given_up(response: Y) -> Said<Y>
        ensures { (result.response ≡ response) × (result.cancelled ≡ true) }
    {
        Said {
            response,
            cancelled: true,
        }
    }
}

// Puts the response to the request that the lane has in hand.
fn put<O: Sink, X: Drop, Y: Drop, H: Answerer<X, Y>, R: Wait>(
    rt: &R,
    alloc: Global,
    caller: &mut Caller<WorkQueue<O, X, Y, H>>,
    request: &X,
    was: bool,
    said: Said<Y>,
) -> Result<(), NoMemory>
    requires begun { was ≡ true → said.cancelled ≡ true }
    requires hand { InHand caller.old.pass.lane request.now was said.cancelled
        (state_at H.number H.cancels caller.old.pass) }
    requires says { H.says request.now said.cancelled said.response }
    ensures same { IsSamePass caller.old.pass caller.new.pass }
    ensures begun { begun_at H.number H.cancels caller.new.pass
        ≡ begun_at H.number H.cancels caller.old.pass }
{
    let Said {
        response,
        cancelled,
    } = said;
    let bytes = H::write(alloc, &response)?;
    answer(rt, caller, request, was, cancelled, response, bytes)
}

// Lets the handler do what the request asks. A request that it has stopped is given up.
fn handle<O: Sink, X: Drop, Y: Drop, H: Answerer<X, Y>, R: Wait>(
    rt: &R,
    alloc: Global,
    flag: &mut LaneFlag<'_, WorkQueue<O, X, Y, H>>,
    handler: &mut H,
    request: &X,
) -> Result<Said<Y>, NoMemory>
    requires hand { InHand flag.old.caller.pass.lane request.now false false
        (state_at H.number H.cancels flag.old.caller.pass) }
    ensures same { IsSamePass flag.old.caller.pass flag.new.caller.pass }
    ensures said { IfOk result (λ said. H.says request.now said.cancelled said.response) }
    ensures begun { begun_at H.number H.cancels flag.new.caller.pass
        ≡ begun_at H.number H.cancels flag.old.caller.pass }
    ensures answered { OnOk result (AnswersOne H.answers handler.old request.now handler.new) }
    ensures did { DidOne H.answers H.breaks handler.old request.now handler.new }
    ensures hand { IfOk result (λ said. InHand flag.new.caller.pass.lane request.now false
        said.cancelled (state_at H.number H.cancels flag.new.caller.pass)) }
{
    let Made { response, stopped } = handler.answer(rt, alloc, request, flag)?;
    if stopped {
        return Ok(Said::given_up(H::give_up(alloc, request)));
    }
    Ok(Said {
        response,
        cancelled: false,
    })
}
