// What a worker makes of its requests.
ghost use Rattle.std.specs.Prelude.{◌≡◌, true, IfOk, OnErr};
ghost use Rattle.wire_messages.specs.declared.request.WorkRequest.{WorkRequest};
ghost use Rattle.worker_kit.specs.declared.handler.Handled.{Handled};
ghost use Rattle.worker_kit.specs.Responses.{number_of, cancels_in, response_of, cancelled_response, Makes, Says};

use crate::speech::Speech;
use json_framing::Framing;
use plain_values::{NoMemory, Text};
use std::alloc::Global;
use std::marker::PhantomData;
use std::sync::Wait;
use wire_messages::{WorkRequest, WorkResponse};
use work_lanes::{Answerer, Flag, Kind, Made};

/// What a handler makes of a request.
#[derive(Drop)]
pub struct Handled {
    /// The exit code, as of a tool that was run for the request.
    pub exit: i32,
    /// What there is to say, for people.
    pub output: Text,
    /// The work was left unfinished, since the request was cancelled. The request is answered as
    /// cancelled, and the exit code and the output aren't put.
    pub stopped: bool,
}

/// Who answers requests, many at once: all lanes of a worker call it, each on a thread of its own.
/// What they share they share as threads do, behind a `Mutex` for one.
pub trait Handler: Sync {
    // What may be made of a request.
    ghost answers: { WorkRequest → Handled → Type 0 };

    /// Does what a request asks. It may stop early and report so if it has seen the flag raised.
    ///
    /// # Errors
    ///
    /// `NoMemory`, and then the worker ends. A handler that can go on answers with an exit code.
    fn handle<R: Wait, F: Flag>(
        &self,
        rt: &R,
        alloc: Global,
        request: &WorkRequest,
        flag: &mut F,
    ) -> Result<Handled, NoMemory>
        ensures answers { IfOk result (answers request.now) }
        ensures same { F.owner flag.new ≡ F.owner flag.old }
        ensures stops { IfOk result (λ handled. handled.stopped ≡ true
            → F.raised flag.new ≡ true) };
}

/// Who answers requests, one at a time. A worker has one for each of its lanes, with a state of its
/// own, as a compiler that is kept warm.
pub trait LaneHandler: Drop {
    // What may be made of a request.
    ghost answers: { WorkRequest → Handled → Type 0 };

    // The handler before and after, where it has made this of a request.
    ghost does: { Self → WorkRequest → Handled → Self → Type 0 };

    // The handler before and after, where it has broken off in a request for lack of memory.
    ghost breaks: { Self → WorkRequest → Self → Type 0 };

    /// As [`Handler::handle`].
    ///
    /// # Errors
    ///
    /// As of [`Handler::handle`].
    fn handle<R: Wait, F: Flag>(
        &mut self,
        rt: &R,
        alloc: Global,
        request: &WorkRequest,
        flag: &mut F,
    ) -> Result<Handled, NoMemory>
        ensures answers { IfOk result (answers request.now) }
        ensures does { IfOk result (λ handled. does self.old request.now handled self.new) }
        ensures breaks { OnErr result (breaks self.old request.now self.new) }
        ensures same { F.owner flag.new ≡ F.owner flag.old }
        ensures stops { IfOk result (λ handled. handled.stopped ≡ true
            → F.raised flag.new ≡ true) };
}

/// A lane's share in the one handler of all lanes.
#[derive(Drop)]
pub(crate) struct Shared<'a, H> {
    pub(crate) handler: &'a H,
}

impl<H: Handler> LaneHandler for Shared<'_, H> {
    ghost answers = { H.answers };

    ghost does = { λ old request handled new. new ≡ old };

    ghost breaks = { λ old request new. new ≡ old };

    fn handle<R: Wait, F: Flag>(
        &mut self,
        rt: &R,
        alloc: Global,
        request: &WorkRequest,
        flag: &mut F,
    ) -> Result<Handled, NoMemory> {
        self.handler.handle(rt, alloc, request, flag)
    }
}

/// A lane's handler, in a speech.
pub(crate) struct Works<H, V> {
    pub(crate) handler: H,
    speech: PhantomData<V>,
}

impl<H, V> Works<H, V> {
    pub(crate) fn of(handler: H) -> Works<H, V>
        ensures { result.handler ≡ handler }
    {
        Works {
            handler,
            speech: PhantomData,
        }
    }

    pub(crate) fn into_handler(self) -> H
        ensures { result ≡ self.handler }
    {
        let Works { handler, speech: _ } = self;
        handler
    }
}

impl<H: Drop, V> Drop for Works<H, V> {
    fn drop(self) {
        let Works {
            handler: _,
            speech: _,
        } = self;
    }
}

impl<H: LaneHandler, V: Speech> Kind<WorkRequest, WorkResponse> for Works<H, V> {
    ghost number = { number_of };

    ghost cancels = { cancels_in };

    ghost says = { Says H.answers };

    ghost written = { V.written };

    fn number(request: &WorkRequest) -> i32 {
        request.request_id
    }

    fn cancels(request: &WorkRequest) -> bool {
        request.cancel
    }
}

impl<H: LaneHandler, V: Speech> Answerer<WorkRequest, WorkResponse> for Works<H, V> {
    ghost framing = { V.framing };

    ghost answers = { λ old request response new. Makes H.does old.handler request response
        new.handler };

    ghost breaks = { λ old request new. H.breaks old.handler request new.handler };

    ghost spells = { V.spells };

    fn framing() -> Framing {
        V::framing()
    }

    fn read(alloc: Global, frame: &[u8]) -> Result<Option<WorkRequest>, NoMemory> {
        V::read(alloc, frame)
    }

    fn write(alloc: Global, response: &WorkResponse) -> Result<Vec<u8>, NoMemory> {
        V::write(alloc, response)
    }

    fn answer<R: Wait, F: Flag>(
        &mut self,
        rt: &R,
        alloc: Global,
        request: &WorkRequest,
        flag: &mut F,
    ) -> Result<Made<WorkResponse>, NoMemory> {
        let handled = self.handler.handle(rt, alloc, request, flag)?;
        let stopped = handled.stopped;
        Ok(Made {
            response: response_of(request, handled),
            stopped,
        })
    }

    fn give_up(alloc: Global, request: &WorkRequest) -> WorkResponse {
        cancelled_response(alloc, request.request_id)
    }
}

// The response to a request that was handled so.
fn response_of(request: &WorkRequest, handled: Handled) -> WorkResponse
    ensures { result ≡ response_of request.now handled }
{
    WorkResponse {
        exit_code: handled.exit,
        output: handled.output,
        request_id: request.request_id,
        was_cancelled: false,
    }
}

// The response to a request that was cancelled.
fn cancelled_response(alloc: Global, number: i32) -> WorkResponse
    ensures { result ≡ cancelled_response number }
{
    WorkResponse {
        exit_code: 0,
        output: Text::of(String::new(alloc)),
        request_id: number,
        was_cancelled: true,
    }
}
