//! The machine.
ghost use Rattle.std.specs.Prelude.{◌≡◌, ◌+◌, ℕ, List, [], true, false, ◌⊎◌, ◌||◌, cond, Option, Some, None};
ghost use Rattle.seat_desk.specs.History.{entry};
ghost use Rattle.work_queue.specs.declared.queue.Told.TheVariants as told;
ghost use Rattle.work_queue.specs.States.{State, state_of, first, answer_to, is_kept, is_short, GoesIn, ComesOut, IsPaid, MayBeShort, PutSo};
ghost use Rattle.work_queue.specs.Signing.{KeepsSigns, NamesWork, NotesSo, is_ending, is_idle, depth_then, closes, HaltsSo};
ghost use Rattle.work_queue.specs.StateLaws.{Stands, TurnsSo, HearOnly, RoomOnly, TakeOnly, LookOnly, AnswerOnly, IsNew, EndsSo, short_not_kept, paid_not_short, paid_not_kept, suits_on, zero_fits};

use crate::kind::Kind;
use crate::outlet::Outlet;
use crate::rows::{Asked, Rows};
use crate::signs::{Flags, Signs};
use outside::Sink;
use seat_desk::Machine;
use std::alloc::Global;
use std::marker::PhantomData;
use std::snapshot::Snapshot;
use std::sync::Arc;

/// The number of the lane that reads requests. All others answer them.
pub const READER: u32 = 0;

/// What a lane asks of a work queue.
#[derive(Drop)]
pub enum Ask<X, Y> {
    /// To hear this request, which goes in with the call.
    Hear(Snapshot<X>),
    /// Whether fewer requests than this wait, so that there is room for more.
    Room(u32),
    /// To take the first request that waits into the lane's hand. It comes out with the reply.
    Take,
    /// Whether what the lane has in hand was cancelled.
    IsCancelled,
    /// To put this response to what the lane has in hand. Its bytes go in with the call.
    Answer(Snapshot<Y>),
    /// To say that no more comes.
    Close,
    /// To say that memory has run out.
    Halt,
}

/// What it is answered.
#[derive(Clone, Copy, PartialEq, Eq)]
pub enum Told {
    /// It is done; or no, where it is asked whether a request was cancelled.
    Done,
    /// Yes.
    Open,
    /// Not now.
    Idle,
    /// All is over: memory has run out, the sink has failed, or nothing waits and no more comes.
    Closed,
}

/// What goes in with a call, and comes out with a reply.
#[derive(Drop)]
pub enum Load<X> {
    /// A request that is heard.
    Request(X),
    /// One that is taken.
    Task(Asked<X>),
    /// The bytes of a response.
    Bytes(Vec<u8>),
}

/// How all is over.
#[derive(Clone, Copy, PartialEq, Eq)]
pub enum How {
    /// The sink has failed.
    Failed,
    /// Memory has run out, or something is left.
    Halted,
    /// Whatever was heard was answered.
    Whole,
}

/// What a work queue goes by: its sink, as it was at first.
#[derive(Drop)]
pub struct Start<O> {
    pub sink: Option<Snapshot<O>>,
}

/// Requests that wait or are in hand, and the sink for their responses.
#[derive(Drop)]
pub struct WorkQueue<O, X, Y, K> {
    pub(crate) rows: Rows<X>,
    pub(crate) outlet: Outlet<O>,
    pub(crate) signs: Signs,
    kind: PhantomData<(Y, K)>,
}

impl<O: Sink, X: Drop, Y, K: Kind<X, Y>> WorkQueue<O, X, Y, K> {
    /// A queue in which nothing waits, with this sink.
    pub fn new(alloc: Global, sink: O, flags: Arc<Flags>) -> WorkQueue<O, X, Y, K>
        ensures new { IsNew result }
        ensures sink { (result.outlet.start.value ≡ sink)
            × PutSo false [] (O.told sink) (O.told result.outlet.sink)
            × (result.outlet.has_failed ≡ false) }
    {
        WorkQueue {
            rows: Rows::new(alloc),
            outlet: Outlet::new(sink),
            signs: Signs::new(flags),
            kind: PhantomData,
        }
    }

    /// The sink, and how all is over.
    pub fn into_end(self) -> (O, How)
        ensures { EndsSo self result.0 result.1 }
    {
        let WorkQueue {
            rows,
            outlet,
            signs,
            kind: _,
        } = self;
        let how = if outlet.has_failed {
            How::Failed
        } else if signs.is_halted || !rows.is_empty() {
            How::Halted
        } else {
            How::Whole
        };
        let Outlet { sink, .. } = outlet;
        (sink, how)
    }

    // Hears a request.
    fn hear(&mut self, lane: u32, call: &Ask<X, Y>, put: Option<Load<X>>) -> Told
        requires { HearOnly call.now }
        ensures turns { TurnsSo K.number K.cancels K.says K.written O.told self.old lane call.now put
            result None self.new }
        ensures signs { KeepsSigns self.old.signs self.new.signs }
        ensures closed { result ≡ told.Closed → is_ending self.new ≡ true }
    {
        let Some(Load::Request(request)) = put else {
            self.signs.halt();
            return Told::Closed;
        };
        match self.rows.hear::<Y, K>(&self.signs, request) {
            Ok(()) => Told::Done,
            Err(_) => {
                self.signs.halt();
                Told::Closed
            }
        }
    }
}

impl<O: Sink, X: Drop, Y, K: Kind<X, Y>> WorkQueue<O, X, Y, K> {
    // Whether there is room for more.
    fn room(&mut self, lane: u32, call: &Ask<X, Y>, depth: u32, put: Option<Load<X>>) -> Told
        requires { RoomOnly depth call.now }
        ensures turns { TurnsSo K.number K.cancels K.says K.written O.told self.old lane call.now put
            result None self.new }
        ensures signs { (self.new.signs.resting ≡ self.old.signs.resting)
            × ((self.new.signs.depth ≡ cond (is_idle result) depth self.old.signs.depth)
            × (self.new.signs.is_closing ≡ self.old.signs.is_closing)) }
        ensures closed { result ≡ told.Closed → is_ending self.new ≡ true }
    {
        drop(put);
        if self.rows.waiting.len() < depth as usize {
            return Told::Open;
        }
        self.signs.depth = depth;
        Told::Idle
    }

    // Takes the first that waits.
    fn take(&mut self, lane: u32, call: &Ask<X, Y>, put: Option<Load<X>>) -> (Told, Option<Load<X>>)
        requires { TakeOnly call.now }
        ensures turns { TurnsSo K.number K.cancels K.says K.written O.told self.old lane call.now put
            result.0 result.1 self.new }
        ensures signs { KeepsSigns self.old.signs self.new.signs }
        ensures closed { result.0 ≡ told.Closed → is_ending self.new ≡ true }
    {
        drop(put);
        match self.rows.take::<Y, K>(lane) {
            Ok(Some(asked)) => {
                self.signs.take_up(lane, asked.cancelled);
                (Told::Done, Some(Load::Task(asked)))
            }
            Ok(None) => (self.none_waits(), None),
            Err(_) => {
                self.signs.halt();
                (Told::Closed, None)
            }
        }
    }

    // The lane rests while nothing waits, or is told that nothing more comes.
    fn none_waits(&self) -> Told
        ensures told { (result ≡ told.Closed) ⊎ (result ≡ told.Idle) }
        ensures closed { result ≡ told.Closed → is_ending self.now ≡ true }
    {
        if self.signs.is_closing {
            return Told::Closed;
        }
        Told::Idle
    }

    // Whether what the lane has in hand was cancelled.
    fn look(&mut self, lane: u32, call: &Ask<X, Y>, put: Option<Load<X>>) -> Told
        requires { LookOnly call.now }
        ensures turns { TurnsSo K.number K.cancels K.says K.written O.told self.old lane call.now put
            result None self.new }
        ensures signs { KeepsSigns self.old.signs self.new.signs }
        ensures closed { result ≡ told.Closed → is_ending self.new ≡ true }
    {
        drop(put);
        if self.rows.is_cancelled(lane) {
            Told::Open
        } else {
            Told::Done
        }
    }

    // Puts a response to what the lane has in hand.
    fn answer(&mut self, lane: u32, call: &Ask<X, Y>, put: Option<Load<X>>) -> Told
        requires open { self.old.outlet.has_failed ≡ false }
        requires answers { AnswerOnly call.now }
        ensures turns { TurnsSo K.number K.cancels K.says K.written O.told self.old lane call.now put
            result None self.new }
        ensures signs { KeepsSigns self.old.signs self.new.signs }
        ensures closed { result ≡ told.Closed → is_ending self.new ≡ true }
    {
        let Some(Load::Bytes(bytes)) = put else {
            self.signs.halt();
            return Told::Closed;
        };
        self.rows.put_down(lane);
        self.outlet.put(&bytes);
        Told::Done
    }

    // Makes the call.
    fn make(&mut self, lane: u32, call: &Ask<X, Y>, put: Option<Load<X>>) -> (Told, Option<Load<X>>)
        ensures turns { TurnsSo K.number K.cancels K.says K.written O.told self.old lane call.now
            put result.0 result.1 self.new }
        ensures resting { self.new.signs.resting ≡ self.old.signs.resting }
        ensures depth { self.new.signs.depth ≡ depth_then call.now result.0 self.old.signs.depth }
        ensures closing { self.new.signs.is_closing ≡ self.old.signs.is_closing || closes call.now }
        ensures halts { HaltsSo call.now self.new.signs.is_halted }
        ensures closed { result.0 ≡ told.Closed → is_ending self.new ≡ true }
    {
        match call {
            Ask::Close => {
                self.signs.close();
                (Told::Done, None)
            }
            Ask::Halt => {
                self.signs.halt();
                (Told::Done, None)
            }
            _ if self.is_over() => (Told::Closed, None),
            Ask::Hear(_) => (self.hear(lane, call, put), None),
            Ask::Room(depth) => (self.room(lane, call, *depth, put), None),
            Ask::Take => self.take(lane, call, put),
            Ask::IsCancelled => (self.look(lane, call, put), None),
            Ask::Answer(_) => (self.answer(lane, call, put), None),
        }
    }

    // Whether nothing changes any more.
    fn is_over(&self) -> bool
        ensures over { result ≡ (self.now.outlet.has_failed || self.now.signs.is_halted) }
        ensures open { result ≡ false → self.now.outlet.has_failed ≡ false }
    {
        self.outlet.has_failed || self.signs.is_halted
    }
}

fn is_idle(reply: &Told) -> bool
    ensures { result ≡ is_idle reply.now }
{
    matches!(reply, Told::Idle)
}

impl<O: Sink, X: Drop, Y, K: Kind<X, Y>> Machine for WorkQueue<O, X, Y, K> {
    type Call = Ask<X, Y>;

    type Reply = Told;

    type Good = Load<X>;

    type Basis = Start<O>;

    ghost basis = { λ m. record { sink = Some m.outlet.start } };

    ghost blank = { record { sink = None } };

    ghost stands = { λ m h. Stands K.number K.cancels K.says K.written O.told m
        (state_of K.number K.cancels h) };

    ghost next = { λ q h lane c. answer_to (state_of K.number K.cancels h) lane c };

    ghost keeps = { λ e. is_kept e.call e.reply };

    ghost paid = { λ q h lane c. IsPaid c };

    ghost short = { is_short };

    ghost may_be_short = { λ q h lane c. MayBeShort c };

    ghost goes_in = { λ q h lane c g. GoesIn K.number K.cancels K.says K.written
        (state_of K.number K.cancels h) lane c g };

    ghost comes_out = { λ q h lane c r g. ComesOut (state_of K.number K.cancels h) c r g };

    ghost owes = { λ q h. 0 };

    ghost hints = { λ m lane r lanes. NamesWork m lanes };

    ghost short_is_not_kept = { λ e s. short_not_kept e.call e.reply s };

    ghost paid_is_not_short = { λ m h lane c s p.
        paid_not_short (state_of K.number K.cancels h) lane c p };

    ghost paid_stays = { λ m h more lane c s e p. p };

    ghost owes_less = { λ m h lane c s p k. absurd (paid_not_kept c _ p k) };

    ghost owes_more = { λ m h lane c s k. zero_fits };

    ghost suits_still = { λ m h more lane c g s e p.
        suits_on K.number K.cancels K.says K.written h more lane c g e p };

    fn is_kept(_lane: u32, call: &Ask<X, Y>, reply: &Told) -> bool {
        match call {
            Ask::Hear(_) | Ask::Take | Ask::Answer(_) => matches!(reply, Told::Done),
            Ask::Room(_) => matches!(reply, Told::Open),
            Ask::IsCancelled | Ask::Close | Ask::Halt => false,
        }
    }

    fn copy(reply: &Told) -> Told {
        *reply
    }

    fn turn(&mut self, lane: u32, call: &Ask<X, Y>, put: Option<Load<X>>) -> (Told, Option<Load<X>>)
        ensures turns { TurnsSo K.number K.cancels K.says K.written O.told self.old lane call.now
            put result.0 result.1 self.new }
        ensures notes { NotesSo self.old lane call.now result.0 self.new }
    {
        let (reply, good) = self.make(lane, call, put);
        self.signs.note(lane, is_idle(&reply));
        (reply, good)
    }

    /// Of the lanes that rest: one for a request that waits; the reader, once there is room again;
    /// all, once no more comes or all is over.
    fn stirs(&self, _lane: u32, _reply: &Told) -> u128 {
        self.signs.named(self.is_over(), self.rows.waiting.len())
    }

    fn owed(&self) -> u64 {
        0
    }
}
