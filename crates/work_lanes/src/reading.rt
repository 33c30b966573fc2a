// The lane that reads requests.
ghost use Rattle.std.specs.Prelude.{◌≡◌, ◌<◌, ◌≤◌, ◌+◌, ◌++◌, [], List, ℕ, max, IfOk, IfErr};
ghost use Rattle.seat_desk.specs.Passes.{IsPassOf, IsSamePass};
ghost use Rattle.json_framing.specs.Cutter.{form_of, framing_of, held};
ghost use Rattle.lane_threads.specs.Lanes.{IsFresh};
ghost use Rattle.message_service.specs.Stream.{Heard};
ghost use Rattle.work_queue.specs.States.{reader};
ghost use Rattle.work_lanes.specs.Calls.{heard_at, read_at, most_at, HearsMore};
ghost use Rattle.work_lanes.specs.Serves.{HasRead, piece};
ghost use Rattle.work_lanes.specs.Reading.{GivesNext, HandsOn, BreaksOff};

use crate::answerer::Answerer;
use crate::calls::{await_room, close, halt_reading, hear};
use delimited_framing::Next;
use json_framing::Cutter;
use lane_bells::Bells;
use lane_threads::{Caller, Lane};
use message_service::Finish;
use outside::{PIECE, READS, Sink, Taken, Tap};
use plain_values::NoMemory;
use seat_desk::{Desk, Pass};
use std::alloc::Global;
use std::sync::Wait;
use std::thread::Threads;
use wire_fields::LARGEST;
use work_queue::{READER, WorkQueue};

/// The lane that reads requests.
#[derive(Drop)]
pub(crate) struct Reader<T> {
    pub(crate) alloc: Global,
    pub(crate) input: T,
    /// So many requests may wait.
    pub(crate) depth: u32,
}

/// What it ends with: its input, and why no more is read.
#[derive(Drop)]
pub(crate) struct ReaderLeft<T> {
    pub(crate) input: T,
    pub(crate) finish: Finish,
}

impl<T: Tap, O: Sink, X: Drop, Y: Drop, H: Answerer<X, Y>> Lane<
    Desk<WorkQueue<O, X, Y, H>>,
    Pass<WorkQueue<O, X, Y, H>>,
> for Reader<T> {
    type End = ReaderLeft<T>;

    ghost may_run = { λ self desk bells pass. IsPassOf desk pass × IsFresh pass
        × (pass.lane ≡ reader) × (pass.lane < bells) };

    ghost has_run = { λ self pass end after. IsSamePass pass after
        × HasRead (form_of H.framing) H.spells end.finish (heard_at H.number H.cancels after)
        (T.told self.input) (T.told end.input)
        × (most_at H.number H.cancels after ≤ self.depth + piece) };

    fn run<R: Threads + Wait + Sync>(
        self,
        rt: &R,
        desk: &Desk<WorkQueue<O, X, Y, H>>,
        bells: &Bells,
        pass: Pass<WorkQueue<O, X, Y, H>>,
    ) -> (ReaderLeft<T>, Pass<WorkQueue<O, X, Y, H>>) {
        let Reader {
            alloc,
            input,
            depth,
        } = self;
        let mut input = input;
        let mut caller = Caller::new(desk, bells, pass);
        let finish = read_all(rt, alloc, &mut caller, &mut input, depth);
        match finish {
            Finish::NoMemory => halt_reading(rt, &mut caller),
            _ => close(rt, &mut caller),
        }
        (ReaderLeft { input, finish }, caller.into_pass())
    }
}

// Reads whatever comes, and lets the queue hear the requests that it spells, up to the end of the
// input or to what spells none, or until all is over.
fn read_all<T: Tap, O: Sink, X: Drop, Y: Drop, H: Answerer<X, Y>, R: Wait>(
    rt: &R,
    alloc: Global,
    caller: &mut Caller<WorkQueue<O, X, Y, H>>,
    input: &mut T,
    depth: u32,
) -> Finish
    requires lane { caller.old.pass.lane ≡ reader }
    requires fresh { heard_at H.number H.cancels caller.old.pass ≡ [] }
    ensures same { IsSamePass caller.old.pass caller.new.pass }
    ensures read { HasRead (form_of H.framing) H.spells result
        (heard_at H.number H.cancels caller.new.pass) (T.told input.old) (T.told input.new) }
    ensures most { most_at H.number H.cancels caller.new.pass
        ≤ max (most_at H.number H.cancels caller.old.pass) (depth + piece) }
{
    let mut cutter = Cutter::new(alloc, H::framing(), LARGEST);
    let mut piece = [0u8; PIECE];
    for _ in 0..READS {
        match await_room(rt, caller, depth) {
            Ok(true) => {}
            Ok(false) | Err(_) => return Finish::NoMemory,
        }
        match input.read(&mut piece) {
            Taken::Bytes(count) => {
                if let Err(finish) = hand_on(rt, alloc, caller, &mut cutter, &piece[..count]) {
                    return finish;
                }
            }
            Taken::End => return Finish::AtEnd,
            Taken::Failed => return Finish::InputFault,
        }
    }
    Finish::TooLong
}

// Takes one piece more, and lets the queue hear the requests that have come with it.
fn hand_on<O: Sink, X: Drop, Y: Drop, H: Answerer<X, Y>, R: Wait>(
    rt: &R,
    alloc: Global,
    caller: &mut Caller<WorkQueue<O, X, Y, H>>,
    cutter: &mut Cutter,
    piece: &[u8],
) -> Result<(), Finish>
    requires lane { caller.old.pass.lane ≡ reader }
    requires framing { framing_of cutter.old ≡ H.framing }
    ensures framing { framing_of cutter.new ≡ H.framing }
    ensures same { IsSamePass caller.old.pass caller.new.pass }
    ensures hands { (fed : List ℕ)
        → Heard (form_of H.framing) H.spells fed (heard_at H.number H.cancels caller.old.pass)
        (held cutter.old)
        → HandsOn (form_of H.framing) H.spells result (fed ++ piece.now)
        (heard_at H.number H.cancels caller.new.pass) (held cutter.new) }
    ensures more { HearsMore (read_at H.number H.cancels caller.old.pass)
        (read_at H.number H.cancels caller.new.pass) }
    ensures err { IfErr result BreaksOff }
{
    let Ok(()) = cutter.feed(piece) else {
        return Err(Finish::NoMemory);
    };
    hear_all(rt, alloc, caller, cutter)
}

// Lets the queue hear the requests that have come whole.
fn hear_all<O: Sink, X: Drop, Y: Drop, H: Answerer<X, Y>, R: Wait>(
    rt: &R,
    alloc: Global,
    caller: &mut Caller<WorkQueue<O, X, Y, H>>,
    cutter: &mut Cutter,
) -> Result<(), Finish>
    requires lane { caller.old.pass.lane ≡ reader }
    requires framing { framing_of cutter.old ≡ H.framing }
    ensures framing { framing_of cutter.new ≡ H.framing }
    ensures same { IsSamePass caller.old.pass caller.new.pass }
    ensures hands { (fed : List ℕ)
        → Heard (form_of H.framing) H.spells fed (heard_at H.number H.cancels caller.old.pass)
        (held cutter.old)
        → HandsOn (form_of H.framing) H.spells result fed
        (heard_at H.number H.cancels caller.new.pass) (held cutter.new) }
    ensures more { HearsMore (read_at H.number H.cancels caller.old.pass)
        (read_at H.number H.cancels caller.new.pass) }
    ensures err { IfErr result BreaksOff }
{
    for _ in rt.forever() {
        match next_request::<X, Y, H>(alloc, cutter) {
            Ok(Come::Request(request)) => {
                let Ok(()) = hear(rt, caller, request) else {
                    return Err(Finish::NoMemory);
                };
            }
            Ok(Come::NotYet) => return Ok(()),
            Ok(Come::Broken) => return Err(Finish::BadInput),
            Err(_) => return Err(Finish::NoMemory),
        }
    }
    unreachable!()
}

/// What stands next in the input.
#[derive(Drop)]
pub(crate) enum Come<X> {
    Request(X),
    /// It may still become one.
    NotYet,
    /// It spells none.
    Broken,
}

// The next request of the cutter.
fn next_request<X, Y, H: Answerer<X, Y>>(
    alloc: Global,
    cutter: &mut Cutter,
) -> Result<Come<X>, NoMemory>
    requires framing { framing_of cutter.old ≡ H.framing }
    ensures framing { framing_of cutter.new ≡ H.framing }
    ensures next { IfOk result (λ come. (fed : List ℕ) (heard : List X)
        → Heard (form_of H.framing) H.spells fed heard (held cutter.old)
        → GivesNext (form_of H.framing) H.spells come fed heard (held cutter.new)) }
{
    match cutter.next()? {
        Next::Frame(frame) => match H::read(alloc, &frame)? {
            Some(request) => Ok(Come::Request(request)),
            None => Ok(Come::Broken),
        },
        Next::NotYet => Ok(Come::NotYet),
        Next::Bad(_) => Ok(Come::Broken),
    }
}
