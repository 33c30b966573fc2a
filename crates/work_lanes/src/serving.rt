// From the start of the input to its end.
ghost use Rattle.std.specs.Prelude.{◌≡◌, ◌∷◌, ◌≤◌, ◌+◌, [], length, vec_capacity, IfOk, IfErr};
ghost use Rattle.json_framing.specs.Cutter.{form_of};
ghost use Rattle.lane_threads.specs.declared.pair.Either.TheVariants.{First};
ghost use Rattle.message_service.specs.Ends.{PutAll};
ghost use Rattle.work_lanes.specs.Serves.{AreHandlers, IsDepth, ServesBy, told_by};
ghost use Rattle.work_lanes.specs.Crews.{AreLanes, HasReaderFirst, finish_by, handlers_in};

use crate::answerer::Answerer;
use crate::handling::Hands;
use crate::reading::{Reader, ReaderLeft};
use crate::unbegun::{Unbegun, unbegun_of};
use lane_threads::{Crew, Either, run_crew};
use message_service::Finish;
use outside::{Sink, Tap};
use plain_values::NoMemory;
use std::alloc::Global;
use std::collections::VecDeque;
use std::sync::{Arc, Wait};
use std::thread::Threads;
use work_queue::{CancelFlag, Flags, How, WorkQueue};

/// Where requests come from, and where responses go.
#[derive(Drop)]
pub struct Streams<T, O> {
    pub tap: T,
    pub sink: O,
}

/// What the lanes leave.
#[derive(Drop)]
pub struct LanesEnded<T, O, H> {
    /// Why all is over.
    pub finish: Finish,
    pub tap: T,
    pub sink: O,
    /// The handlers, in their order.
    pub handlers: Vec<H>,
}

/// Reads requests on one thread, and lets each handler answer them on a thread of its own, up to the
/// end of the input or to what spells no request. So many requests may wait; while they do nothing
/// more is read. It answers with the cause of its end.
///
/// Whatever lanes do first: each request that doesn't cancel others is answered at most once, and
/// exactly once unless memory ran out or putting failed. It is given up only where a request that
/// cancels its number stands behind it. Responses are put whole, one after another, and nothing else
/// is put but, where putting failed, a front of one. Whenever a lane takes a request, and in the end,
/// no more wait than `depth` and the requests of one read, of which there are 65,536 at most.
///
/// The handlers come back. Each was asked for what its lane took, the earliest first, each request
/// once; not for what was cancelled by then, and for nothing else.
///
/// # Errors
///
/// What it was given, where memory ran out or a thread couldn't be started before the first lane began:
/// the input and the handlers as they were, and the sink, to which nothing was put.
pub fn run_lanes<
    T: Tap + Send,
    O: Sink + Send,
    X: Drop + Send,
    Y: Drop + Send,
    H: Answerer<X, Y> + Send,
    R: Threads + Wait + Sync,
>(
    rt: &R,
    alloc: Global,
    streams: Streams<T, O>,
    depth: u32,
    handlers: Vec<H>,
) -> Result<LanesEnded<T, O, H>, Unbegun<T, O, H>>
    requires handlers { AreHandlers (length handlers.items) }
    requires depth { IsDepth depth }
    ensures serves { IfOk result (λ s. ServesBy H.number H.cancels H.says H.written
        (form_of H.framing) H.spells H.answers H.breaks depth s.finish [] handlers.items
        s.handlers.items
        (told_by T.told O.told streams.tap streams.sink) (told_by T.told O.told s.tap s.sink)) }
    ensures back { IfErr result (λ u. (u.streams.tap ≡ streams.tap)
        × (u.handlers.items ≡ handlers.items)
        × PutAll [] (O.told streams.sink) (O.told u.streams.sink)) }
{
    let Ok(room) = room_for(alloc, handlers.len()) else {
        return Err(Unbegun { streams, handlers });
    };
    let Room {
        shared,
        flags,
        lanes,
        back,
    } = room;
    let Streams { tap, sink } = streams;
    let lanes = lanes_of(alloc, flags, lanes, tap, depth, handlers);
    let queue: WorkQueue<O, X, Y, H> = WorkQueue::new(alloc, sink, shared);
    let crew = match run_crew(rt, alloc, queue, lanes) {
        Ok(crew) => crew,
        Err(unstarted) => return Err(unbegun_of(unstarted, back)),
    };
    let Crew { machine, ends, .. } = crew;
    let mut ends = VecDeque::from_vec(ends);
    let ReaderLeft { input, finish } = reader_left(&mut ends);
    let handlers = handlers_left(ends, back);
    let (sink, how) = machine.into_end();
    let finish = finish_by(how, finish);
    Ok(LanesEnded {
        finish,
        tap: input,
        sink,
        handlers,
    })
}

/// What the lane that reads ends with, or one that answers.
type WorkEnd<T, H> = Either<ReaderLeft<T>, H>;

// What the reader's lane has left: it is the first of all.
fn reader_left<T: Drop, H: Drop>(ends: &mut VecDeque<WorkEnd<T, H>>) -> ReaderLeft<T>
    requires { HasReaderFirst ends.old.items }
    ensures { ends.old.items ≡ First result ∷ ends.new.items }
{
    match ends.pop_front() {
        Some(Either::First(left)) => left,
        Some(Either::Second(_)) | None => unreachable!(),
    }
}

// The handlers that the other lanes have left, in this room.
fn handlers_left<T: Drop, H: Drop>(ends: VecDeque<WorkEnd<T, H>>, room: Vec<H>) -> Vec<H>
    requires empty { room.items ≡ [] }
    requires room { length ends.items ≤ vec_capacity room }
    ensures { result.items ≡ handlers_in ends.items }
{
    let mut handlers = room;
    let mut rest = ends;
    while let Some(end) = rest.pop_front() {
        match end {
            Either::First(reader) => drop(reader),
            Either::Second(handler) => handlers.push_reserved(handler),
        }
    }
    handlers
}

// Why all is over whose queue and whose reader have ended so.
fn finish_by(how: How, finish: Finish) -> Finish
    ensures { result ≡ finish_by how finish }
{
    match how {
        How::Failed => Finish::OutputFault,
        How::Halted => Finish::NoMemory,
        How::Whole => finish,
    }
}

/// The lane that reads, or one that answers.
pub(crate) type WorkLane<T, H> = Either<Reader<T>, Hands<H>>;

// All that needs memory: what the lanes share, a flag for each that answers, and room for the lanes, and
// for the handlers that come back.
struct Room<T, H> {
    shared: Arc<Flags>,
    flags: Vec<CancelFlag>,
    lanes: Vec<WorkLane<T, H>>,
    back: Vec<H>,
}

fn room_for<T: Drop, H: Drop>(alloc: Global, count: usize) -> Result<Room<T, H>, NoMemory>
    requires { AreHandlers count }
    ensures flags { IfOk result (λ r. length r.flags.items ≡ count) }
    ensures lanes { IfOk result (λ r. (r.lanes.items ≡ []) × (count + 1 ≤ vec_capacity r.lanes)) }
    ensures back { IfOk result (λ r. (r.back.items ≡ []) × (count ≤ vec_capacity r.back)) }
{
    let shared = Arc::new(alloc, Flags::new(alloc, 1 + count as u32)?)?;
    let flags = flags_of(alloc, &shared, count as u32)?;
    Ok(Room {
        shared,
        flags,
        lanes: Vec::with_capacity(alloc, count + 1)?,
        back: Vec::with_capacity(alloc, count)?,
    })
}

// The flags of so many lanes, the first of which has the number 1.
fn flags_of(alloc: Global, shared: &Arc<Flags>, count: u32) -> Result<Vec<CancelFlag>, NoMemory>
    requires { AreHandlers count }
    ensures { IfOk result (λ flags. length flags.items ≡ count) }
{
    let mut flags = Vec::with_capacity(alloc, count as usize)?;
    for before in 0..count {
        flags.push_reserved(CancelFlag::of(Arc::try_clone(shared)?, 1 + before));
    }
    Ok(flags)
}

// The reader's lane, and one for each handler, in this room. It takes no memory.
fn lanes_of<T: Drop, H: Drop>(
    alloc: Global,
    flags: Vec<CancelFlag>,
    room: Vec<WorkLane<T, H>>,
    input: T,
    depth: u32,
    handlers: Vec<H>,
) -> Vec<WorkLane<T, H>>
    requires handlers { AreHandlers (length handlers.items) }
    requires flags { length flags.items ≡ length handlers.items }
    requires empty { room.items ≡ [] }
    requires room { length handlers.items + 1 ≤ vec_capacity room }
    ensures { AreLanes input depth handlers.items result.items }
{
    let mut lanes = room;
    lanes.push_reserved(Either::First(Reader {
        alloc,
        input,
        depth,
    }));
    let mut flags = VecDeque::from_vec(flags);
    let mut rest = VecDeque::from_vec(handlers);
    let mut number = 1;
    while let Some(handler) = rest.pop_front() {
        let Some(hint) = flags.pop_front() else {
            unreachable!()
        };
        lanes.push_reserved(Either::Second(Hands {
            alloc,
            number,
            handler,
            hint,
        }));
        number += 1;
    }
    lanes
}
