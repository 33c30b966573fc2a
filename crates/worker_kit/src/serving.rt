// From the start of the input to its end.
ghost use Rattle.std.specs.Prelude.{◌≡◌, ◌≤◌, [], length, vec_capacity, IfOk, IfErr};
ghost use Rattle.json_framing.specs.Cutter.{form_of};
ghost use Rattle.message_service.specs.Ends.{PutAll};
ghost use Rattle.work_lanes.specs.Serves.{AreHandlers, IsDepth, told_by};
ghost use Rattle.worker_kit.specs.Serves.{Serves, ServesEach, finish_of, handlers_of};

use crate::end::KitEnd;
use crate::handler::{Handler, LaneHandler, Shared, Works};
use crate::speech::Speech;
use outside::{Sink, Tap};
use plain_values::NoMemory;
use std::alloc::Global;
use std::collections::VecDeque;
use std::sync::Wait;
use std::thread::Threads;
use work_lanes::{LanesEnded, Streams, Unbegun, run_lanes};

/// How many requests are handled at once, from 1 to 64, and how many may wait, from 1 to 1,024.
/// While so many wait nothing more is read; those that came whole with one read all wait.
#[derive(Clone, Copy, PartialEq, Eq)]
pub struct Size {
    pub handlers: u32,
    pub depth: u32,
}

/// What a worker leaves.
#[derive(Drop)]
pub struct KitEnded<T, O> {
    /// Why it has ended.
    pub end: KitEnd,
    pub tap: T,
    pub sink: O,
}

/// What a worker leaves that has a handler for each lane.
#[derive(Drop)]
pub struct EachEnded<T, O, H> {
    /// Why it has ended.
    pub end: KitEnd,
    pub tap: T,
    pub sink: O,
    /// The handlers, in their order.
    pub handlers: Vec<H>,
}

/// Reads requests, and lets the handler answer them, on so many threads, up to the end of the input
/// or to what spells no request. It answers with the cause of its end.
///
/// Whatever lanes do first: each request that isn't a cancel request is answered at most once,
/// under its number, and exactly once unless memory ran out or putting failed. It is said to be
/// cancelled only where a cancel request of its number stands behind it. Responses are put whole,
/// one after another, and nothing else is put but, where putting failed, a front of one. Whenever a
/// thread takes a request, and in the end, no more wait than `depth` and the requests of one read, of
/// which there are 65,536 at most.
///
/// # Errors
///
/// The streams, where memory ran out or a thread couldn't be started before the input was read: the
/// input as it was, and the sink, to which nothing was put.
pub fn serve<T: Tap + Send, O: Sink + Send, H: Handler, V: Speech + Send, R: Threads + Wait + Sync>(
    rt: &R,
    alloc: Global,
    speech: &V,
    streams: Streams<T, O>,
    size: Size,
    handler: &H,
) -> Result<KitEnded<T, O>, Streams<T, O>>
    requires handlers { AreHandlers size.handlers }
    requires depth { IsDepth size.depth }
    ensures serves { IfOk result (λ s. Serves (form_of V.framing) V.spells H.answers V.written
        size.depth (finish_of s.end) (told_by T.told O.told streams.tap streams.sink)
        (told_by T.told O.told s.tap s.sink)) }
    ensures back { IfErr result (λ s. (s.tap ≡ streams.tap)
        × PutAll [] (O.told streams.sink) (O.told s.sink)) }
{
    let Ok(handlers) = shares_of(alloc, handler, size.handlers) else {
        return Err(streams);
    };
    match serve_each(rt, alloc, speech, streams, size.depth, handlers) {
        Ok(EachEnded { end, tap, sink, .. }) => Ok(KitEnded { end, tap, sink }),
        Err(Unbegun { streams, .. }) => Err(streams),
    }
}

// So many shares in the handler.
fn shares_of<H>(alloc: Global, handler: &H, count: u32) -> Result<Vec<Shared<'_, H>>, NoMemory>
    ensures { IfOk result (λ shares. length shares.items ≡ count) }
{
    let mut shares = Vec::with_capacity(alloc, count as usize)?;
    for _ in 0..count {
        shares.push_reserved(Shared { handler });
    }
    Ok(shares)
}

/// As [`serve`], with a handler for each lane. The handlers come back: each was asked for the
/// requests that its lane took, the earliest first, each once; not for those that were cancelled by
/// then, and for nothing else.
///
/// # Errors
///
/// As of [`serve`], with the handlers as they were.
pub fn serve_each<
    T: Tap + Send,
    O: Sink + Send,
    H: LaneHandler + Send,
    V: Speech + Send,
    R: Threads + Wait + Sync,
>(
    rt: &R,
    alloc: Global,
    _speech: &V,
    streams: Streams<T, O>,
    depth: u32,
    handlers: Vec<H>,
) -> Result<EachEnded<T, O, H>, Unbegun<T, O, H>>
    requires handlers { AreHandlers (length handlers.items) }
    requires depth { IsDepth depth }
    ensures serves { IfOk result (λ s. ServesEach (form_of V.framing) V.spells H.answers H.does
        H.breaks V.written depth (finish_of s.end) handlers.items s.handlers.items
        (told_by T.told O.told streams.tap streams.sink) (told_by T.told O.told s.tap s.sink)) }
    ensures back { IfErr result (λ u. (u.streams.tap ≡ streams.tap)
        × (u.handlers.items ≡ handlers.items)
        × PutAll [] (O.told streams.sink) (O.told u.streams.sink)) }
{
    let Ok(room) = room_for(alloc, handlers.len()) else {
        return Err(Unbegun { streams, handlers });
    };
    let Room { works, back } = room;
    let works: Vec<Works<H, V>> = works_of(handlers, works);
    let ended = match run_lanes(rt, alloc, streams, depth, works) {
        Ok(ended) => ended,
        Err(unbegun) => return Err(handed_back(unbegun, back)),
    };
    let LanesEnded {
        finish,
        tap,
        sink,
        handlers: works,
    } = ended;
    Ok(EachEnded {
        end: KitEnd::of(finish),
        tap,
        sink,
        handlers: handlers_of(works, back),
    })
}

// What the lanes were given, in no speech.
fn handed_back<T: Drop, O: Drop, H: Drop, V>(
    unbegun: Unbegun<T, O, Works<H, V>>,
    room: Vec<H>,
) -> Unbegun<T, O, H>
    requires empty { room.items ≡ [] }
    requires room { length unbegun.handlers.items ≤ vec_capacity room }
    ensures { (result.streams ≡ unbegun.streams)
        × (result.handlers.items ≡ handlers_of unbegun.handlers.items) }
{
    let Unbegun {
        streams,
        handlers: works,
    } = unbegun;
    Unbegun {
        streams,
        handlers: handlers_of(works, room),
    }
}

// Room for so many handlers in a speech, and for as many that come back.
struct Room<H, V> {
    works: Vec<Works<H, V>>,
    back: Vec<H>,
}

fn room_for<H: Drop, V>(alloc: Global, count: usize) -> Result<Room<H, V>, NoMemory>
    ensures works { IfOk result (λ r. (r.works.items ≡ []) × (count ≤ vec_capacity r.works)) }
    ensures back { IfOk result (λ r. (r.back.items ≡ []) × (count ≤ vec_capacity r.back)) }
{
    Ok(Room {
        works: Vec::with_capacity(alloc, count)?,
        back: Vec::with_capacity(alloc, count)?,
    })
}

// Each handler, in a speech and in this room.
fn works_of<H: Drop, V>(handlers: Vec<H>, room: Vec<Works<H, V>>) -> Vec<Works<H, V>>
    requires empty { room.items ≡ [] }
    requires room { length handlers.items ≤ vec_capacity room }
    ensures { handlers_of result.items ≡ handlers.items }
{
    let mut works = room;
    let mut rest = VecDeque::from_vec(handlers);
    while let Some(handler) = rest.pop_front() {
        works.push_reserved(Works::of(handler));
    }
    works
}

// The handlers of these, in this room.
fn handlers_of<H: Drop, V>(works: Vec<Works<H, V>>, room: Vec<H>) -> Vec<H>
    requires empty { room.items ≡ [] }
    requires room { length works.items ≤ vec_capacity room }
    ensures { result.items ≡ handlers_of works.items }
{
    let mut handlers = room;
    let mut rest = VecDeque::from_vec(works);
    while let Some(works) = rest.pop_front() {
        handlers.push_reserved(works.into_handler());
    }
    handlers
}
