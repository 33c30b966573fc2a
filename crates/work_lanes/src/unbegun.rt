// What lanes were given that have not begun.
ghost use Rattle.std.specs.Prelude.{◌≡◌, ◌∷◌, ◌≤◌, ◌+◌, ℕ, List, [], length, vec_capacity};
ghost use Rattle.lane_threads.specs.declared.pair.Either.TheVariants.{First};
ghost use Rattle.work_lanes.specs.Crews.{AreLanes, HasReaderLane, handlers_held};

use crate::handling::Hands;
use crate::reading::Reader;
use crate::serving::{Streams, WorkLane};
use lane_threads::{Either, Unstarted};
use outside::Sink;
use std::collections::VecDeque;
use work_queue::{Kind, WorkQueue};

/// What the lanes were given, where none has begun.
#[derive(Drop)]
pub struct Unbegun<T, O, H> {
    pub streams: Streams<T, O>,
    /// The handlers, in their order.
    pub handlers: Vec<H>,
}

// What these lanes were given, with the handlers in this room. It takes no memory.
pub(crate) fn unbegun_of<T: Drop, O: Sink, X: Drop, Y: Drop, H: Kind<X, Y> + Drop>(
    unstarted: Unstarted<WorkQueue<O, X, Y, H>, WorkLane<T, H>>,
    room: Vec<H>,
) -> Unbegun<T, O, H>
    requires lanes { HasReaderLane unstarted.lanes.items }
    requires empty { room.items ≡ [] }
    requires room { length unstarted.lanes.items ≤ vec_capacity room + 1 }
    ensures lanes { (input : T) → (depth : ℕ) → (handlers : List H)
        → AreLanes input depth handlers unstarted.lanes.items
        → (result.streams.tap ≡ input) × (result.handlers.items ≡ handlers) }
    ensures sink { result.streams.sink ≡ unstarted.machine.outlet.sink }
{
    let Unstarted { machine, lanes, .. } = unstarted;
    let mut lanes = VecDeque::from_vec(lanes);
    let Reader { input, .. } = reader_of(&mut lanes);
    let handlers = handlers_of(lanes, room);
    let (sink, _) = machine.into_end();
    Unbegun {
        streams: Streams { tap: input, sink },
        handlers,
    }
}

// The reader's lane, which is the first of all.
fn reader_of<T: Drop, H: Drop>(lanes: &mut VecDeque<WorkLane<T, H>>) -> Reader<T>
    requires { HasReaderLane lanes.old.items }
    ensures { lanes.old.items ≡ First result ∷ lanes.new.items }
{
    match lanes.pop_front() {
        Some(Either::First(reader)) => reader,
        Some(Either::Second(_)) | None => unreachable!(),
    }
}

// The handlers of the other lanes, in this room.
fn handlers_of<T: Drop, H: Drop>(lanes: VecDeque<WorkLane<T, H>>, room: Vec<H>) -> Vec<H>
    requires empty { room.items ≡ [] }
    requires room { length lanes.items ≤ vec_capacity room }
    ensures { result.items ≡ handlers_held lanes.items }
{
    let mut handlers = room;
    let mut rest = lanes;
    while let Some(lane) = rest.pop_front() {
        match lane {
            Either::First(reader) => drop(reader),
            Either::Second(hands) => handlers.push_reserved(hands.into_handler()),
        }
    }
    handlers
}
