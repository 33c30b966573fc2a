//! Reads the input from its start to its end.
ghost use Rattle.std.specs.Prelude.{◌≡◌, [], IfOk};
ghost use Rattle.seat_desk.specs.Passes.{IsRootOf, IsPassOf, joined};
ghost use Rattle.message_box.specs.States.{reader, taker, first};
ghost use Rattle.message_box.specs.Sides.{state_at};
ghost use Rattle.json_framing.specs.Cutter.{form_of};
ghost use Rattle.message_service.specs.Serves.{Serves};

use crate::backlog::Backlog;
use crate::both::{Callers, run_both};
use crate::lanes::Hall;
use crate::start::Start;
use lane_bells::Bells;
use lane_threads::Caller;
use message_box::{Mailbox, READER, TAKER, settle};
use message_service::{Finish, Service};
use outside::{Shop, Sink, Tap};
use plain_values::NoMemory;
use seat_desk::{Desk, Pass, Root};
use std::alloc::Global;
use std::sync::Wait;
use std::thread::Threads;

/// The number of lanes.
const LANES: u32 = 2;

/// Reads messages on a separate thread, and at the same time answers those that have arrived, one after
/// another. It stops at the end of the input or at bytes that spell no message.
///
/// Returns the cause of its end. Until then each message is handled by its service, in order. The service
/// sees all messages that follow it and had been read by its turn. Nothing else is written, and no other
/// call is made. It returns once the reader has ended too, and the reader may wait for the input.
///
/// If no thread can be started, it ends with `NoMemory` after ten seconds, and has read nothing and
/// answered nothing.
pub fn serve_ahead<
    T: Tap + Send,
    O: Sink + Send,
    S: Shop + Send,
    V: Service<S> + Sync,
    R: Threads + Wait + Sync,
>(rt: &R, alloc: Global, service: &V, input: &mut T, out: &mut O, shop: &mut S) -> Finish
where
    V::Message: Send,
    ensures { Serves (form_of V.framing) V.spells V.answers result []
        (record { input = T.told input.old; out = O.told out.old; shop = S.told shop.old })
        (record { input = T.told input.new; out = O.told out.new; shop = S.told shop.new }) }
{
    let Ok(bells) = Bells::new(alloc, LANES) else {
        return Finish::NoMemory;
    };
    let Ok((desk, root, reading, taking)) = open(rt, alloc) else {
        return Finish::NoMemory;
    };
    let backlog = Backlog::new();
    let start = Start::new();
    let hall = Hall {
        alloc,
        service,
        bells: &bells,
        backlog: &backlog,
        start: &start,
    };
    let mut callers = Callers {
        reading: Caller::new(&desk, &bells, reading),
        working: Caller::new(&desk, &bells, taking),
    };
    let (_, finish) = run_both(rt, &hall, &mut callers, input, out, shop);
    let Callers { reading, working } = callers;
    let reading = reading.into_pass();
    let working = working.into_pass();
    settle(rt, desk, root, reading, working);
    finish
}

/// A desk, its root, and the passes of the reader and the taker.
type Opened<X> = (
    Desk<Mailbox<X>>,
    Root<Mailbox<X>>,
    Pass<Mailbox<X>>,
    Pass<Mailbox<X>>,
);

// Opens a desk over an empty mailbox. Nothing was put in or taken yet.
fn open<X: Drop, R>(rt: &R, alloc: Global) -> Result<Opened<X>, NoMemory>
    ensures desk { IfOk result (λ d. IsRootOf d.0 d.1 × IsPassOf d.0 d.2 × IsPassOf d.0 d.3) }
    ensures root { IfOk result (λ d. (d.1.made ≡ 2) × (joined d.1 ≡ [])) }
    ensures lanes { IfOk result (λ d. (d.2.lane ≡ reader) × (d.3.lane ≡ taker)) }
    ensures fresh { IfOk result (λ d. (state_at d.2 ≡ first) × (state_at d.3 ≡ first)) }
{
    let (desk, mut root) = Desk::new(alloc, Mailbox::new(alloc))?;
    let reading = desk.split(rt, &mut root);
    let taking = desk.split(rt, &mut root);
    Ok((desk, root, reading, taking))
}
