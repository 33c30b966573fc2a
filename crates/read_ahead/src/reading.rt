//! The reader: it reads from the start of the input to its end.
ghost use Rattle.std.specs.Prelude.{◌≡◌, ◌<◌, ◌++◌, [], None, List, ℕ, IfErr};
ghost use Rattle.seat_desk.specs.Passes.{IsSamePass};
ghost use Rattle.json_framing.specs.Cutter.{form_of, framing_of, held};
ghost use Rattle.message_service.specs.Stream.{Heard};
ghost use Rattle.message_box.specs.States.{reader, put_in, first};
ghost use Rattle.message_box.specs.Sides.{state_at, ReaderStands};
ghost use Rattle.read_ahead.specs.Reading.{HasRead, HandsOn, BreaksOff};

use crate::lanes::Hall;
use json_framing::Cutter;
use lane_threads::Caller;
use message_box::{Mailbox, Offered, READER, Stop, await_room, put};
use message_service::{Service, hear_piece};
use outside::{PIECE, READS, Shop, Taken, Tap};
use plain_values::NoMemory;
use std::alloc::Global;
use std::sync::Wait;
use wire_fields::LARGEST;

/// The reason why no more is read.
#[derive(Clone, Copy, PartialEq, Eq)]
pub(crate) enum Pause {
    /// The reader has stopped for this reason.
    Stopped(Stop),
    /// The taker has left.
    Gone,
}

/// Reads the available input, and puts its messages into the mailbox. It stops at the end of the input, at
/// bytes that spell no message, or once the taker has left.
pub(crate) fn read_all<T: Tap, S: Shop, V: Service<S>, R: Wait>(
    rt: &R,
    hall: &Hall<'_, V>,
    caller: &mut Caller<Mailbox<V::Message>>,
    input: &mut T,
) -> Pause
    requires lane { caller.old.pass.lane ≡ reader }
    requires bell { reader < hall.now.bells.now }
    requires fresh { state_at caller.old.pass ≡ first }
    ensures same { IsSamePass caller.old.pass caller.new.pass }
    ensures open { (state_at caller.new.pass).stop ≡ None }
    ensures read { HasRead (form_of V.framing) V.spells result
        (put_in (state_at caller.new.pass)) (T.told input.old) (T.told input.new) }
{
    let mut cutter = Cutter::new(hall.alloc, hall.service.framing(), LARGEST);
    let mut piece = [0u8; PIECE];
    for _ in 0..READS {
        if let Offered::Gone = await_ease(rt, hall, caller) {
            return Pause::Gone;
        }
        match input.read(&mut piece) {
            Taken::Bytes(count) => {
                let handed = hand_on(rt, hall, &mut cutter, caller, &piece[..count]);
                if let Err(pause) = handed {
                    return pause;
                }
            }
            Taken::End => return Pause::Stopped(Stop::AtEnd),
            Taken::Failed => return Pause::Stopped(Stop::InputFault),
        }
    }
    Pause::Stopped(Stop::TooLong)
}

// Waits until there is room for more and the worker has few messages left, or until the taker has left.
fn await_ease<V, X: Drop, R: Wait>(
    rt: &R,
    hall: &Hall<'_, V>,
    caller: &mut Caller<Mailbox<X>>,
) -> Offered
    requires lane { caller.old.pass.lane ≡ reader }
    requires bell { reader < hall.now.bells.now }
    ensures same { IsSamePass caller.old.pass caller.new.pass }
    ensures stands { ReaderStands (state_at caller.old.pass) (state_at caller.new.pass) }
{
    for _ in rt.forever() {
        match await_room(rt, hall.bells, caller) {
            Offered::Done if hall.backlog.is_long() => hall.bells.rest(rt, READER),
            offered => return offered,
        }
    }
    unreachable!()
}

// Reads one more piece, and puts in the messages that are complete with it.
fn hand_on<S: Shop, V: Service<S>, R: Wait>(
    rt: &R,
    hall: &Hall<'_, V>,
    cutter: &mut Cutter,
    caller: &mut Caller<Mailbox<V::Message>>,
    piece: &[u8],
) -> Result<(), Pause>
    requires lane { caller.old.pass.lane ≡ reader }
    requires reads { (state_at caller.old.pass).stop ≡ None }
    requires framing { framing_of cutter.old ≡ V.framing }
    ensures framing { framing_of cutter.new ≡ V.framing }
    ensures same { IsSamePass caller.old.pass caller.new.pass }
    ensures open { (state_at caller.new.pass).stop ≡ None }
    ensures hands { (fed : List ℕ)
        → Heard (form_of V.framing) V.spells fed (put_in (state_at caller.old.pass))
        (held cutter.old)
        → HandsOn (form_of V.framing) V.spells result (fed ++ piece.now)
        (put_in (state_at caller.new.pass)) (held cutter.new) }
    ensures err { IfErr result BreaksOff }
{
    let come = match hear_piece(rt, hall.alloc, hall.service, cutter, piece) {
        Ok(come) => come,
        Err(NoMemory) => return Err(Pause::Stopped(Stop::NoMemory)),
    };
    let goes_on = come.goes_on;
    match put(rt, caller, come.messages) {
        Ok(Offered::Done) if goes_on => Ok(()),
        Ok(Offered::Done) => Err(Pause::Stopped(Stop::BadInput)),
        Ok(Offered::Gone) => Err(Pause::Gone),
        Err(NoMemory) => Err(Pause::Stopped(Stop::NoMemory)),
    }
}
