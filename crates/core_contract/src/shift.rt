//! The effect of a core's call on the bench's shelf.
ghost use Rattle.std.specs.Prelude.{◌≡◌};
ghost use Rattle.core_contract.specs.Moves.{move_in, tap_move, proxy_move, shift_for};

use exec_journal::{Call, Found, Reply, Started};

/// The object that is put onto the shelf, or taken off it, with a call and its reply.
#[derive(Clone, Copy, PartialEq, Eq)]
pub enum Shift {
    /// The child and the tap of a line that was started are put there.
    PutLine,
    /// The berth's tap is taken.
    TakeTap,
    /// The berth's child is taken, if there is one.
    TakeChild,
    /// The place of this action is taken.
    TakePlace(u32),
    /// The place of this action is put back.
    PutPlace(u32),
    Nothing,
}

/// Returns the call's shift. A tap lane moves only taps; every other move is a proxy lane's.
pub fn shift_of(lane: u32, call: &Call, reply: &Reply) -> Shift
    ensures { result ≡ shift_for (move_in lane call.now reply.now) }
{
    if lane % 2 == 0 {
        proxy_shift(call, reply)
    } else {
        tap_shift(call, reply)
    }
}

fn tap_shift(call: &Call, reply: &Reply) -> Shift
    ensures { result ≡ shift_for (tap_move call.now reply.now) }
{
    match (call, reply) {
        (Call::Take, Reply::Line { .. }) => Shift::TakeTap,
        _ => Shift::Nothing,
    }
}

fn proxy_shift(call: &Call, reply: &Reply) -> Shift
    ensures { result ≡ shift_for (proxy_move call.now reply.now) }
{
    match (call, reply) {
        (
            Call::Launched {
                how: Started::Done,
                ..
            },
            Reply::Noted,
        ) => Shift::PutLine,
        (Call::Ask, Reply::Kill { .. }) => Shift::TakeChild,
        (Call::Halt, Reply::Noted) => Shift::TakeChild,
        (
            Call::Claim {
                action,
                found: Found::Files(_),
                ..
            },
            Reply::Granted,
        ) => Shift::TakePlace(*action),
        (Call::Committed { action, .. }, Reply::Noted) => Shift::PutPlace(*action),
        _ => Shift::Nothing,
    }
}
