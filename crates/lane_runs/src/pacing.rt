//! The lane that makes Ticks, before it runs and after.
ghost use Rattle.std.specs.Prelude.{◌≡◌};
ghost use Rattle.lane_runs.specs.Paced.{pacer_back, pacer_left, seat_for};

use tick_lane::{TickLeft, TickStart};

/// Returns the proxy lane of this berth with the pacer, if there is a pacer.
pub(crate) fn seat_for<W: Drop>(berth: u32, pacer: Option<W>) -> Option<TickStart<W>>
    ensures { result ≡ seat_for berth pacer }
{
    match pacer {
        Some(pacer) => Some(TickStart { berth, pacer }),
        None => None,
    }
}

/// Returns the pacer of the lane that has run.
pub(crate) fn pacer_left<W: Drop>(left: Option<TickLeft<W>>) -> Option<W>
    ensures { result ≡ pacer_left left }
{
    match left {
        Some(TickLeft { pacer, end: _ }) => Some(pacer),
        None => None,
    }
}

/// Returns the pacer of a lane that has not run.
pub(crate) fn pacer_back<W: Drop>(seat: Option<TickStart<W>>) -> Option<W>
    ensures { result ≡ pacer_back seat }
{
    match seat {
        Some(TickStart { berth: _, pacer }) => Some(pacer),
        None => None,
    }
}
