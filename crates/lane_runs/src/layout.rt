//! Everything that a run leaves, arranged by number.
ghost use Rattle.std.specs.Prelude.{◌≡◌, length, map, Some};
ghost use Rattle.lane_runs.specs.Layout.{AllThere, IsLaid, MayBeLaid};
ghost use Rattle.lane_runs.specs.Blanks.{HasRoom};

use crate::berths::lay_berths;
use crate::blank::Blank;
use crate::halves::EndedLine;
use crate::history::{has_halt, lines_ordered};
use crate::lines::number_lines;
use exec_journal::{Entry, Journal};
use lane_threads::Either;
use outside::Berth;
use proxy_lane::ProxyLeft;
use proxy_laws::EndedFeed;
use std::collections::VecDeque;
use tap_lane::TapLeft;

/// The result of a run of lanes, arranged by number. The type has no bounds: [`LaidOut`] names it with the
/// types of the outside.
#[derive(Drop)]
pub struct Laid<B, D, T, K, P> {
    /// Every call that changed the state, with its reply, in order.
    pub journal: Journal,
    /// The berths, by their numbers.
    pub berths: Vec<B>,
    /// The lines, one for each launch that was ordered, by their numbers.
    pub lines: Vec<EndedLine<D, T, K>>,
    /// For each berth the line that was started but not reported, if there is one. Its lane halted,
    /// because memory for the report ran out. The line's child was killed, and its tap is gone.
    pub unsaid: Vec<Option<EndedFeed<D, K>>>,
    /// The places, by the numbers of their actions.
    pub places: Vec<P>,
    /// True if some lane has halted.
    pub halted: bool,
}

/// The result of a run of lanes, with the types of the outside.
pub type LaidOut<B, P> = Laid<B, <B as Berth>::Feed, <B as Berth>::Tap, <B as Berth>::Child, P>;

/// Arranges by number what the lanes leave, and the taps and the places that were on the shelf. It uses
/// the room in `blank` and takes no memory.
pub(crate) fn lay_out<B: Drop, D: Drop, T: Drop, K: Drop, P: Drop>(
    blank: Blank<B, D, T, K, P>,
    history: Vec<Entry>,
    ends: Vec<Either<ProxyLeft<B, D, K>, TapLeft<T>>>,
    taps: Vec<Option<T>>,
    places: Vec<Option<P>>,
) -> Laid<B, D, T, K, P>
    requires { MayBeLaid history.items ends.items taps.items places.items blank }
    ensures { IsLaid history.items ends.items taps.items places.items result }
{
    let Blank {
        mut berths,
        mut lines,
        mut unsaid,
        places: kept,
    } = blank;
    let journal = Journal::of(history);
    let halted = has_halt(journal.entries());
    number_lines(&mut lines, lines_ordered(journal.entries()));
    lay_berths(ends, taps, &mut berths, &mut unsaid, &mut lines);
    let places = all_there(places, kept);
    Laid {
        journal,
        berths,
        lines,
        unsaid,
        places,
        halted,
    }
}

/// Returns the places in these slots, which are all filled. It uses the room in `kept` and takes no memory.
pub(crate) fn all_there<P: Drop>(slots: Vec<Option<P>>, kept: Vec<P>) -> Vec<P>
    requires there { AllThere slots.items }
    requires room { HasRoom (length slots.items) kept }
    ensures { slots.items ≡ map Some result.items }
{
    let mut places = kept;
    let mut rest = VecDeque::from_vec(slots);
    while let Some(slot) = rest.pop_front() {
        let Some(place) = slot else { unreachable!() };
        places.push_reserved(place);
    }
    places
}
