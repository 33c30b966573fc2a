//! The lanes of all berths, in the order of their numbers.
ghost use Rattle.std.specs.Prelude.{◌≡◌, ◌≤◌, ◌+◌, ◌*◌, [], ◌++◌, length, vec_len, vec_capacity};
ghost use Rattle.lane_runs.specs.Seats.{AreSeats, HasSeats, berths_in};

use crate::means::AllMeans;
use crate::proxies::ProxyStart;
use lane_threads::Either;
use run_plan::Speech;
use std::alloc::Global;
use std::collections::VecDeque;
use tap_lane::TapStart;

/// A lane of a berth: its proxy lane, or its tap lane.
pub(crate) type BerthLane<'a, B> = Either<ProxyStart<'a, B>, TapStart>;

/// Returns the lanes of the berths, in order: for each berth its proxy lane and then its tap lane. Lane
/// `2w` is the proxy lane of the berth `w`, and lane `2w + 1` its tap lane. It uses the space in `room`
/// and takes no memory.
pub(crate) fn lanes_of<'a, B: Drop>(
    alloc: Global,
    berths: Vec<B>,
    means: &AllMeans<'a>,
    room: Vec<BerthLane<'a, B>>,
) -> Vec<BerthLane<'a, B>>
    requires many { length berths.items ≡ length means.now.speeches.now }
    requires few { length means.now.speeches.now ≤ 128 }
    requires empty { room.items ≡ [] }
    requires room { vec_len room + 2 * length means.now.speeches.now ≤ vec_capacity room }
    ensures { AreSeats means.now.settings.now means.now.actions.now 0 berths.items
        means.now.speeches.now result.items }
{
    let mut lanes = room;
    let mut rest = VecDeque::from_vec(berths);
    let mut number = 0;
    for speech in means.speeches {
        let Some(berth) = rest.pop_front() else {
            unreachable!()
        };
        push_seats(alloc, &mut lanes, berth, number, *speech, means);
        number += 1;
    }
    lanes
}

fn push_seats<'a, B: Drop>(
    alloc: Global,
    lanes: &mut Vec<BerthLane<'a, B>>,
    berth: B,
    number: u32,
    speech: Speech,
    means: &AllMeans<'a>,
)
    requires room { vec_len lanes.old + 2 ≤ vec_capacity lanes.old }
    ensures seats { HasSeats means.now.settings.now means.now.actions.now number berth speech
        lanes.old.items lanes.new.items }
    ensures len { vec_len lanes.new ≡ vec_len lanes.old + 2 }
    ensures capacity { vec_capacity lanes.new ≡ vec_capacity lanes.old }
{
    let proxy = ProxyStart {
        alloc,
        berth,
        number,
        speech,
        settings: means.settings,
        actions: means.actions,
    };
    let heard = TapStart {
        alloc,
        berth: number,
        speech: proxy.speech,
    };
    lanes.push_reserved(Either::First(proxy));
    lanes.push_reserved(Either::Second(heard));
}

/// Puts the berths of lanes that have not run into `berths`, which has room for them.
pub(crate) fn berths_of<B: Drop>(lanes: Vec<BerthLane<'_, B>>, berths: &mut Vec<B>)
    requires { vec_len berths.old + length (berths_in lanes.items) ≤ vec_capacity berths.old }
    ensures { berths.new.items ≡ berths.old.items ++ berths_in lanes.entry.items }
{
    let mut rest = VecDeque::from_vec(lanes);
    while let Some(lane) = rest.pop_front() {
        match lane {
            Either::First(seat) => berths.push_reserved(seat.berth),
            Either::Second(_) => {}
        }
    }
}
