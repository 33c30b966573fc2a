//! The lines of a run, by their numbers.
ghost use Rattle.std.specs.Prelude.{◌≡◌, ◌∷◌, [], ◌<◌, ◌^◌, MatchOption, None, length, map, replicate};
ghost use Rattle.std.specs.List.{range_with_len};
ghost use Rattle.lane_runs.specs.BerthHalves.{IsInside, berth_lines, halves_of, taps_left};
ghost use Rattle.lane_runs.specs.Placed.{placed_all};
ghost use Rattle.lane_runs.specs.Blanks.{HasRoom};

use crate::halves::{EndedLine, Halves};
use proxy_laws::EndedFeed;
use std::collections::VecDeque;
use tap_lane::EndedTap;

/// Appends `count` lines, numbered from 0, with no halves yet. It takes no memory.
pub(crate) fn number_lines<D: Drop, T: Drop, K: Drop>(
    lines: &mut Vec<EndedLine<D, T, K>>,
    count: usize,
)
    requires room { HasRoom count lines.old }
    requires few { count < 2 ^ 32 }
    ensures numbers { map (λ x. x.number) lines.new.items ≡ range_with_len 0 count }
    ensures halves { map (λ x. x.halves) lines.new.items ≡ replicate count None }
{
    for number in 0..count as u32 {
        lines.push_reserved(EndedLine {
            number,
            halves: None,
        });
    }
}

/// Stores the halves of a berth's lines at the lines' numbers. Each feed is stored with its child, and
/// with the tap at the same position. It takes no memory.
pub(crate) fn put_halves<D: Drop, T: Drop, K: Drop>(
    lines: &mut Vec<EndedLine<D, T, K>>,
    feeds: Vec<EndedFeed<D, K>>,
    taps: Vec<EndedTap<T>>,
    shelved: Option<T>,
)
    requires { IsInside (length lines.old.items) (berth_lines feeds.items taps.items shelved) }
    ensures numbers { map (λ x. x.number) lines.new.items ≡ map (λ x. x.number) lines.old.items }
    ensures halves { map (λ x. x.halves) lines.new.items
        ≡ placed_all (map (λ x. x.halves) lines.old.items)
        (halves_of (berth_lines feeds.items taps.items shelved)) }
{
    let mut feeds = VecDeque::from_vec(feeds);
    let mut taps = VecDeque::from_vec(taps);
    let mut shelved = shelved;
    while let Some(ended) = feeds.pop_front() {
        let EndedFeed { line, feed, child } = ended;
        let tap = match next_tap(&mut taps, &mut shelved) {
            Some(tap) => tap,
            None => unreachable!(),
        };
        let halves = Halves { feed, tap, child };
        drop(lines[line as usize].halves.replace(halves));
    }
}

// Removes and returns the next of these taps, or the shelved tap if none of these is left.
fn next_tap<T: Drop>(taps: &mut VecDeque<EndedTap<T>>, shelved: &mut Option<T>) -> Option<T>
    ensures { MatchOption result (taps_left taps.old.items shelved.old ≡ [])
        (λ tap. taps_left taps.old.items shelved.old ≡ tap ∷ taps_left taps.new.items shelved.new) }
{
    match taps.pop_front() {
        Some(ended) => {
            let EndedTap { line: _, tap } = ended;
            Some(tap)
        }
        None => shelved.take(),
    }
}
