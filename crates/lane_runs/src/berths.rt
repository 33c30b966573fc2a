//! The results of each berth's lanes.
ghost use Rattle.std.specs.Prelude.{◌≡◌, ◌∷◌, map, length};
ghost use Rattle.lane_threads.specs.declared.pair.Either.TheVariants.{First, Second};
ghost use Rattle.lane_runs.specs.Apart.{Alternate, BeginsWithTwo, berths_of, lefts_of, unsaid_of};
ghost use Rattle.lane_runs.specs.BerthHalves.{AreInside, all_halves};
ghost use Rattle.lane_runs.specs.Placed.{placed_all};
ghost use Rattle.lane_runs.specs.Blanks.{HasRoom};

use crate::halves::EndedLine;
use crate::lines::put_halves;
use lane_threads::Either;
use proxy_lane::ProxyLeft;
use proxy_laws::EndedFeed;
use std::collections::VecDeque;
use tap_lane::TapLeft;

/// Stores the results of all lanes: the berths, the lines that weren't reported, and the halves of all
/// other lines at their numbers. `ends` contains the ends of the lanes berth by berth. `shelved`
/// contains the tap that was left on the shelf for each berth. The call takes no memory.
pub(crate) fn lay_berths<B: Drop, D: Drop, T: Drop, K: Drop>(
    ends: Vec<Either<ProxyLeft<B, D, K>, TapLeft<T>>>,
    shelved: Vec<Option<T>>,
    berths: &mut Vec<B>,
    unsaid: &mut Vec<Option<EndedFeed<D, K>>>,
    lines: &mut Vec<EndedLine<D, T, K>>,
)
    requires alternate { Alternate shelved.items ends.items }
    requires berths { HasRoom (length shelved.items) berths.old }
    requires unsaid { HasRoom (length shelved.items) unsaid.old }
    requires inside { AreInside (length lines.old.items) (lefts_of shelved.items ends.items) }
    ensures berths { berths.new.items ≡ berths_of shelved.items ends.items }
    ensures unsaid { unsaid.new.items ≡ unsaid_of shelved.items ends.items }
    ensures numbers { map (λ x. x.number) lines.new.items ≡ map (λ x. x.number) lines.old.items }
    ensures halves { map (λ x. x.halves) lines.new.items
        ≡ placed_all (map (λ x. x.halves) lines.old.items)
        (all_halves (lefts_of shelved.items ends.items)) }
{
    let mut rest = VecDeque::from_vec(ends);
    let mut slots = VecDeque::from_vec(shelved);
    while let Some(slot) = slots.pop_front() {
        let (proxy, heard) = next_two(&mut rest);
        let ProxyLeft {
            berth,
            feeds,
            unsaid: line,
            halted,
        } = proxy;
        drop(halted);
        let TapLeft { taps, halted: _ } = heard;
        berths.push_reserved(berth);
        unsaid.push_reserved(line);
        put_halves(lines, feeds, taps, slot);
    }
}

// Removes and returns the ends of the next berth's two lanes.
fn next_two<B: Drop, D: Drop, T: Drop, K: Drop>(
    ends: &mut VecDeque<Either<ProxyLeft<B, D, K>, TapLeft<T>>>,
) -> (ProxyLeft<B, D, K>, TapLeft<T>)
    requires { BeginsWithTwo ends.old.items }
    ensures { ends.old.items ≡ First result.0 ∷ Second result.1 ∷ ends.new.items }
{
    let Some(Either::First(proxy)) = ends.pop_front() else {
        unreachable!()
    };
    let Some(Either::Second(heard)) = ends.pop_front() else {
        unreachable!()
    };
    (proxy, heard)
}
