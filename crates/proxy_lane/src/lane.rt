//! The whole lane: round after round, to its end.
ghost use Rattle.std.specs.Prelude.{◌≡◌, ◌<◌, [], map, option_map};
ghost use Rattle.seat_desk.specs.Passes.{IsPassOf, IsSamePass, mine};
ghost use Rattle.proxy_laws.specs.Lanes.{back_of};
ghost use Rattle.proxy_laws.specs.Steps.{IsServedBy};
ghost use Rattle.proxy_lane.specs.Sites.{means_at, IsSite, IsOrdered, IsReady, Obeys, Rounds, Serves};

use crate::hands::Hands;
use crate::site::Site;
use core_contract::Rules;
use core_machine::Bench;
use lane_bells::Bells;
use lane_threads::Caller;
use outside::{Berth, Place};
use proxy_calls::{Order, ask};
use proxy_laws::EndedFeed;
use proxy_words::ProxyHalt;
use seat_desk::{Desk, Machine, Pass};
use std::sync::Wait;

/// The result of a proxy lane, in addition to its pass.
#[derive(Drop)]
pub struct ProxyLeft<B, D, K> {
    pub berth: B,
    /// The feeds of the lines that were started, in order, with their children, which were killed.
    pub feeds: Vec<EndedFeed<D, K>>,
    /// A line that was started, but not reported because memory ran out.
    pub unsaid: Option<EndedFeed<D, K>>,
    /// The reason why the lane halted, unless it was told to stop.
    pub halted: Option<ProxyHalt>,
}

/// The proxy lane of a berth, from its first call to its last.
pub(crate) struct ProxyLane<'a, M: Machine, B: Berth, R> {
    pub(crate) site: Site<'a, R>,
    pub(crate) caller: Caller<'a, M>,
    pub(crate) hands: Hands<B>,
}

/// Serves the berth of the site until the lane is told to stop: asks for orders, carries each out
/// and reports the outcome. If memory runs out for an order or for its report, the lane halts, and
/// the child of the open line is killed. While there is nothing to do, the lane waits.
pub fn run<B: Berth, P: Place, C: Rules, R: Wait>(
    site: Site<'_, R>,
    desk: &Desk<Bench<B, P, C>>,
    bells: &Bells,
    pass: Pass<Bench<B, P, C>>,
    berth: B,
) -> (ProxyLeft<B, B::Feed, B::Child>, Pass<Bench<B, P, C>>)
    requires desk { IsPassOf desk.now pass }
    requires site { IsSite C.discipline site pass }
    requires bell { pass.lane < bells.now }
    requires fresh { mine pass ≡ [] }
    ensures desk { IsPassOf desk.now result.1 }
    ensures same { IsSamePass pass result.1 }
    ensures served { IsServedBy (means_at site.entry) C.discipline (B.told berth) (B.told result.0.berth)
        (map (back_of B.Feed.told B.Child.told) result.0.feeds.items)
        (option_map (back_of B.Feed.told B.Child.told) result.0.unsaid)
        result.0.halted result.1 }
{
    let hands = Hands::new(site.alloc, berth);
    let caller = Caller::new(desk, bells, pass);
    let mut lane = ProxyLane {
        site,
        caller,
        hands,
    };
    let halted = lane.serve();
    let ProxyLane {
        site: _,
        caller,
        hands,
    } = lane;
    let Hands {
        berth,
        open: _,
        ended,
        unsaid,
    } = hands;
    let left = ProxyLeft {
        berth,
        feeds: ended,
        unsaid,
        halted,
    };
    (left, caller.into_pass())
}

impl<'a, B: Berth, P: Place, C: Rules, R: Wait> ProxyLane<'a, Bench<B, P, C>, B, R> {
    // Carries out orders until the lane is told to stop, or halts. Returns the reason if it halts.
    fn serve(&mut self) -> Option<ProxyHalt>
        requires { IsReady C.discipline self.old }
        ensures { Serves C.discipline result self.old self.new }
    {
        for _ in self.site.rt.forever() {
            match self.next() {
                Ok(true) => {}
                Ok(false) => return None,
                Err(cause) => {
                    self.give_up();
                    return Some(cause);
                }
            }
        }
        unreachable!()
    }

    // Runs one round: asks, and carries out the order. Returns `false` if the lane was told to stop.
    fn next(&mut self) -> Result<bool, ProxyHalt>
        requires { IsReady C.discipline self.old }
        ensures { Rounds C.discipline result self.old self.new }
    {
        match ask(self.site.rt, &mut self.caller, self.site.berth)? {
            Some(order) => {
                self.obey(order)?;
                Ok(true)
            }
            None => Ok(false),
        }
    }

    // Carries out an order.
    fn obey(&mut self, order: Order<B::Child>) -> Result<(), ProxyHalt>
        requires { IsOrdered C.discipline B.Child.told order self.old }
        ensures { Obeys C.discipline result self.old self.new }
    {
        match order {
            Order::Launch { line, attempt } => self.launch(line, attempt),
            Order::Send {
                line,
                number,
                attempt,
            } => self.send(line, number, attempt),
            Order::Cancel { line, number } => self.cancel(line, number),
            Order::Gather(answer) => self.gather(&answer),
            Order::Kill { line, child } => self.kill(line, child),
        }
    }
}
