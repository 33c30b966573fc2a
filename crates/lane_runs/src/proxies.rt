//! The proxy lane of a berth, as a lane of a crew.
ghost use Rattle.std.specs.Prelude.{◌≡◌, ◌<◌, map};
ghost use Rattle.std.specs.Option.{option_map};
ghost use Rattle.seat_desk.specs.Passes.{IsPassOf, IsSamePass, basis};
ghost use Rattle.lane_threads.specs.Lanes.{IsFresh};
ghost use Rattle.proxy_calls.specs.Calls.{IsProxyOf};
ghost use Rattle.proxy_words.specs.Settings.{FitsSettings};
ghost use Rattle.lane_runs.specs.Seats.{means_of};
ghost use Rattle.proxy_laws.specs.Lanes.{back_of};
ghost use Rattle.proxy_laws.specs.Steps.{IsServedBy};
ghost use Rattle.run_values.specs.Work.{IsWorkOf};

use core_contract::Rules;
use core_machine::Bench;
use lane_bells::Bells;
use lane_threads::Lane;
use outside::{Berth, Place};
use proxy_lane::{ProxyLeft, Site};
use remote_messages::WorkAction;
use run_plan::Speech;
use run_values::Settings;
use seat_desk::{Desk, Pass};
use std::alloc::Global;
use std::sync::Wait;
use std::thread::Threads;

/// The resources of a berth's proxy lane.
#[derive(Drop)]
pub(crate) struct ProxyStart<'a, B> {
    pub(crate) alloc: Global,
    pub(crate) berth: B,
    /// The berth's number.
    pub(crate) number: u32,
    /// The speech of the berth's lines.
    pub(crate) speech: Speech,
    pub(crate) settings: &'a Settings<'a>,
    /// The work of all actions, by their numbers.
    pub(crate) actions: &'a [WorkAction],
}

impl<'a, B: Berth, P: Place, C: Rules> Lane<Desk<Bench<B, P, C>>, Pass<Bench<B, P, C>>>
    for ProxyStart<'a, B> {
    type End = ProxyLeft<B, B::Feed, B::Child>;

    ghost may_run = { λ self desk bells pass. IsPassOf desk pass × IsFresh pass
        × IsProxyOf C.discipline self.number pass × (pass.lane < bells)
        × FitsSettings (C.discipline (basis pass)) self.number self.speech self.settings.now
        × IsWorkOf (C.discipline (basis pass)).plan self.actions.now };

    ghost has_run = { λ self pass left after. IsSamePass pass after
        × IsServedBy (means_of self) C.discipline (B.told self.berth) (B.told left.berth)
        (map (back_of B.Feed.told B.Child.told) left.feeds.items)
        (option_map (back_of B.Feed.told B.Child.told) left.unsaid) left.halted after };

    fn run<R: Threads + Wait + Sync>(
        self,
        rt: &R,
        desk: &Desk<Bench<B, P, C>>,
        bells: &Bells,
        pass: Pass<Bench<B, P, C>>,
    ) -> (ProxyLeft<B, B::Feed, B::Child>, Pass<Bench<B, P, C>>) {
        let ProxyStart {
            alloc,
            berth,
            number,
            speech,
            settings,
            actions,
        } = self;
        let site = Site {
            rt,
            alloc,
            berth: number,
            speech,
            settings,
            actions,
        };
        proxy_lane::run(site, desk, bells, pass, berth)
    }
}
