//! Runs the lanes of all berths on threads.
ghost use Rattle.std.specs.Prelude.{◌≡◌, ◌≤◌, [], length, map, IfOk, IfErr};
ghost use Rattle.core_machine.specs.Objects.{AreFresh};
ghost use Rattle.lane_runs.specs.Seats.{SpeechesFit, berths_in};
ghost use Rattle.run_values.specs.Settings.{AreOfPlan};
ghost use Rattle.run_values.specs.Work.{IsWorkOf};
ghost use Rattle.lane_threads.specs.Beside.{count_of};
ghost use Rattle.core_contract.specs.Duties.{proxy_lane};
ghost use Rattle.lane_runs.specs.Blanks.{HasRoom};
ghost use Rattle.lane_runs.specs.Paced.{HasPaced, MayPace, pacer_back};
ghost use Rattle.lane_runs.specs.Runs.{HasRun, laid_told};

use crate::blank::Blank;
use crate::histories::histories_say;
use crate::lanes::{BerthLane, berths_of, lanes_of};
use crate::layout::{LaidOut, all_there, lay_out};
use crate::means::AllMeans;
use crate::pacing::{pacer_back, pacer_left, seat_for};
use core_contract::Rules;
use core_machine::Bench;
use lane_threads::{Crew, Lack, Unstarted, run_crew_beside};
use outside::{Berth, Place};
use seat_desk::Machine;
use std::alloc::Global;
use std::sync::Wait;
use std::thread::Threads;
use tick_lane::{Pacer, TickStart};

/// The objects that lanes will work with, as long as no lane was started.
#[derive(Drop)]
pub struct Unrun<B, P, W> {
    /// The berths, one for each speech.
    pub berths: Vec<B>,
    /// The places, to which nothing was written, one for each action.
    pub places: Vec<P>,
    /// The pacer of the lane that makes Ticks, if there is such a lane.
    pub pacer: Option<W>,
}

/// The objects of lanes that could not be started, and the resource that was lacking.
#[derive(Drop)]
pub struct NotStarted<B, P, W> {
    pub unrun: Unrun<B, P, W>,
    pub lack: Lack,
}

impl<B: Drop, P: Drop, W: Drop> NotStarted<B, P, W> {
    // Returns the objects of lanes for which there was too little memory.
    fn for_memory(unrun: Unrun<B, P, W>) -> NotStarted<B, P, W>
        ensures { result.unrun ≡ unrun }
    {
        let lack = Lack::Memory;
        NotStarted { unrun, lack }
    }
}

/// The result of lanes that have run.
#[derive(Drop)]
pub struct Run<B: Berth, P, W> {
    pub laid: LaidOut<B, P>,
    /// The pacer, which has counted the ticks that its lane waited for.
    pub pacer: Option<W>,
}

/// Runs the lanes of these berths with this core, each on its own thread, until each has received Stop
/// or halted. Then arranges by number what they leave. The room for that is made before the lanes begin,
/// so that no run is lost once its lanes have ended.
///
/// There is a speech for each berth that has lanes. The core may know of more berths. These have no
/// lanes, and so no entry, no line and no tap. The contract covers the berths that have lanes.
///
/// If there is a pacer, the core knows of one more berth after these. Its proxy lane makes Ticks, and
/// runs at the same time as the other lanes.
///
/// # Errors
///
/// Returns `NotStarted` if memory or threads are lacking before the lanes are started. It has the berths
/// and the pacer, unchanged, and the places. No lane was started, and the core is dropped.
pub fn run_lanes<B: Berth, P: Place, C: Rules, W: Pacer, R: Threads + Wait + Sync>(
    rt: &R,
    alloc: Global,
    core: C,
    unrun: Unrun<B, P, W>,
    means: &AllMeans<'_>,
) -> Result<Run<B, P, W>, NotStarted<B, P, W>>
where
    B: Send,
    P: Send,
    C: Send,
    W: Send,
    B::Feed: Send,
    B::Tap: Send,
    B::Child: Send,
    requires core { C.stands core [] }
    requires places { AreFresh P.told (length (C.discipline (C.plan core)).plan.actions)
        unrun.places.items }
    requires berths { length unrun.berths.items ≡ length means.now.speeches.now }
    requires seats { length means.now.speeches.now ≤ (C.discipline (C.plan core)).seats }
    requires paced { MayPace (C.discipline (C.plan core)) (length means.now.speeches.now)
        unrun.pacer }
    requires few { length means.now.speeches.now ≤ 127 }
    requires speeches { SpeechesFit (C.discipline (C.plan core)) means.now.speeches.now }
    requires settings { AreOfPlan (C.discipline (C.plan core)).plan means.now.settings.now }
    requires work { IsWorkOf (C.discipline (C.plan core)).plan means.now.actions.now }
    ensures run { IfOk result (λ run. HasRun (C.discipline (C.plan core)) means.now.speeches.now
        means.now.settings.now means.now.actions.now (map B.told unrun.berths.items)
        (count_of unrun.pacer)
        (laid_told B.told B.Feed.told B.Tap.told B.Child.told P.told run.laid)) }
    ensures ticks { IfOk result (λ run. HasPaced W.told (proxy_lane (length means.now.speeches.now))
        unrun.pacer run.pacer run.laid.journal) }
    ensures back { IfErr result (λ u. (u.unrun.berths.items ≡ unrun.berths.items)
        × AreFresh P.told (length (C.discipline (C.plan core)).plan.actions) u.unrun.places.items
        × (u.unrun.pacer ≡ unrun.pacer)) }
{
    let lines = core.most_lines() as usize;
    let seats = means.speeches.len();
    let Ok(blank) = Blank::new(alloc, seats, lines, means.actions.len()) else {
        return Err(NotStarted::for_memory(unrun));
    };
    let Ok(room) = Vec::with_capacity(alloc, 2 * seats) else {
        return Err(NotStarted::for_memory(unrun));
    };
    let Unrun {
        berths,
        places,
        pacer,
    } = unrun;
    let bench = match Bench::new(alloc, core, places) {
        Ok(bench) => bench,
        Err(places) => {
            let unrun = Unrun {
                berths,
                places,
                pacer,
            };
            return Err(NotStarted::for_memory(unrun));
        }
    };
    let lanes = lanes_of(alloc, berths, means, room);
    let ticker = seat_for(seats as u32, pacer);
    histories_say::<C>();
    match run_crew_beside(rt, alloc, bench, lanes, ticker) {
        Ok(left) => {
            let (crew, beside) = left;
            let Crew {
                machine,
                history,
                ends,
            } = crew;
            let (_core, mut taps, places) = machine.into_parts();
            // A berth without lanes has no line, and so no tap.
            taps.truncate(seats);
            let laid = lay_out(blank, history, ends, taps, places);
            let pacer = pacer_left(beside);
            Ok(Run { laid, pacer })
        }
        Err(unstarted) => {
            let lack = unstarted.0.lack;
            Err(NotStarted {
                unrun: take_back(blank, unstarted),
                lack,
            })
        }
    }
}

// Takes the berths, the places and the pacer back from a crew that has not begun. It uses the room for
// what the crew would have left, and takes no memory.
fn take_back<B: Berth, P: Place, C: Rules, W: Pacer>(
    blank: Blank<B, B::Feed, B::Tap, B::Child, P>,
    unstarted: (
        Unstarted<Bench<B, P, C>, BerthLane<'_, B>>,
        Option<TickStart<W>>,
    ),
) -> Unrun<B, P, W>
    requires stands { ⟦<Bench<B, P, C> as Machine>⟧.stands unstarted.0.machine [] }
    requires berths { HasRoom (length (berths_in unstarted.0.lanes.items)) blank.berths }
    requires places { HasRoom
        (length (C.discipline (⟦<Bench<B, P, C> as Machine>⟧.basis
        unstarted.0.machine)).plan.actions)
        blank.places }
    ensures berths { result.berths.items ≡ berths_in unstarted.entry.0.lanes.items }
    ensures places { AreFresh P.told
        (length (C.discipline (⟦<Bench<B, P, C> as Machine>⟧.basis
        unstarted.entry.0.machine)).plan.actions)
        result.places.items }
    ensures pacer { result.pacer ≡ pacer_back unstarted.entry.1 }
{
    let Blank {
        mut berths,
        lines: _,
        unsaid: _,
        places: kept,
    } = blank;
    let (crew, beside) = unstarted;
    let Unstarted { machine, lanes, .. } = crew;
    let (_core, _taps, slots) = machine.into_parts();
    berths_of(lanes, &mut berths);
    let places = all_there(slots, kept);
    let pacer = pacer_back(beside);
    Unrun {
        berths,
        places,
        pacer,
    }
}
