// The lanes of a plan, run on threads.
ghost use Rattle.std.specs.Prelude.{◌≡◌, ◌≤◌, [], length, map, Some, None};
ghost use Rattle.lane_runs.specs.Seats.{SpeechesFit};
ghost use Rattle.run_values.specs.Settings.{AreOfPlan};
ghost use Rattle.build_report.specs.declared.fault.Stage.TheVariants as stage;
ghost use Rattle.run_values.specs.Work.{IsWorkOf};
ghost use Rattle.core_contract.specs.Duties.{proxy_lane};
ghost use Rattle.lane_threads.specs.Beside.{count_of};
ghost use Rattle.lane_runs.specs.Paced.{HasPaced, MayPace};
ghost use Rattle.lane_runs.specs.Runs.{laid_told};
ghost use Rattle.outside.specs.Told.{SameFiles};
ghost use Rattle.worker_run.specs.Lanes.{HasMade, IsUnused, LanesRan, MakesUpTo, WhereLost, WhereWhole};
ghost use Rattle.worker_run.specs.Seen.{nothing_left, ran_by, ran_told, unrun};
ghost use Rattle.run_plan.specs.Limits.{most_actions, most_berths};

use crate::objects::{NewObjects, make_objects};
use build_report::Stage;
use core_contract::Rules;
use exec_journal::Journal;
use lane_runs::{AllMeans, Laid, LaidOut, NotStarted, Run, Unrun, run_lanes};
use lane_threads::Lack;
use outside::{Berth, Floor};
use std::alloc::Global;
use std::marker::Model;
use std::sync::Wait;
use std::thread::Threads;
use tick_lane::Pacer;

/// The outside objects that a run receives in addition to its sink.
#[derive(Drop)]
pub struct Surroundings<F, W> {
    /// The floor, from which files are read, and which makes berths and places.
    pub floor: F,
    /// The pacer of the lane that makes Ticks, if the core has such a lane.
    pub pacer: Option<W>,
}

/// The result of running a plan's lanes.
#[derive(Drop)]
pub struct Ran<F: Floor> {
    /// The stage at which memory ran out, if it did: `Before` the lanes, or `During` their work.
    pub fault: Option<Stage>,
    /// The resource that was lacking, if no lane was started. The contract does not cover it.
    pub lack: Option<Lack>,
    pub floor: F,
    /// The journal, the berths, the lines and the places.
    pub laid: LaidOut<F::Berth, F::Place>,
}

impl<F: Floor> Model for Ran<F> {
    ghost use Rattle.lane_runs.specs.Runs.{laid_told};
    ghost use Rattle.worker_run.specs.Seen.{RanTold, ran_told};

    ghost Value = { RanTold };

    ghost view = { λ r. ran_told r.fault (F.told r.floor) (laid_told F.Berth.told
        F.Berth.Feed.told F.Berth.Tap.told F.Berth.Child.told F.Place.told r.laid) };
}

impl<F: Floor> Ran<F> {
    /// Returns the result of a run that leaves only the floor.
    pub fn with_nothing(alloc: Global, floor: F, fault: Option<Stage>) -> Ran<F>
        ensures { result ≡ ran_told fault (F.told floor) nothing_left }
    {
        Ran::unused(alloc, floor, fault, None, Vec::new(alloc), Vec::new(alloc))
    }

    // Returns the result of a run that leaves the floor, and berths and places that no lane has used.
    fn unused(
        alloc: Global,
        floor: F,
        fault: Option<Stage>,
        lack: Option<Lack>,
        berths: Vec<F::Berth>,
        places: Vec<F::Place>,
    ) -> Ran<F>
        ensures { result ≡ ran_told fault (F.told floor)
            (unrun (map F.Berth.told berths.items) (map F.Place.told places.items)) }
    {
        let laid = Laid {
            journal: Journal::of(Vec::new(alloc)),
            berths,
            lines: Vec::new(alloc),
            unsaid: Vec::new(alloc),
            places,
            halted: false,
        };
        Ran {
            fault,
            lack,
            floor,
            laid,
        }
    }

    // Returns the result of a run whose lanes left `laid`, with the floor.
    fn of(floor: F, laid: LaidOut<F::Berth, F::Place>) -> Ran<F>
        ensures { result ≡ ran_by (F.told floor) (laid_told F.Berth.told F.Berth.Feed.told
            F.Berth.Tap.told F.Berth.Child.told F.Place.told laid) }
    {
        let fault = if laid.halted {
            Some(Stage::During)
        } else {
            None
        };
        let lack = None;
        Ran {
            fault,
            lack,
            floor,
            laid,
        }
    }
}

/// Runs the actions of a plan with this core. First makes a place for each action and then a berth
/// for each speech, both in order. Then runs the two lanes of each berth on threads. If there is a
/// pacer, the lane that makes Ticks runs at the same time.
///
/// The fault records when memory ran out. If it is `During`, some lane has halted. If it is `Before`,
/// no lane was started, because memory or threads were lacking. In that case all objects that were
/// made are left, new. Arranging what the lanes left takes no memory. Also returns the pacer, with
/// the ticks that it has counted.
pub fn run_plan<F: Floor, C: Rules, W: Pacer, R: Threads + Wait + Sync>(
    rt: &R,
    alloc: Global,
    core: C,
    means: &AllMeans<'_>,
    around: Surroundings<F, W>,
) -> (Ran<F>, Option<W>)
where
    W: Send,
    F::Berth: Send,
    F::Place: Send,
    C: Send,
    <F::Berth as Berth>::Feed: Send,
    <F::Berth as Berth>::Tap: Send,
    <F::Berth as Berth>::Child: Send,
    requires core { C.stands core [] }
    requires actions { length means.now.actions.now ≤ most_actions }
    requires seats { length means.now.speeches.now ≤ (C.discipline (C.plan core)).seats }
    requires few { length means.now.speeches.now ≤ most_berths }
    requires paced { MayPace (C.discipline (C.plan core)) (length means.now.speeches.now)
        around.pacer }
    requires speeches { SpeechesFit (C.discipline (C.plan core)) means.now.speeches.now }
    requires settings { AreOfPlan (C.discipline (C.plan core)).plan means.now.settings.now }
    requires work { IsWorkOf (C.discipline (C.plan core)).plan means.now.actions.now }
    // If lanes ran, what is left agrees with their one history.
    ensures run { WhereWhole result.0.fault (LanesRan (C.discipline (C.plan core))
        means.now.speeches.now means.now.settings.now means.now.actions.now
        (count_of around.pacer) result.0.fault result.0.left) }
    ensures ticks { WhereWhole result.0.fault (HasPaced W.told
        (proxy_lane (length means.now.speeches.now)) around.pacer result.1
        result.0.left.journal) }
    ensures lost { WhereLost result.0.fault (IsUnused result.0.left) }
    ensures unpaced { WhereLost result.0.fault (result.1 ≡ around.pacer) }
    // Everything that the floor has made is left, and it never makes more than a plan may have.
    ensures made { HasMade (F.told around.floor) result.0.floor result.0.left }
    ensures few { MakesUpTo most_berths most_actions (F.told around.floor) result.0.floor }
    ensures files { SameFiles (F.told around.floor) result.0.floor }
    ensures log { result.0.floor.log ≡ (F.told around.floor).log }
    ensures count { (F.told around.floor).faults ≤ result.0.floor.faults }
{
    let Surroundings { mut floor, pacer } = around;
    let seats = means.speeches.len();
    let objects = make_objects(alloc, &mut floor, seats, means.actions.len());
    let all = objects.has_all(seats, means.actions.len());
    let NewObjects { places, berths } = objects;
    if !all {
        let (fault, lack) = (Some(Stage::Before), Some(Lack::Memory));
        let ran = Ran::unused(alloc, floor, fault, lack, berths, places);
        return (ran, pacer);
    }
    let unrun = Unrun {
        berths,
        places,
        pacer,
    };
    match run_lanes(rt, alloc, core, unrun, means) {
        Ok(run) => {
            let Run { laid, pacer } = run;
            (Ran::of(floor, laid), pacer)
        }
        Err(left) => {
            let NotStarted { unrun, lack } = left;
            let Unrun {
                berths,
                places,
                pacer,
            } = unrun;
            let (fault, lack) = (Some(Stage::Before), Some(lack));
            let ran = Ran::unused(alloc, floor, fault, lack, berths, places);
            (ran, pacer)
        }
    }
}
