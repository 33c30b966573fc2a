// The one run: by a front, over a floor, to a sink.
ghost use Rattle.std.specs.Prelude.{◌≡◌, [], Some, None, map, string_bytes};
ghost use Rattle.outside.specs.Causes.{Counts};
ghost use Rattle.worker_run.specs.Ends.{IsEndOf, Reports};
ghost use Rattle.worker_run.specs.Fronts.{EndsBy, IsReady, Paces};
ghost use Rattle.worker_run.specs.Headline.{TaskKeeps};
ghost use Rattle.worker_run.specs.Pacers.{pacer_of, seat_pacer};
ghost use Rattle.worker_run.specs.Seen.{ended_told, nothing_left};

use crate::by_core::run_paced;
use crate::ended::Ended;
use crate::front::{Front, Made, NoRun};
use crate::running::{Ran, Surroundings};
use build_report::RunFault;
use core_contract::Rules;
use outside::{Berth, Floor, Sink};
use run_progress::Notes;
use std::alloc::Global;
use std::sync::Wait;
use std::thread::Threads;
use tick_lane::Pacer;

/// The exit status of a run in which no strategy supports some action.
pub const NO_STRATEGY: u8 = 8;

/// The objects over which a run is made, in addition to its sink.
#[derive(Drop)]
pub struct Around<F, W> {
    /// The floor, from which files are read, and which makes berths and places.
    pub floor: F,
    /// The pacer of the lane that makes Ticks, if the run has such a lane.
    pub pacer: W,
    /// Where the run records its progress. No clause covers it.
    pub notes: Notes,
}

/// The result of a run, with everything that it leaves.
#[derive(Drop)]
pub struct Finished<F: Floor, W> {
    pub ended: Ended<F>,
    /// The number of the first action that no strategy of its strategy list supports. If it is
    /// present, no lane was started, nothing was written, and `ended` has status 8 and no fault.
    pub refused: Option<u32>,
    /// The pacer, which has counted the ticks that the lane of Ticks waited for.
    pub pacer: W,
}

/// Runs the actions of the list that the arguments name, as this front reads them, on this floor, and
/// writes the report.
///
/// `words` are the arguments after the program's name. The steps come in this order: what the front
/// reads, the places and the berths, the lanes, the report. Each berth has two lanes, each on its own
/// thread. The report is written in one put. An earlier step's fault takes precedence over a later one's.
///
/// If `ended.task` is present, everything that is left agrees with one history, which is the journal.
/// If memory ran out before the lanes were started, all berths and places that were made are left, new.
pub fn run<N: Front, W: Pacer, R: Threads + Wait + Sync, F: Floor, O: Sink>(
    rt: &R,
    alloc: Global,
    words: &[String],
    around: Around<F, W>,
    out: &mut O,
) -> Finished<F, W>
where
    N::Core: Send,
    W: Send,
    F::Berth: Send,
    F::Place: Send,
    <F::Berth as Berth>::Feed: Send,
    <F::Berth as Berth>::Tap: Send,
    <F::Berth as Berth>::Child: Send,
    // Everything that one history records, and how the run ended, or why there was no run.
    ensures run { EndsBy (N.course (map string_bytes words.now)) N.Core.discipline N.Core.kept
        N.promised (F.told around.floor) W.told around.pacer result.pacer result.ended
        result.refused }
    ensures report { Reports result.ended (O.told out.old) (O.told out.new) }
    ensures sink { Counts (O.told out.old).faults (O.told out.new).faults
        (result.ended.fault ≡ Some RunFault.SinkFailed) }
{
    let Around {
        mut floor,
        pacer,
        notes,
    } = around;
    match N::read(alloc, words, &mut floor, notes) {
        Ok(made) => run_made(rt, alloc, made, floor, pacer, out),
        Err(why) => match why {
            NoRun::Fault(fault) => Finished {
                ended: Ended::with_no_lane(alloc, floor, fault),
                refused: None,
                pacer,
            },
            NoRun::NoStrategy(action) => Finished {
                ended: refused(alloc, floor),
                refused: Some(action),
                pacer,
            },
        },
    }
}

// Runs the lanes of a task by its core.
fn run_made<C: Rules, W: Pacer, R: Threads + Wait + Sync, F: Floor, O: Sink>(
    rt: &R,
    alloc: Global,
    made: Made<C>,
    floor: F,
    pacer: W,
    out: &mut O,
) -> Finished<F, W>
where
    C: Send,
    W: Send,
    F::Berth: Send,
    F::Place: Send,
    <F::Berth as Berth>::Feed: Send,
    <F::Berth as Berth>::Tap: Send,
    <F::Berth as Berth>::Child: Send,
    requires core { C.stands made.core [] }
    requires ready { IsReady (C.discipline (C.plan made.core)) made.task made.ticks }
    ensures refused { result.refused ≡ None }
    ensures task { TaskKeeps (λ t. C.discipline (C.plan made.core)) (λ t. C.kept (C.plan made.core))
        (F.told floor) result.ended }
    ensures paces { Paces (C.discipline (C.plan made.core)) W.told pacer result.pacer
        result.ended }
    ensures ended { IsEndOf made.task result.ended.fault result.ended.task }
    // Nothing more is read from the floor.
    ensures log { result.ended.floor.log ≡ (F.told floor).log }
    ensures report { Reports result.ended (O.told out.old) (O.told out.new) }
    ensures sink { Counts (O.told out.old).faults (O.told out.new).faults
        (result.ended.fault ≡ Some RunFault.SinkFailed) }
{
    let Made { task, core, ticks } = made;
    let (lane, spare) = seat_pacer(pacer, ticks);
    let around = Surroundings { floor, pacer: lane };
    let (ended, lane) = run_paced(rt, alloc, task, core, around, out);
    let Some(pacer) = pacer_of(lane, spare) else {
        unreachable!()
    };
    Finished {
        ended,
        refused: None,
        pacer,
    }
}

// Returns the pacer for the lane that makes Ticks if there is such a lane, and otherwise beside it.
fn seat_pacer<W: Drop>(pacer: W, ticks: bool) -> (Option<W>, Option<W>)
    ensures { result ≡ seat_pacer ticks pacer }
{
    if ticks {
        (Some(pacer), None)
    } else {
        (None, Some(pacer))
    }
}

// Returns the pacer that the lane gave back, or the one beside it.
fn pacer_of<W: Drop>(lane: Option<W>, spare: Option<W>) -> Option<W>
    ensures { result ≡ pacer_of lane spare }
{
    match lane {
        Some(pacer) => Some(pacer),
        None => spare,
    }
}

// Returns the result of a run that ended because some action is supported by no strategy.
fn refused<F: Floor>(alloc: Global, floor: F) -> Ended<F>
    ensures { result ≡ ended_told 8 None (F.told floor) None nothing_left }
{
    let mut ended = Ended::of(Ran::with_nothing(alloc, floor, None), None, None);
    ended.status = NO_STRATEGY;
    ended
}
