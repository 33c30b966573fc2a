//! A crew and an extra lane, from the first room to their results.
ghost use Rattle.std.specs.Prelude.{◌≡◌, ◌+◌, ◌<◌, [], length, IfOk, IfErr};
ghost use Rattle.seat_desk.specs.History.{StandsUnder};
ghost use Rattle.seat_desk.specs.Turns.{NoneFrom};
ghost use Rattle.lane_threads.specs.Jobs.{HasRoomFor};
ghost use Rattle.lane_threads.specs.LaneJobs.{MayRunInOrder, KeepsPasses, EachLane};
ghost use Rattle.lane_threads.specs.Beside.{MayRunBeside, EndsBeside, count_of};

use crate::crew::{Crew, Unstarted, run_crew};
use crate::lane::Lane;
use crate::pair::Either;
use crate::parts::{lay_together, take_apart};
use plain_values::NoMemory;
use seat_desk::{Desk, Machine, Pass};
use std::alloc::Global;
use std::sync::Wait;
use std::thread::Threads;

// Room for all lanes in one list, and for what comes back: their ends, or the lanes themselves.
struct Room<L, X, E> {
    all: Vec<Either<L, X>>,
    ends: Vec<E>,
    lanes: Vec<L>,
}

fn room_for<L: Drop, X: Drop, E: Drop>(
    alloc: Global,
    count: usize,
) -> Result<Room<L, X, E>, NoMemory>
    ensures all { IfOk result (λ r. HasRoomFor count r.all) }
    ensures ends { IfOk result (λ r. HasRoomFor count r.ends) }
    ensures lanes { IfOk result (λ r. HasRoomFor count r.lanes) }
{
    Ok(Room {
        all: Vec::with_capacity(alloc, count)?,
        ends: Vec::with_capacity(alloc, count)?,
        lanes: Vec::with_capacity(alloc, count)?,
    })
}

/// Runs up to 255 lanes at one desk, each on its own thread, with one extra lane of another kind if
/// there is one. Closes the desk after all have ended. The lanes are numbered from 0 on, in their
/// order. The extra lane has the number after theirs.
///
/// The clauses relate each lane's end, and that of the extra lane, to its entries in the one
/// history, as `run_crew` does. The machine stands for the history, and no other lane has a call in
/// it.
///
/// The room for all lanes in one list, and for what comes back, is made before the lanes are put
/// into that list. So from there on only the crew takes memory, and nothing is lost, whether it ran
/// or not. The lanes themselves must see to it that they end: no clause covers waiting.
///
/// # Errors
///
/// Returns the crew and the extra lane if memory runs out before the lanes begin, or if the system starts no
/// thread for one of them. Then no lane has begun, and all lanes come back with the machine, which
/// stands for the empty history.
pub fn run_crew_beside<
    M: Machine + Send,
    L: Lane<Desk<M>, Pass<M>> + Send,
    X: Lane<Desk<M>, Pass<M>> + Send,
    R: Threads + Wait + Sync,
>(
    rt: &R,
    alloc: Global,
    machine: M,
    lanes: Vec<L>,
    beside: Option<X>,
) -> Result<(Crew<M, L::End>, Option<X::End>), (Unstarted<M, L>, Option<X>)>
where
    M::Call: Send,
    M::Reply: Send,
    M::Good: Send,
    L::End: Send,
    X::End: Send,
    requires machine { M.stands machine [] }
    requires few { length lanes.items < 256 }
    requires may_run { MayRunInOrder L.may_run (M.basis machine) 0 lanes.items }
    requires may_run_beside { MayRunBeside X.may_run (M.basis machine) (length lanes.items) beside }
    requires same { KeepsPasses L.has_run }
    requires same_beside { KeepsPasses X.has_run }
    ensures stands { IfOk result (λ c.
        StandsUnder M.basis M.stands (M.basis machine) c.0.machine c.0.history.items) }
    ensures lanes { IfOk result (λ c. EachLane L.has_run (M.basis machine)
        c.0.history.items 0 lanes.items c.0.ends.items) }
    ensures beside { IfOk result (λ c. EndsBeside X.has_run (M.basis machine)
        c.0.history.items (length lanes.items) beside c.1) }
    ensures others { IfOk result (λ c.
        NoneFrom (length lanes.items + count_of beside) c.0.history.items) }
    ensures back { IfErr result (λ u. (u.0.lanes.items ≡ lanes.items) × (u.1 ≡ beside)
        × StandsUnder M.basis M.stands (M.basis machine) u.0.machine []) }
{
    let Ok(room) = room_for(alloc, lanes.len() + 1) else {
        return Err((Unstarted::for_memory(machine, lanes), beside));
    };
    let Room {
        mut all,
        mut ends,
        lanes: mut back,
    } = room;
    lay_together(lanes, beside, &mut all);
    match run_crew(rt, alloc, machine, all) {
        Ok(left) => {
            let Crew {
                machine,
                history,
                ends: all,
            } = left;
            let beside = take_apart(all, &mut ends);
            let crew = Crew {
                machine,
                history,
                ends,
            };
            Ok((crew, beside))
        }
        Err(unstarted) => {
            let Unstarted {
                machine,
                lanes: all,
                lack,
            } = unstarted;
            let beside = take_apart(all, &mut back);
            let crew = Unstarted {
                machine,
                lanes: back,
                lack,
            };
            Err((crew, beside))
        }
    }
}
