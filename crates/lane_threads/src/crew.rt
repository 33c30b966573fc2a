//! A crew: a desk, its lanes on threads, and the results.
ghost use Rattle.std.specs.Prelude.{◌≡◌, ◌≤◌, [], length, All, IfOk, IfErr};
ghost use Rattle.seat_desk.specs.History.{StandsUnder};
ghost use Rattle.seat_desk.specs.Turns.{NoneFrom};
ghost use Rattle.seat_desk.specs.Passes.{IsRootOf, joined, root_basis, root_seen};
ghost use Rattle.lane_threads.specs.Jobs.{HasRoomFor};
ghost use Rattle.lane_threads.specs.LaneJobs.{MayRunInOrder, KeepsPasses, IsNew, IsEnlisted, JobsFrom, AreJobs, AreIdle, HasItsEnd, HandedOver, EachLane};

use crate::job::{Lack, NotBegun, Slot, end_of, job_of, run_list};
use crate::lane::Lane;
use crate::lane_job::{LaneDone, LaneJob, Shared};
use lane_bells::Bells;
use plain_values::NoMemory;
use seat_desk::{Closed, Desk, HistoryEntry, Machine, Pass, Root};
use std::alloc::Global;
use std::collections::VecDeque;
use std::sync::Wait;
use std::thread::Threads;

/// The result of a crew's run.
#[derive(Drop)]
pub struct Crew<M: Machine, E> {
    /// The machine, as the last call left it.
    pub machine: M,
    /// The recorded calls, the oldest first.
    pub history: Vec<HistoryEntry<M>>,
    /// The end of each lane, in the order of the lanes.
    pub ends: Vec<E>,
}

/// The parts of a crew of which no lane has begun.
#[derive(Drop)]
pub struct Unstarted<M, L> {
    /// The machine, which no lane has called.
    pub machine: M,
    /// The lanes, unchanged.
    pub lanes: Vec<L>,
    /// The reason why none has begun. No clause covers it.
    pub lack: Lack,
}

impl<M: Drop, L: Drop> Unstarted<M, L> {
    /// Returns the parts of a crew for which there was too little memory.
    pub(crate) fn for_memory(machine: M, lanes: Vec<L>) -> Unstarted<M, L>
        ensures { (result.machine ≡ machine) × (result.lanes ≡ lanes) }
    {
        let lack = Lack::Memory;
        Unstarted {
            machine,
            lanes,
            lack,
        }
    }
}

// A lane with its pass, or its end.
type LanePost<M, L, E> = Slot<LaneJob<M, L>, LaneDone<M, E>>;

// Gives each lane a pass, in order. It takes no memory.
fn enlist<M: Machine, L: Drop, E: Drop, R>(
    rt: &R,
    desk: &Desk<M>,
    root: &mut Root<M>,
    lanes: Vec<L>,
    slots: &mut Vec<LanePost<M, L, E>>,
)
    requires desk { IsRootOf desk.now root.old }
    requires new { IsNew root.old }
    requires few { length lanes.items ≤ 256 }
    requires room { HasRoomFor (length lanes.items) slots.old }
    ensures root { IsEnlisted (root_basis root.old) (length lanes.items) desk.now root.new }
    ensures slots { JobsFrom desk.now (root_basis root.old) 0 lanes.items slots.new.items }
{
    let mut rest = VecDeque::from_vec(lanes);
    while let Some(lane) = rest.pop_front() {
        let pass = desk.split(rt, root);
        slots.push_reserved(Slot::Ready(LaneJob { lane, pass }));
    }
}

// Takes each pass back, and collects the ends in one list. It takes no memory.
fn collect<M: Machine, L: Drop, E: Drop, R>(
    rt: &R,
    desk: &Desk<M>,
    root: &mut Root<M>,
    slots: Vec<LanePost<M, L, E>>,
    ends: &mut Vec<E>,
)
    requires desk { IsRootOf desk.now root.old }
    requires none { joined root.old ≡ [] }
    requires done { All (HasItsEnd desk.now) slots.items }
    requires room { HasRoomFor (length slots.items) ends.old }
    ensures root { IsRootOf desk.now root.new × (root.new.made ≡ root.old.made)
        × (root_basis root.new ≡ root_basis root.old) }
    ensures handed { HandedOver (root_seen root.new) slots.items ends.new.items (joined root.new) }
{
    let mut rest = VecDeque::from_vec(slots);
    while let Some(slot) = rest.pop_front() {
        let LaneDone { end, pass } = end_of(slot);
        desk.join_pass(rt, root, pass);
        ends.push_reserved(end);
    }
}

// Takes each pass back from a lane that has not begun, and takes the lane back. It takes no memory.
fn dismiss<M: Machine, L: Drop, E: Drop, R>(
    rt: &R,
    desk: &Desk<M>,
    root: &mut Root<M>,
    slots: Vec<LanePost<M, L, E>>,
    lanes: &mut Vec<L>,
)
    requires desk { IsRootOf desk.now root.old }
    requires none { joined root.old ≡ [] }
    requires seated { AreJobs desk.now (root_basis root.old) slots.items }
    requires room { HasRoomFor (length slots.items) lanes.old }
    ensures root { IsRootOf desk.now root.new × (root.new.made ≡ root.old.made)
        × (root_basis root.new ≡ root_basis root.old) }
    ensures idle { AreIdle 0 (length slots.items) (joined root.new) }
    ensures lanes { JobsFrom desk.now (root_basis root.old) 0 lanes.new.items slots.items }
{
    let mut rest = VecDeque::from_vec(slots);
    while let Some(slot) = rest.pop_front() {
        let LaneJob { lane, pass } = job_of(slot);
        desk.join_pass(rt, root, pass);
        lanes.push_reserved(lane);
    }
}

// Room for a crew of this size: all that takes memory, except for the desk and the threads.
struct Room<M: Machine, L, E> {
    bells: Bells,
    slots: Vec<LanePost<M, L, E>>,
    ends: Vec<E>,
    lanes: Vec<L>,
}

fn room_for<M: Machine, L: Drop, E: Drop>(
    alloc: Global,
    count: usize,
) -> Result<Room<M, L, E>, NoMemory>
    requires few { count ≤ 256 }
    ensures bells { IfOk result (λ r. r.bells ≡ count) }
    ensures slots { IfOk result (λ r. HasRoomFor count r.slots) }
    ensures ends { IfOk result (λ r. HasRoomFor count r.ends) }
    ensures lanes { IfOk result (λ r. HasRoomFor count r.lanes) }
{
    Ok(Room {
        bells: Bells::new(alloc, count as u32)?,
        slots: Vec::with_capacity(alloc, count)?,
        ends: Vec::with_capacity(alloc, count)?,
        lanes: Vec::with_capacity(alloc, count)?,
    })
}

/// Runs up to 256 lanes at one desk, each on its own thread, and closes the desk after all have
/// ended. The lanes are numbered from 0 on, in their order. A bit of a machine's hint wakes each lane
/// whose number is the same modulo 128.
///
/// The clauses relate each lane's end to its entries in the one history. These are all calls that
/// the lane made, in order, and no others. The machine stands for the history, and no other lane
/// has a call in it.
///
/// All memory is taken first, and all threads exist before the first lane begins. So from the first
/// lane's start on, the crew itself takes no memory, and no result is lost. The lanes themselves
/// must see to it that they end: no clause covers waiting.
///
/// # Errors
///
/// Returns `Unstarted` if memory runs out before the lanes begin, or if the system starts no thread
/// for one of them. `Unstarted` gives the reason. Then no lane has begun, and the lanes come back
/// with the machine, which stands for the empty history.
pub fn run_crew<M: Machine + Send, L: Lane<Desk<M>, Pass<M>> + Send, R: Threads + Wait + Sync>(
    rt: &R,
    alloc: Global,
    machine: M,
    lanes: Vec<L>,
) -> Result<Crew<M, L::End>, Unstarted<M, L>>
where
    M::Call: Send,
    M::Reply: Send,
    M::Good: Send,
    L::End: Send,
    requires machine { M.stands machine [] }
    requires few { length lanes.items ≤ 256 }
    requires may_run { MayRunInOrder L.may_run (M.basis machine) 0 lanes.items }
    requires same { KeepsPasses L.has_run }
    ensures stands { IfOk result (λ c.
        StandsUnder M.basis M.stands (M.basis machine) c.machine c.history.items) }
    ensures lanes { IfOk result (λ c.
        EachLane L.has_run (M.basis machine) c.history.items 0 lanes.items c.ends.items) }
    ensures others { IfOk result (λ c. NoneFrom (length lanes.items) c.history.items) }
    ensures back { IfErr result (λ u. (u.lanes.items ≡ lanes.items)
        × StandsUnder M.basis M.stands (M.basis machine) u.machine []) }
{
    let Ok(room) = room_for(alloc, lanes.len()) else {
        return Err(Unstarted::for_memory(machine, lanes));
    };
    let Room {
        bells,
        mut slots,
        mut ends,
        lanes: mut back,
    } = room;
    let (desk, mut root) = match Desk::new_or_back(alloc, machine) {
        Ok(opened) => opened,
        Err(machine) => return Err(Unstarted::for_memory(machine, lanes)),
    };
    enlist(rt, &desk, &mut root, lanes, &mut slots);
    let shared = Shared { desk, bells };
    let ran = run_list(rt, alloc, &shared, slots);
    let Shared { desk, bells: _ } = shared;
    match ran {
        Ok(slots) => {
            collect(rt, &desk, &mut root, slots, &mut ends);
            let Closed { machine, history } = desk.close(rt, root);
            Ok(Crew {
                machine,
                history,
                ends,
            })
        }
        Err(left) => {
            let NotBegun { slots, lack } = left;
            dismiss(rt, &desk, &mut root, slots, &mut back);
            let Closed {
                machine,
                history: _,
            } = desk.close(rt, root);
            Err(Unstarted {
                machine,
                lanes: back,
                lack,
            })
        }
    }
}
