//! Jobs, each on its own thread.
ghost use Rattle.std.specs.Prelude.{◌≡◌, ◌+◌, ◌≤◌, [], length, vec_len, vec_capacity, All, IfOk, IfErr};
ghost use Rattle.std.specs.List.{AllZip, list_any};
ghost use Rattle.lane_threads.specs.Jobs.{CanRun, CanRunIfLeft, EndsAs, HasEnd, HasEnded, MayHaveEnded, IsOver, HasRoomFor, IsReady, has_end, slots_of};

use plain_values::NoMemory;
use std::alloc::Global;
use std::collections::VecDeque;
use std::snapshot::Snapshot;
use std::sync::{OnceLock, Wait};
use std::thread;
use std::thread::{Promise, PromisedHandle, Threads};

/// The work of one thread, at the same time as other threads that share the context. It knows no
/// machine. Threads are started over plain types, since the prover covers no closure that names a
/// `Desk` of a type parameter.
pub trait Job<C>: Send + Drop {
    /// The result of the job.
    type End: Send + Drop;

    // The conditions for the job to run.
    ghost can_run: { C → Self → Type 0 };

    // The relation between the job before it ran and its end.
    ghost ends: { C → Self → Self.End → Type 0 };

    /// Does the job.
    fn run<R: Threads + Wait + Sync>(self, rt: &R, context: &C) -> Self::End
        requires { can_run context.now self }
        ensures { ends context.now self result };
}

/// The resource that was lacking, if no job has begun.
#[derive(Clone, Copy, PartialEq, Eq)]
pub enum Lack {
    /// Memory.
    Memory,
    /// Threads: the system started only `started` of the `wanted` threads.
    Threads { wanted: usize, started: usize },
}

/// Jobs of which none has begun.
#[derive(Drop)]
pub struct NotBegun<J, E> {
    /// The slots, unchanged.
    pub slots: Vec<Slot<J, E>>,
    pub lack: Lack,
}

/// A job before it runs, or its end.
#[derive(Drop)]
pub enum Slot<J, E> {
    /// The job has not run.
    Ready(J),
    /// The job has run, with this end.
    Ended(E),
}

/// Returns the end of this slot's job.
pub(crate) fn end_of<J: Drop, E: Drop>(slot: Slot<J, E>) -> E
    requires { HasEnd slot }
    ensures { slot ≡ Slot.Ended result }
{
    match slot {
        Slot::Ended(end) => end,
        Slot::Ready(_) => unreachable!(),
    }
}

/// Returns the job of this slot, which has not run.
pub(crate) fn job_of<J: Drop, E: Drop>(slot: Slot<J, E>) -> J
    requires { IsReady slot }
    ensures { slot ≡ Slot.Ready result }
{
    match slot {
        Slot::Ready(job) => job,
        Slot::Ended(_) => unreachable!(),
    }
}

// Returns true if the job of some slot has run.
fn any_ended<J, E>(slots: &[Slot<J, E>]) -> bool
    ensures { result ≡ list_any has_end slots.now }
{
    slots.iter().any(|slot| has_end(slot))
}

fn has_end<J, E>(slot: &Slot<J, E>) -> bool
    ensures { result ≡ has_end slot.now }
{
    matches!(slot, Slot::Ended(_))
}

// A thread's task: run the job of this slot over this context, or leave it as it is.
#[derive(Drop)]
struct Task<C, J, E> {
    context: Snapshot<C>,
    slot: Snapshot<Slot<J, E>>,
}

impl<C, J: Job<C>> Promise<Slot<J, J::End>> for Task<C, J, J::End> {
    ghost kept_by = { λ task slot. MayHaveEnded J.ends task.context.value task.slot.value slot };
}

// Waits for the signal that tells if all threads exist, and runs the job of this slot if they do.
fn run_when_told<C, J: Job<C>, R: Threads + Wait + Sync>(
    rt: &R,
    context: &C,
    all_there: &OnceLock<bool>,
    slot: Slot<J, J::End>,
) -> Slot<J, J::End>
    requires { CanRun J.can_run context.now slot }
    ensures { MayHaveEnded J.ends context.now slot result }
{
    if *all_there.wait(rt) {
        run_one(rt, context, slot)
    } else {
        slot
    }
}

// Runs the job of this slot.
fn run_one<C, J: Job<C>, R: Threads + Wait + Sync>(
    rt: &R,
    context: &C,
    slot: Slot<J, J::End>,
) -> Slot<J, J::End>
    requires { CanRun J.can_run context.now slot }
    ensures { HasEnded J.ends context.now slot result }
{
    match slot {
        Slot::Ready(job) => Slot::Ended(job.run(rt, context)),
        Slot::Ended(end) => Slot::Ended(end),
    }
}

// A thread that does the task, and gives back its slot.
type Doing<C, J, E> = PromisedHandle<Slot<J, E>, Task<C, J, E>>;

// Takes the slots back from the threads, in order. It takes no memory.
fn join_all<C, J: Job<C>, R: Threads>(
    rt: &R,
    threads: Vec<Doing<C, J, J::End>>,
    ends: &mut Vec<Slot<J, J::End>>,
)
    requires room { HasRoomFor (vec_len threads) ends.old }
    ensures kept { (context : C) → All (IsOver context) threads.items
        → AllZip (MayHaveEnded J.ends context) (slots_of threads.items) ends.new.items }
    ensures len { vec_len ends.new ≡ vec_len threads }
    ensures capacity { vec_capacity ends.new ≡ vec_capacity ends.old }
{
    let mut rest = VecDeque::from_vec(threads);
    while let Some(thread) = rest.pop_front() {
        ends.push_reserved(thread.join(rt));
    }
}

// Runs the jobs that have not run, one after another. It takes no memory.
fn run_left<C, J: Job<C>, R: Threads + Wait + Sync>(
    rt: &R,
    context: &C,
    slots: Vec<Slot<J, J::End>>,
    ends: &mut Vec<Slot<J, J::End>>,
)
    requires left { All (CanRunIfLeft J.can_run context.now) slots.items }
    requires room { HasRoomFor (length slots.items) ends.old }
    ensures { AllZip (EndsAs J.ends context.now) slots.items ends.new.items }
{
    let mut rest = VecDeque::from_vec(slots);
    while let Some(slot) = rest.pop_front() {
        let end = match slot {
            Slot::Ready(job) => job.run(rt, context),
            Slot::Ended(end) => end,
        };
        ends.push_reserved(Slot::Ended(end));
    }
}

// Room for the threads of all slots, for the slots without a thread, for all slots that come back,
// and for their ends.
struct Room<C, J: Job<C>> {
    threads: Vec<Doing<C, J, J::End>>,
    late: Vec<Slot<J, J::End>>,
    back: Vec<Slot<J, J::End>>,
    ends: Vec<Slot<J, J::End>>,
}

fn room_for<C, J: Job<C>>(alloc: Global, count: usize) -> Result<Room<C, J>, NoMemory>
    ensures threads { IfOk result (λ r. HasRoomFor count r.threads) }
    ensures late { IfOk result (λ r. HasRoomFor count r.late) }
    ensures back { IfOk result (λ r. HasRoomFor count r.back) }
    ensures ends { IfOk result (λ r. HasRoomFor count r.ends) }
{
    Ok(Room {
        threads: Vec::with_capacity(alloc, count)?,
        late: Vec::with_capacity(alloc, count)?,
        back: Vec::with_capacity(alloc, count)?,
        ends: Vec::with_capacity(alloc, count)?,
    })
}

/// Runs the jobs of all slots, each on its own thread, and returns after all have ended. The ends
/// are in the order of the jobs.
///
/// Jobs may wait for each other. So none begins before all threads exist, and from then on this
/// function takes no memory.
///
/// # Errors
///
/// Returns `NotBegun` if memory runs out, or if the system starts no further thread. Then no job
/// was run.
pub fn run_list<C: Sync, J: Job<C>, R: Threads + Wait + Sync>(
    rt: &R,
    alloc: Global,
    context: &C,
    slots: Vec<Slot<J, J::End>>,
) -> Result<Vec<Slot<J, J::End>>, NotBegun<J, J::End>>
    requires { All (CanRun J.can_run context.now) slots.items }
    ensures ends { IfOk result (λ ends.
        AllZip (HasEnded J.ends context.now) slots.items ends.items) }
    ensures back { IfErr result (λ back. back.slots.items ≡ slots.items) }
{
    if slots.len() == 0 {
        return Ok(slots);
    }
    match room_for(alloc, slots.len()) {
        Ok(room) => run_in(rt, context, slots, room),
        Err(NoMemory) => {
            let lack = Lack::Memory;
            Err(NotBegun { slots, lack })
        }
    }
}

// Runs the jobs in this room, which is enough for all.
fn run_in<C: Sync, J: Job<C>, R: Threads + Wait + Sync>(
    rt: &R,
    context: &C,
    slots: Vec<Slot<J, J::End>>,
    room: Room<C, J>,
) -> Result<Vec<Slot<J, J::End>>, NotBegun<J, J::End>>
    requires run { All (CanRun J.can_run context.now) slots.items }
    requires threads { HasRoomFor (length slots.items) room.threads }
    requires late { HasRoomFor (length slots.items) room.late }
    requires back { HasRoomFor (length slots.items) room.back }
    requires ends { HasRoomFor (length slots.items) room.ends }
    ensures ends { IfOk result (λ ends.
        AllZip (HasEnded J.ends context.now) slots.items ends.items) }
    ensures back { IfErr result (λ back. back.slots.items ≡ slots.items) }
{
    let Room {
        mut threads,
        mut late,
        mut back,
        mut ends,
    } = room;
    let all_there = OnceLock::new();
    let told = &all_there;
    let wanted = slots.len();
    thread::scope(
        thread::scope_env(),
        rt,
        move |scope| -> Result<Vec<Slot<J, J::End>>, NotBegun<J, J::End>>
            requires { All (CanRun J.can_run context.now) slots.items
                × HasRoomFor (length slots.items) threads × HasRoomFor (length slots.items) late
                × HasRoomFor (length slots.items) back × HasRoomFor (length slots.items) ends }
            ensures { IfOk result (λ ends.
                AllZip (HasEnded J.ends context.entry.now) slots.items ends.items)
                × IfErr result (λ back. back.slots.items ≡ slots.items) }
        {
            let mut rest = VecDeque::from_vec(slots);
            while let Some(slot) = rest.pop_front() {
                if late.len() > 0 {
                    late.push_reserved(slot);
                } else {
                    let task = Task {
                        context: Snapshot::of(context),
                        slot: Snapshot::of(&slot),
                    };
                    let run = move || -> Slot<J, J::End>
                        requires { CanRun J.can_run context.now slot }
                        ensures { MayHaveEnded J.ends context.entry.now slot result }
                    { run_when_told(rt, context, told, slot) };
                    match scope.spawn_with(task, run) {
                        Ok(thread) => threads.push_reserved(thread),
                        Err(refused) => {
                            // A thread that learns that not all threads exist gives its slot back
                            // at once.
                            let _ = told.set(rt, false);
                            late.push_reserved((refused.value)());
                        }
                    }
                }
            }
            let _ = told.set(rt, late.len() == 0);
            let started = threads.len();
            join_all(rt, threads, &mut back);
            let Ok(()) = back.append(&mut late) else {
                unreachable!()
            };
            if any_ended(back.as_slice()) {
                // All have ended then: none runs before all are told to run, and no job is left to
                // run.
                run_left(rt, context, back, &mut ends);
                Ok(ends)
            } else {
                Err(NotBegun {
                    slots: back,
                    lack: Lack::Threads { wanted, started },
                })
            }
        },
    )
}
