//! Lanes that fill and empty one slot.
ghost use Rattle.std.specs.Prelude.{◌≡◌, ◌<◌, ◌≤◌, ◌*◌, false, length, IfOk};
ghost use Rattle.seat_desk.specs.Turns.{NoneFrom};
ghost use Rattle.seat_desk.specs.Passes.{IsPassOf, IsSamePass, mine};
ghost use Rattle.lane_threads.specs.Lanes.{IsFresh};
ghost use Rattle.desk_machines.specs.Ends.{HasMade, HasNumber, NumberedFrom, HasEndedSo, AreCounts};
ghost use Rattle.desk_machines.specs.Slots.{is_idle, idle_not_kept, full_after};

use crate::slot::{Answer, Ask, Slot};
use lane_bells::Bells;
use lane_threads::{Caller, Crew, Lane, Question, run_crew};
use plain_values::NoMemory;
use seat_desk::{Desk, Pass};
use std::alloc::Global;
use std::sync::Wait;
use std::thread::Threads;

/// A question that is asked until it is done.
#[derive(Drop)]
pub struct Until {
    /// The call that is made.
    pub ask: Ask,
}

impl Question<Slot> for Until {
    ghost asks = { λ self. self.ask };

    ghost idles = { is_idle };

    ghost idle_is_not_kept = { λ e h. idle_not_kept e.reply h };

    fn call(&self) -> Ask {
        self.ask
    }

    fn is_idle(&self, reply: &Answer) -> bool {
        match reply {
            Answer::Done => false,
            Answer::Idle => true,
        }
    }
}

/// A lane that fills the slot.
#[derive(Drop)]
pub struct Filler {
    /// The number of its lane.
    pub number: u32,
    /// The number of times.
    pub count: usize,
}

/// A lane that empties the slot.
#[derive(Drop)]
pub struct Emptier {
    /// The number of its lane.
    pub number: u32,
    /// The number of times.
    pub count: usize,
}

/// A lane of either kind.
#[derive(Drop)]
pub enum SlotLane {
    /// It fills the slot.
    Fills(Filler),
    /// It empties the slot.
    Empties(Emptier),
}

impl SlotLane {
    // Asks `count` times, each time until it is done. Returns the number of times that it was done.
    fn ask_until<R: Wait>(
        rt: &R,
        caller: &mut Caller<'_, Slot>,
        question: &Until,
        count: usize,
    ) -> usize
        requires { IsFresh caller.old.pass }
        ensures { IsSamePass caller.old.pass caller.new.pass
            × HasMade count (mine caller.new.pass) result }
    {
        let mut made = 0;
        while made < count {
            if caller.ask(rt, question).is_err() {
                break;
            }
            made += 1;
        }
        made
    }
}

/// The result of such a lane: the number of calls that it made.
#[derive(Drop)]
pub enum SlotEnd {
    /// It filled the slot this number of times.
    Filled(usize),
    /// It emptied the slot this number of times.
    Emptied(usize),
}

impl Lane<Desk<Slot>, Pass<Slot>> for SlotLane {
    type End = SlotEnd;

    ghost may_run = { λ self desk bells pass. IsPassOf desk pass × IsFresh pass
        × (pass.lane < bells) × HasNumber pass.lane self };

    ghost has_run = { λ self pass end after. IsSamePass pass after
        × HasEndedSo self (mine after) end };

    fn run<R: Threads + Wait + Sync>(
        self,
        rt: &R,
        desk: &Desk<Slot>,
        bells: &Bells,
        pass: Pass<Slot>,
    ) -> (SlotEnd, Pass<Slot>) {
        match self {
            SlotLane::Fills(Filler { number: _, count }) => {
                let mut caller = Caller::new(desk, bells, pass);
                let question = Until { ask: Ask::Fill };
                let made = SlotLane::ask_until(rt, &mut caller, &question, count);
                (SlotEnd::Filled(made), caller.into_pass())
            }
            SlotLane::Empties(Emptier { number: _, count }) => {
                let mut caller = Caller::new(desk, bells, pass);
                let question = Until { ask: Ask::Empty };
                let made = SlotLane::ask_until(rt, &mut caller, &question, count);
                (SlotEnd::Emptied(made), caller.into_pass())
            }
        }
    }
}

// Returns `pairs` pairs of lanes, ordered by their numbers.
fn lanes_of(alloc: Global, pairs: u32, count: usize) -> Result<Vec<SlotLane>, NoMemory>
    requires { pairs ≤ 64 }
    ensures numbered { IfOk result (λ v. NumberedFrom count 0 v.items) }
    ensures count { IfOk result (λ v. length v.items ≡ 2 * pairs) }
{
    let mut lanes = Vec::new(alloc);
    for pair in 0..pairs {
        let number = 2 * pair;
        lanes.push(SlotLane::Fills(Filler { number, count }))?;
        let number = number + 1;
        lanes.push(SlotLane::Empties(Emptier { number, count }))?;
    }
    Ok(lanes)
}

/// Runs up to 64 pairs of lanes. In each pair one lane fills the slot and the other empties it, `count`
/// times each. Each end is the number of its lane's calls in the history.
///
/// # Errors
///
/// Returns `NoMemory` if [`run_crew`] starts no lane.
pub fn exchange<R: Threads + Wait + Sync>(
    rt: &R,
    alloc: Global,
    pairs: u32,
    count: usize,
) -> Result<Crew<Slot, SlotEnd>, NoMemory>
    requires { pairs ≤ 64 }
    ensures others { IfOk result (λ c. NoneFrom (2 * pairs) c.history.items) }
    ensures full { IfOk result (λ c. c.machine.full ≡ full_after false c.history.items) }
    ensures ends { IfOk result (λ c. AreCounts count 0 c.history.items c.ends.items) }
    ensures all { IfOk result (λ c. length c.ends.items ≡ 2 * pairs) }
{
    let lanes = lanes_of(alloc, pairs, count)?;
    match run_crew(rt, alloc, Slot::new(), lanes) {
        Ok(crew) => Ok(crew),
        Err(_) => Err(NoMemory),
    }
}
