// The policy, and its laws.
ghost use Rattle.std.specs.Prelude.{◌≡◌, ◌<◌, ◌*◌, ◌==◌, ◌^◌, ℕ, List, Option, Some, length, refl};
ghost use Rattle.run_plan.specs.Sound.{Sound};
ghost use Rattle.run_plan.specs.declared.plan.Plan.{Plan};
ghost use Rattle.exec_journal.specs.Entry.{Entry};
ghost use Rattle.exec_journal.specs.Legal.{after};
ghost use Rattle.core_contract.specs.Disciplines.{LegalBy};
ghost use Rattle.core_laws.specs.Stands.{Stands};
ghost use Rattle.core_tables.specs.Seats.{seat_at};
ghost use Rattle.earliest_first.specs.Choices.{ReadsOwn, choice_on};
ghost use Rattle.placed_rules.specs.declared.placed.Seating.{Seating};
ghost use Rattle.placed_rules.specs.Kept.{PlacedKept};
ghost use Rattle.placed_rules.specs.Placed.{placed, placed_discipline, seats_with, served_in, ticks_with};
ghost use Rattle.spawn_core.specs.Policies.{ReadsEach};
ghost use Rattle.placed_berths.specs.Basis.{placed_by, seating_in, ticks_in, usable_in, usable_placed};
ghost use Rattle.placed_berths.specs.Choices.{ReadsPlaced, chosen, leave_idly, own_choice, own_seat, seat_or_spare, seated, spare};
ghost use Rattle.placed_berths.specs.Due.{ReadsDue, next_in, ticked_by};
ghost use Rattle.placed_berths.specs.Laws as laws;
ghost use Rattle.placed_berths.specs.Stands.{BerthsStand, DelayStands, StandsBy};

use crate::delay::{Delay, next_due};
use crate::shared::SharedBerths;
use core_state::{Choice, State};
use core_tables::{BerthGroup, group_of_berth};
use earliest_first::{choose_next, is_busy};
use exec_journal::{Call, Kind, Plan, Reply};
use placed_rules::Placed;
use spawn_core::{EarliestFirst, Policy};

/// The berths of a policy.
#[derive(Drop)]
pub enum Berths {
    /// Each group has berths of its own.
    Own,
    /// The groups of pools share the pools' berths.
    Shared(SharedBerths),
}

/// The policy of a plan on its berths. On a line, the earliest due action of its group goes first.
/// On a free berth, the earliest due action of a group that needs a line goes first. An action is
/// due if it is queued; with Ticks, a local branch must also have waited for them.
#[derive(Drop)]
pub struct PlacedBerths {
    pub(crate) seating: Berths,
    pub(crate) delay: Option<Delay>,
}

impl Policy for PlacedBerths {
    type Basis = Placed;

    ghost blank = { laws.nothing };

    ghost basis = { placed_by };

    ghost discipline = { λ b. placed_discipline (usable_placed b) };

    ghost stands = { StandsBy };

    ghost reads = { ReadsPlaced };

    ghost kept = { λ b. PlacedKept (usable_placed b) };

    ghost seated = { seated };

    ghost chosen = { chosen };

    ghost ticked = { λ m s. ticked_by m.delay s };

    // With Ticks there is one berth more, whose proxy lane makes them.
    fn berths(&self, plan: &Plan) -> u32 {
        let count = self.served(plan);
        match &self.delay {
            Some(_) => count + 1,
            None => count,
        }
    }

    fn seat(&self, state: &State, berth: u32) -> Option<BerthGroup> {
        match &self.seating {
            Berths::Own => own_seat(&self.delay, state, berth),
            Berths::Shared(shared) => shared.seat(&self.delay, state, berth),
        }
    }

    fn choose(&self, state: &State, berth: u32) -> Choice {
        match &self.seating {
            Berths::Own => choose_own(&self.delay, state, berth),
            Berths::Shared(shared) => shared.choose(&self.delay, state, berth),
        }
    }

    fn ticks(&self, plan: &Plan, lane: u32) -> bool {
        self.delay.is_some() && lane == 2 * self.served(plan)
    }

    // Returns Idle if no lane makes Ticks.
    fn tick(&self, state: &State) -> Reply {
        match &self.delay {
            Some(delay) => delay.answer_tick(state),
            None => Reply::Idle,
        }
    }

    fn note(&mut self, state: &State, lane: u32, call: &Call, reply: &Reply) {
        note_word(&mut self.seating, lane, call, reply);
        note_tick(&mut self.delay, state, lane, call, reply);
    }

    ghost is_discipline = { laws.is_placed };

    ghost few_berths = { laws.few_berths };

    ghost basis_is = { laws.basis_is };

    ghost plan_is = { λ m plan. refl };

    ghost reads_are = { λ b m s j st own. laws.reads_are b m s j st own };

    ghost seats_are = { λ b m s j w st own lt. laws.seats_are b m s j w st own lt };

    ghost choices_are = { λ b m s j lane st own may. laws.choices_are b m s j lane st own may };

    ghost ticks_are = { λ b m s j lane st own yes. laws.ticks_are b m s j lane st own yes };

    ghost kept_is = { laws.kept_is };
}

impl PlacedBerths {
    // Returns the number of berths that have a proxy lane and a tap lane.
    fn served(&self, plan: &Plan) -> u32
        requires { Sound plan.now }
        ensures { result ≡ served_in plan.now (usable_in plan.now (seating_in self.now.seating)) }
    {
        match &self.seating {
            Berths::Own => EarliestFirst.berths(plan),
            Berths::Shared(shared) => shared.berths(),
        }
    }
}

// ---- on own berths

// Returns what is at the berth. No line is ever launched after the plan's berths, so an answer
// there is about no line.
fn own_seat(delay: &Option<Delay>, state: &State, berth: u32) -> Option<BerthGroup>
    requires { length state.now.plan.groups < 2 ^ 32 }
    ensures { result ≡ own_seat delay.now state.now berth }
{
    match group_of_berth(&state.plan, berth) {
        Some(seat) => Some(seat),
        None if delay.is_some() => Some(spare(&state.plan)),
        None => None,
    }
}

// Returns a berth after the plan's, of no group.
fn spare(plan: &Plan) -> BerthGroup
    requires { length plan.now.groups < 2 ^ 32 }
    ensures { result ≡ spare plan.now }
{
    BerthGroup {
        group: plan.groups.as_slice().len() as u32,
        first: 0,
        berths: 0,
        kind: Kind::Single,
        cancel: false,
    }
}

fn choose_own(delay: &Option<Delay>, state: &State, berth: u32) -> Choice
    requires berths { ReadsEach state.now }
    requires due { ReadsDue delay.now state.now }
    ensures { result ≡ own_choice delay.now state.now berth }
{
    match group_of_berth(&state.plan, berth) {
        Some(seat) => choose_at(delay, state, berth, seat),
        None => leave(state),
    }
}

// Returns the decision on a berth of this group. The group's next attempt is searched for only if
// it may go there.
fn choose_at(delay: &Option<Delay>, state: &State, berth: u32, seat: BerthGroup) -> Choice
    requires due { ReadsDue delay.now state.now }
    requires reads { ReadsOwn state.now berth }
    requires seated { seat_at state.now.plan berth ≡ Some seat }
    ensures { result ≡ choice_on state.now berth seat (next_in delay.now state.now seat.group) }
{
    if is_busy(state, berth) {
        return Choice::Idle;
    }
    choose_next(
        state,
        berth,
        seat,
        next_due(delay, state, berth, seat.group),
    )
}

// Returns the decision for the Ask of a lane whose berth never has a line.
fn leave(state: &State) -> Choice
    ensures { result ≡ leave_idly state.now }
{
    if state.is_over() {
        Choice::Stop
    } else {
        Choice::Idle
    }
}

// ---- notes

// Notes that the berth of the lane has sent a message, if the call reports one.
fn note_word(seating: &mut Berths, lane: u32, call: &Call, reply: &Reply)
    ensures basis { seating_in seating.new ≡ seating_in seating.old }
    ensures stands { (p : Plan) (y : Seating) (ticks : Option ℕ) (j : List Entry)
        → BerthsStand p y seating.old j
        → LegalBy (placed_discipline (placed p (usable_in p y) ticks))
        (after j lane call.now reply.now)
        → BerthsStand p y seating.new (after j lane call.now reply.now) }
{
    if let Berths::Shared(shared) = seating {
        shared.note(lane, call, reply);
    }
}

// Notes a Tick, or an attempt that a lane is told to begin.
fn note_tick(delay: &mut Option<Delay>, state: &State, lane: u32, call: &Call, reply: &Reply)
    ensures basis { ticks_in delay.new ≡ ticks_in delay.old }
    ensures stands { (p : Plan) (ticks : Option ℕ) (seats : ℕ) (j : List Entry)
        → DelayStands p ticks delay.old j
        → Stands p seats state.now (after j lane call.now reply.now)
        → DelayStands p ticks delay.new (after j lane call.now reply.now) }
{
    if let Some(delay) = delay {
        delay.note(state, call, reply);
    }
}
