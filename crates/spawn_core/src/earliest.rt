//! The policy of a plan whose groups have their own berths.
ghost use Rattle.std.specs.Prelude.{refl};
ghost use Rattle.exec_journal.specs.Kept.{Kept};
ghost use Rattle.exec_journal.specs.declared.reply.Reply.TheVariants as reply;
ghost use Rattle.core_contract.specs.Disciplines.{own_discipline};
ghost use Rattle.core_tables.specs.Seats.{seat_at};
ghost use Rattle.earliest_first.specs.Choices.{chosen};
ghost use Rattle.spawn_core.specs.Earliest as laws;
ghost use Rattle.spawn_core.specs.Plans.{no_plan};
ghost use Rattle.spawn_core.specs.Policies.{ReadsEach};

use crate::lanes::all_berths;
use crate::policy::Policy;
use core_state::{Choice, State};
use core_tables::{BerthGroup, group_of_berth};
use earliest_first::choose;
use exec_journal::{Call, Plan, Reply};

/// Orders the earliest queued action of the berth's group first, on the plan's own berths. The
/// policy has no tables.
#[derive(Drop)]
pub struct EarliestFirst;

impl Policy for EarliestFirst {
    type Basis = Plan;

    ghost blank = { no_plan };

    ghost basis = { λ _ plan. plan };

    ghost discipline = { own_discipline };

    ghost stands = { λ _ _ _. Unit {0} };

    ghost reads = { λ _ s. ReadsEach s };

    ghost kept = { Kept };

    ghost seated = { λ _ s w. seat_at s.plan w };

    ghost chosen = { λ _ s w. chosen s w };

    ghost ticked = { λ _ _. reply.Idle };

    fn berths(&self, plan: &Plan) -> u32 {
        all_berths(plan.groups.as_slice())
    }

    fn seat(&self, state: &State, berth: u32) -> Option<BerthGroup> {
        group_of_berth(&state.plan, berth)
    }

    fn choose(&self, state: &State, berth: u32) -> Choice {
        choose(state, berth)
    }

    fn ticks(&self, _plan: &Plan, _lane: u32) -> bool {
        false
    }

    // Returns Idle: no lane makes Ticks.
    fn tick(&self, _state: &State) -> Reply {
        Reply::Idle
    }

    fn note(&mut self, _state: &State, _lane: u32, _call: &Call, _reply: &Reply) {}

    ghost is_discipline = { laws.own_is };

    ghost few_berths = { laws.few_berths };

    ghost basis_is = { λ b m j own. refl };

    ghost plan_is = { λ m plan. refl };

    ghost reads_are = { λ b m s j st own. laws.reads_each b s j st };

    ghost seats_are = { λ b m s j w st own lt. laws.seats_are b s j w st lt };

    ghost choices_are = { λ b m s j lane st own may. laws.choices_are b s j lane st may };

    ghost ticks_are = { λ b m s j lane st own ticks. laws.ticks_are b j lane ticks };

    ghost kept_is = { laws.kept_is };
}
