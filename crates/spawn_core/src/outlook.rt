// The outlook of a lane before it calls.
ghost use Rattle.std.specs.Prelude.{◌≡◌, ◌<◌, ◌/◌, not, is_some};
ghost use Rattle.run_plan.specs.declared.plan.Kind.{Kind};
ghost use Rattle.run_plan.specs.Sound.{Sound};
ghost use Rattle.core_state.specs.Choices.{Reads};
ghost use Rattle.core_state.specs.Machine.{takeable};
ghost use Rattle.core_contract.specs.News.{question};
ghost use Rattle.spawn_core.specs.Outlook.{is_idle, told_by};
ghost use Rattle.spawn_core.specs.Turns.{may_make, orders_of};

use crate::policy::Policy;
use core_state::{Choice, State};
use exec_journal::Reply;

/// Returns true if the lane may make the call of a lane that owes nothing: a Tick if the lane makes
/// Ticks, otherwise Ask for a proxy lane and Take for a tap lane. The kind of the berth's lines
/// doesn't matter for that.
pub fn may_question<P: Policy>(policy: &P, state: &State, lane: u32) -> bool
    requires { Sound state.now.plan }
    ensures { (kind : Kind) → result ≡ may_make state.now kind
        ((P.discipline (P.basis policy.now state.now.plan)).ticks lane) lane
        (question (P.discipline (P.basis policy.now state.now.plan)).ticks lane) }
{
    if lane % 2 == 0 {
        state.lanes.may_ask(lane)
    } else {
        state.lanes.may_take(lane) && !policy.ticks(&state.plan, lane)
    }
}

/// Returns true if the reply to a lane that may ask would be anything but Idle.
pub fn is_awaited<P: Policy>(policy: &P, state: &State, lane: u32) -> bool
    requires there { P.reads policy.now state.now }
    requires berth { lane / 2 < (P.discipline (P.basis policy.now state.now.plan)).seats }
    requires reads { Reads state.now (lane / 2) }
    requires sound { Sound state.now.plan }
    ensures { result ≡ not (is_idle (told_by state.now
        (orders_of P.chosen P.ticked policy.now state.now lane)
        ((P.discipline (P.basis policy.now state.now.plan)).ticks lane) lane)) }
{
    if policy.ticks(&state.plan, lane) {
        !matches!(policy.tick(state), Reply::Idle)
    } else if lane % 2 == 0 {
        !matches!(policy.choose(state, lane / 2), Choice::Idle)
    } else {
        may_take(state, lane / 2) || state.is_over()
    }
}

// Returns true if the berth's last line was launched with success and not yet given to a tap lane.
fn may_take(state: &State, berth: u32) -> bool
    requires { Reads state.now berth }
    ensures { result ≡ is_some (takeable state.now berth) }
{
    match state.pool.last_line(berth) {
        Some(line) => state.pool.line(line).started && !state.last.of(berth).taken,
        None => false,
    }
}
