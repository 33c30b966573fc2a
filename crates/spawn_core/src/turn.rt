// One call of a lane.
ghost use Rattle.std.specs.Prelude.{◌≡◌, ◌<◌, ◌/◌, List, Some, length, true, false};
ghost use Rattle.run_plan.specs.declared.plan.Plan.{Plan};
ghost use Rattle.run_plan.specs.Sound.{Sound};
ghost use Rattle.exec_journal.specs.Entry.{Entry};
ghost use Rattle.exec_journal.specs.Entries.{is_look};
ghost use Rattle.exec_journal.specs.Legal.{after};
ghost use Rattle.spawn_core.specs.Answers.{Replies, answer_by};
ghost use Rattle.spawn_core.specs.Looks.{ToldLook};
ghost use Rattle.spawn_core.specs.Stands.{HasJournal, TablesStand};
ghost use Rattle.spawn_core.specs.Turns.{CanTurn, may_make, orders_of, turned, turned_reply};

use crate::policy::Policy;
use core_state::State;
use core_tables::{BerthGroup, Files, Owed};
use exec_journal::{Call, Reply, Wanted};

/// Returns the reply to a lane's call, and updates the tables.
pub fn step<P: Policy>(
    policy: &mut P,
    state: &mut State,
    files: &mut Files,
    lane: u32,
    call: &Call,
) -> Reply
    requires { HasJournal P.discipline P.stands policy.old state.old }
    ensures basis { (plan : Plan) → P.basis policy.new plan ≡ P.basis policy.old plan }
    ensures reply { (b : P.Basis) (j : List Entry)
        → TablesStand (P.discipline b) (P.stands b policy.old) state.old files.old j
        → Replies (answer_by (P.discipline b) j lane call.now) result }
    ensures stands { (b : P.Basis) (j : List Entry)
        → TablesStand (P.discipline b) (P.stands b policy.old) state.old files.old j
        → TablesStand (P.discipline b) (P.stands b policy.new) state.new files.new
        (after j lane call.now result) }
{
    match policy.seat(state, lane / 2) {
        Some(seat) if may_make(policy, state, seat, lane, call) => {
            in_script(policy, state, files, lane, seat, call)
        }
        _ => Reply::Astray,
    }
}

// Returns true if the lane may make the call, given this group at its berth. A lane that makes Ticks
// may make one whenever it may ask.
fn may_make<P: Policy>(policy: &P, state: &State, seat: BerthGroup, lane: u32, call: &Call) -> bool
    requires { Sound state.now.plan }
    ensures { result ≡ may_make state.now seat.kind
        ((P.discipline (P.basis policy.now state.now.plan)).ticks lane) lane call.now }
{
    if matches!(call, Call::Tick) && policy.ticks(&state.plan, lane) {
        state.lanes.allows(&state.plan, seat.kind, lane, &Call::Ask)
    } else {
        state.lanes.allows(&state.plan, seat.kind, lane, call)
    }
}

// Makes a call that is in its lane's script.
fn in_script<P: Policy>(
    policy: &mut P,
    state: &mut State,
    files: &mut Files,
    lane: u32,
    seat: BerthGroup,
    call: &Call,
) -> Reply
    requires journal { HasJournal P.discipline P.stands policy.old state.old }
    requires seated { P.seated policy.old state.old (lane / 2) ≡ Some seat }
    requires allowed { may_make state.old seat.kind
        ((P.discipline (P.basis policy.old state.old.plan)).ticks lane) lane call.now ≡ true }
    ensures basis { (plan : Plan) → P.basis policy.new plan ≡ P.basis policy.old plan }
    ensures reply { (b : P.Basis) (j : List Entry)
        → TablesStand (P.discipline b) (P.stands b policy.old) state.old files.old j
        → Replies (answer_by (P.discipline b) j lane call.now) result }
    ensures stands { (b : P.Basis) (j : List Entry)
        → TablesStand (P.discipline b) (P.stands b policy.old) state.old files.old j
        → TablesStand (P.discipline b) (P.stands b policy.new) state.new files.new
        (after j lane call.now result) }
{
    if let Call::Look(wanted) = call {
        return look(state, files, lane, wanted);
    }
    let reply = make(policy, state, lane, seat, call);
    files.keep(&state.plan, call, &reply);
    state.note(lane, call, &reply);
    policy.note(state, lane, call, &reply);
    reply
}

// Makes any call but a Look.
fn make<P: Policy>(policy: &P, state: &mut State, lane: u32, seat: BerthGroup, call: &Call) -> Reply
    requires there { P.reads policy.now state.old }
    requires berth { lane / 2 < (P.discipline (P.basis policy.now state.old.plan)).seats }
    requires can { CanTurn state.old lane seat
        (orders_of P.chosen P.ticked policy.now state.old lane) call.now }
    requires no_look { is_look call.now ≡ false }
    ensures reply { result ≡ turned_reply state.old lane seat
        (orders_of P.chosen P.ticked policy.now state.old lane) call.now }
    ensures state { state.new ≡ turned state.old lane seat
        (orders_of P.chosen P.ticked policy.now state.old lane) call.now }
{
    match call {
        Call::Ask => {
            let choice = policy.choose(state, lane / 2);
            state.carry_out(lane / 2, choice)
        }
        Call::Tick => policy.tick(state),
        _ => state.make(lane, seat, call),
    }
}

// Answers a Look. The output is one that an action made, or one in the answer that the lane must
// gather.
fn look(state: &State, files: &Files, lane: u32, wanted: &Wanted) -> Reply
    requires { lane < length state.now.lanes }
    ensures { ToldLook state.now files.now lane wanted.now result }
{
    match wanted {
        Wanted::Made { action, output } => files.made(*action, *output),
        Wanted::Answered { output, .. } => match state.lanes.state(lane).order {
            Owed::Gather { attempt, .. } => {
                files.answered(attempt.action, attempt.branch, *output)
            }
            _ => Reply::NoFile,
        },
    }
}
