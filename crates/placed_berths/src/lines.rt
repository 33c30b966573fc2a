// Facts about a berth's last line, as the tables record them.
ghost use Rattle.std.specs.Prelude.{◌≡◌, ◌*◌, ◌<◌, ◌&&◌, length};
ghost use Rattle.exec_journal.specs.Seated.{group_for};
ghost use Rattle.core_state.specs.Choices.{Reads};
ghost use Rattle.core_state.specs.Machine.{order_at};
ghost use Rattle.earliest_first.specs.Choices.{has_room};
ghost use Rattle.placed_berths.specs.Choices.{ReadsBelow};
ghost use Rattle.shared_laws.specs.Berths.{group_at, holds, is_gathering, is_launching, is_of_group, line_at, line_holds, line_is_killed, line_rests, lines_held, rests, some_free};

use core_state::State;
use core_tables::Owed;
use earliest_first::has_room;
use exec_journal::{Attempt, Branch, Plan};
use worker_pool::LineRow;

/// Returns the group of the berth's last line.
pub fn group_at(state: &State, berth: u32) -> Option<u32>
    requires { Reads state.now berth }
    ensures { result ≡ group_at state.now berth }
{
    let attempt = state.last.of(berth).attempt?;
    group_for(&state.plan, attempt)
}

// Returns the group that runs the attempt.
fn group_for(plan: &Plan, attempt: Attempt) -> Option<u32>
    ensures { result ≡ group_for plan.now attempt }
{
    let action = plan.actions.as_slice().get(attempt.action as usize)?;
    match attempt.branch {
        Branch::Local => action.local,
        Branch::Remote => action.remote,
    }
}

/// Returns the pool's row of the berth's last line.
pub fn line_at(state: &State, berth: u32) -> Option<LineRow>
    requires { Reads state.now berth }
    ensures { result ≡ line_at state.now berth }
{
    let line = state.pool.last_line(berth)?;
    Some(state.pool.line(line))
}

// Returns the last order of the berth's proxy lane.
fn order_at(state: &State, berth: u32) -> Owed
    requires lane { 2 * berth < length state.now.lanes }
    requires reads { Reads state.now berth }
    ensures { result ≡ order_at state.now (2 * berth) }
{
    state.lanes.state(2 * berth).order
}

/// Returns true if the berth's last line may still have a process.
pub fn holds(state: &State, berth: u32) -> bool
    requires lane { 2 * berth < length state.now.lanes }
    requires reads { Reads state.now berth }
    ensures { result ≡ holds state.now berth }
{
    match line_at(state, berth) {
        Some(row) => {
            is_launching(order_at(state, berth)) || row.started && !(row.ended && row.killed)
        }
        None => false,
    }
}

/// Returns true if the berth's last line is idle: it is live, nothing is pending on it or bound to
/// it, and no match of the berth waits.
pub fn rests(state: &State, berth: u32) -> bool
    requires lane { 2 * berth < length state.now.lanes }
    requires reads { Reads state.now berth }
    ensures { result ≡ rests state.now berth }
{
    line_rests(line_at(state, berth))
        && state.matches.waiting(berth).is_none()
        && !is_gathering(order_at(state, berth))
}

fn line_rests(line: Option<LineRow>) -> bool
    ensures { result ≡ line_rests line }
{
    match line {
        Some(row) => { row.started && !row.broken && !row.killed && row.pending == 0 && !row.bound }
        None => false,
    }
}

/// Returns true if the berth's last line was killed and hasn't ended.
pub fn is_killed(state: &State, berth: u32) -> bool
    requires { Reads state.now berth }
    ensures { result ≡ line_is_killed (line_at state.now berth) }
{
    match line_at(state, berth) {
        Some(row) => row.killed && !row.ended,
        None => false,
    }
}

fn is_of_group(state: &State, group: u32, berth: u32) -> bool
    requires { Reads state.now berth }
    ensures { result ≡ is_of_group state.now group berth }
{
    match group_at(state, berth) {
        Some(own) => own == group,
        None => false,
    }
}

// Returns true if the berth's last line is a live line of the group with a free place.
fn has_free(state: &State, group: u32, berth: u32) -> bool
    requires { Reads state.now berth }
    ensures { result ≡ (is_of_group state.now group berth && has_room state.now.pool berth) }
{
    is_of_group(state, group, berth) && has_room(state, berth)
}

// Returns true if the berth's last line is one of the group and may still have a process.
fn is_held(state: &State, group: u32, berth: u32) -> bool
    requires lane { 2 * berth < length state.now.lanes }
    requires reads { Reads state.now berth }
    ensures { result ≡ (is_of_group state.now group berth && holds state.now berth) }
{
    is_of_group(state, group, berth) && holds(state, berth)
}

/// Returns true if one of the first `berths` berths has a live line of the group with a free place.
pub fn some_free(state: &State, group: u32, berths: u32) -> bool
    requires { ReadsBelow berths state.now }
    ensures { result ≡ some_free state.now group berths }
{
    for berth in 0..berths {
        if has_free(state, group, berth) {
            return true;
        }
    }
    false
}

/// Returns how many of the first `berths` berths have a line of the group that may still have a
/// process.
pub fn lines_held(state: &State, group: u32, berths: u32) -> u32
    requires { ReadsBelow berths state.now }
    ensures { result ≡ lines_held state.now group berths }
{
    let mut held = 0;
    for berth in 0..berths {
        if is_held(state, group, berth) {
            held += 1;
        }
    }
    held
}

fn is_launching(order: Owed) -> bool
    ensures { result ≡ is_launching order }
{
    matches!(order, Owed::Launch { .. })
}

fn is_gathering(order: Owed) -> bool
    ensures { result ≡ is_gathering order }
{
    matches!(order, Owed::Gather { .. })
}
