//! The next order on a plan's own berths. If a line may be given something new, it gets the next
//! branch of its berth's group. If no live line of the group has a free place, a line is launched
//! for that branch.
//!
//! [`choose`] takes the earliest queued action of the group. [`choose_next`] receives the next
//! attempt from its caller. [`choose_first`] contains the rules that don't depend on where new
//! lines are launched.
#![tactic(auto)]

ghost use Rattle.std.specs.Prelude.{◌≡◌, ◌<◌, Some, true, length, slice_get};
ghost use Rattle.exec_journal.specs.Words.{why_of};
ghost use Rattle.worker_pool.specs.Rows.{is_live_row, last_of};
ghost use Rattle.core_tables.specs.Seats.{seat_at};
ghost use Rattle.core_state.specs.Choices.{Reads, row_at, cause_at};
ghost use Rattle.earliest_first.specs.Busy.{IsBusy, is_at_rest, is_full};
ghost use Rattle.earliest_first.specs.Choices.{ReadsOwn, leave_by, kill_by, unwanted_by, may_cancel_by, cancel_by, earliest_of, send_by, has_room, some_room, launch_by, first_with, first_without, first_choice, is_vacant, choice_on, chosen, is_runner, is_vacant_row};

pub mod laws;

use core_state::{Choice, State};
use core_tables::{BerthGroup, group_of_berth};
use exec_journal::{Attempt, Cause, Kind, Why};
use worker_pool::LineRow;

/// Returns the decision for the Ask of this berth's proxy lane.
pub fn choose(state: &State, berth: u32) -> Choice
    requires { ReadsOwn state.now berth }
    ensures { result ≡ chosen state.now berth }
{
    if is_busy(state, berth) {
        return Choice::Idle;
    }
    match group_of_berth(&state.plan, berth) {
        Some(seat) => choose_next(state, berth, seat, earliest(state, berth, seat.group)),
        None => Choice::Idle,
    }
}

/// Returns true if the berth's last line is live and full, and nothing is due on it. Then no rule
/// applies on the berth, whatever its group and the group's next attempt are.
pub fn is_busy(state: &State, berth: u32) -> bool
    requires { Reads state.now berth }
    ensures { result ≡ true → IsBusy state.now berth }
{
    match state.pool.last_line(berth) {
        Some(line) => is_full(state, line) && is_at_rest(state, berth, line),
        None => false,
    }
}

// Returns true if the line is live, no attempt is bound to it, and it has no free place.
fn is_full(state: &State, line: u32) -> bool
    requires { line < length state.now.pool.lines }
    ensures { result ≡ is_full state.now line (row_at state.now line) }
{
    let row = state.pool.line(line);
    is_live(row) && !row.bound && state.pool.free_places(line) == 0
}

// Returns true if a berth with this last line has nothing to quit, to kill, to gather or to cancel.
fn is_at_rest(state: &State, berth: u32, line: u32) -> bool
    requires reads { Reads state.now berth }
    requires line { line < length state.now.cancels.lines }
    ensures { result ≡ is_at_rest state.now berth line }
{
    !state.is_over()
        && state.last.of(berth).cause.is_none()
        && state.cancels.cancel_order(line).is_none()
        && state.matches.waiting(berth).is_none()
}

/// Returns the decision on a berth of this group, if `next` is the group's next attempt.
pub fn choose_next(state: &State, berth: u32, seat: BerthGroup, next: Option<Attempt>) -> Choice
    requires reads { ReadsOwn state.now berth }
    requires seated { seat_at state.now.plan berth ≡ Some seat }
    ensures { result ≡ choice_on state.now berth seat next }
{
    if let Some(choice) = choose_first(state, berth, seat, next) {
        return choice;
    }
    if is_vacant(state, berth) {
        return launch_next(state, berth, seat, next);
    }
    Choice::Idle
}

/// Returns the decision by the first rules, regardless of the launches. They are: quit, kill a
/// broken line, kill an unwanted request's line, gather, cancel, send. The seat contains the kind,
/// the group and the cancellation of the berth's last line, and `next` is that group's next
/// attempt. Returns `None` if no rule applies.
pub fn choose_first(
    state: &State,
    berth: u32,
    seat: BerthGroup,
    next: Option<Attempt>,
) -> Option<Choice>
    requires { Reads state.now berth }
    ensures { result ≡ first_choice state.now berth seat next }
{
    match state.pool.last_line(berth) {
        Some(line) => first_with(state, berth, seat, next, line),
        None => first_without(state, berth),
    }
}

/// Returns true if the berth has no line, or if its last line failed to launch, or has ended and
/// was killed.
pub fn is_vacant(state: &State, berth: u32) -> bool
    requires { Reads state.now berth }
    ensures { result ≡ is_vacant state.now berth }
{
    match state.pool.last_line(berth) {
        Some(line) => is_vacant_row(state.pool.line(line)),
        None => true,
    }
}

fn first_without(state: &State, berth: u32) -> Option<Choice>
    requires { Reads state.now berth }
    ensures { result ≡ first_without state.now berth }
{
    if state.is_over() {
        return Some(Choice::Stop);
    }
    let found = state.matches.waiting(berth)?;
    Some(Choice::Gather(found))
}

fn first_with(
    state: &State,
    berth: u32,
    seat: BerthGroup,
    next: Option<Attempt>,
    line: u32,
) -> Option<Choice>
    requires reads { Reads state.now berth }
    requires last { last_of state.now.pool berth ≡ Some line }
    ensures { result ≡ first_with state.now berth seat next line (row_at state.now line) }
{
    let row = state.pool.line(line);
    if state.is_over() {
        return Some(leave(line, row));
    }
    if let Some(kill) = kill_broken(state, berth, line, row) {
        return Some(kill);
    }
    if is_unwanted(state, seat, line, row) {
        return Some(Choice::Kill {
            line,
            why: Why::Unwanted,
        });
    }
    if let Some(found) = state.matches.waiting(berth) {
        return Some(Choice::Gather(found));
    }
    if let Some(cancel) = cancel_next(state, berth, seat, line, row) {
        return Some(cancel);
    }
    send_next(state, berth, next, line, row)
}

fn kill_broken(state: &State, berth: u32, line: u32, row: LineRow) -> Option<Choice>
    requires { Reads state.now berth }
    ensures { result ≡ kill_by line row (cause_at state.now berth) }
{
    if !is_runner(row) {
        return None;
    }
    let cause = state.last.of(berth).cause?;
    Some(Choice::Kill {
        line,
        why: why_of(cause),
    })
}

// Returns true if the line is Single without cancellation, and a pending request of it isn't
// wanted.
fn is_unwanted(state: &State, seat: BerthGroup, line: u32, row: LineRow) -> bool
    requires { line < length state.now.cancels.lines }
    ensures { result ≡ unwanted_by state.now seat line row }
{
    is_runner(row)
        && seat.kind == Kind::Single
        && !seat.cancel
        && state.cancels.cancel_order(line).is_some()
}

fn cancel_next(
    state: &State,
    berth: u32,
    seat: BerthGroup,
    line: u32,
    row: LineRow,
) -> Option<Choice>
    requires line { line < length state.now.cancels.lines }
    requires berth { berth < length state.now.greetings }
    ensures { result ≡ cancel_by state.now berth seat line row }
{
    if !is_live(row) || !may_cancel(state, berth, seat) {
        return None;
    }
    let number = state.cancels.cancel_order(line)?;
    Some(Choice::Cancel { line, number })
}

// Returns true if the line's group has cancellation, or if it is an executor's line that has sent
// its greeting.
fn may_cancel(state: &State, berth: u32, seat: BerthGroup) -> bool
    requires { berth < length state.now.greetings }
    ensures { result ≡ may_cancel_by state.now berth seat }
{
    seat.cancel || seat.kind == Kind::Remote && state.greetings.of(berth).greeted
}

fn send_next(
    state: &State,
    berth: u32,
    next: Option<Attempt>,
    line: u32,
    row: LineRow,
) -> Option<Choice>
    requires reads { Reads state.now berth }
    requires row { slice_get state.now.pool.lines line ≡ Some row }
    ensures { result ≡ send_by state.now berth next line row }
{
    if !is_live(row) {
        return None;
    }
    if row.bound {
        let attempt = state.last.of(berth).attempt?;
        return Some(Choice::Send { line, attempt });
    }
    if state.pool.free_places(line) == 0 {
        return None;
    }
    let attempt = next?;
    Some(Choice::Send { line, attempt })
}

fn launch_next(state: &State, berth: u32, seat: BerthGroup, next: Option<Attempt>) -> Choice
    requires reads { ReadsOwn state.now berth }
    requires seated { seat_at state.now.plan berth ≡ Some seat }
    ensures { result ≡ launch_by state.now seat next }
{
    if some_room(state, berth, seat) {
        return Choice::Idle;
    }
    match next {
        Some(attempt) => Choice::Launch(attempt),
        None => Choice::Idle,
    }
}

/// Returns the next attempt of the group's queued branch of the least action.
pub fn earliest(state: &State, berth: u32, group: u32) -> Option<Attempt>
    requires { Reads state.now berth }
    ensures { result ≡ earliest_of state.now group }
{
    match state.ready.earliest(group) {
        Some((action, branch)) => Some(Attempt {
            action,
            branch,
            number: state.attempts.ended(action, branch) + 1,
        }),
        None => None,
    }
}

// Returns true if some live line of the group has a free place.
fn some_room(state: &State, berth: u32, seat: BerthGroup) -> bool
    requires reads { ReadsOwn state.now berth }
    requires seated { seat_at state.now.plan berth ≡ Some seat }
    ensures { result ≡ some_room state.now.pool seat.first seat.berths }
{
    for number in 0..seat.berths {
        if has_room(state, seat.first + number) {
            return true;
        }
    }
    false
}

/// Returns true if the berth's last line is live and has a free place.
pub fn has_room(state: &State, berth: u32) -> bool
    requires { berth < length state.now.pool.seats }
    ensures { result ≡ has_room state.now.pool berth }
{
    match state.pool.live(berth) {
        Some(line) => state.pool.free_places(line) > 0,
        None => false,
    }
}

fn leave(line: u32, row: LineRow) -> Choice
    ensures { result ≡ leave_by line row }
{
    if is_runner(row) {
        Choice::Kill {
            line,
            why: Why::Quit,
        }
    } else {
        Choice::Stop
    }
}

fn is_live(row: LineRow) -> bool
    ensures { result ≡ is_live_row row }
{
    row.started && !row.broken && !row.killed
}

fn is_runner(row: LineRow) -> bool
    ensures { result ≡ is_runner row }
{
    row.started && !row.killed
}

// Returns true if the line failed to launch, or has ended and was killed.
fn is_vacant_row(row: LineRow) -> bool
    ensures { result ≡ is_vacant_row row }
{
    !row.started || row.ended && row.killed
}

fn why_of(cause: Cause) -> Why
    ensures { result ≡ why_of cause }
{
    match cause {
        Cause::Breach => Why::Breach,
        Cause::Feed => Why::Feed,
        _ => Why::Ended,
    }
}
