//! The requests of each line that wait for an answer, and how an answer's number is matched with
//! them.
#![tactic(auto)]

ghost use Rattle.std.specs.Prelude.{◌≡◌, ◌+◌, ◌*◌, ◌<◌, ◌^◌, IfOk, [], option_copied, unwrap_or, find, filter, map, replicate, length, pos};
ghost use Rattle.request_table.specs.Rows.{new_facts, places_of, is_single_group, singles_of, new_line, is_open, open_of, last_of, single_by, single_of, next_number, capacity_of, number_after, new_place, sent_row, with_send, was_sent_by, waits_at, open_matching, matching_by, row_matching, matching_of, with_pending, answered_row, reopened_row, with_answer, with_reopened, unwritten_row, with_unwritten, with_cancel, cancelled_row, with_cancelled, ended_row, with_ended};
ghost use Rattle.request_table.specs.Stands.{Stands};

pub mod laws;

use arrayvec::ArrayVec;
use exec_journal::{Branch, Kind, Plan, PlanAction};
use plain_values::NoMemory;
use std::alloc::Global;
use std::marker::Model;

/// The result of matching an answer. The two numbers are action and attempt.
#[derive(Clone, Copy, PartialEq, Eq)]
pub enum Matching {
    /// A pending request without a Cancel.
    Pending(u32, u32),
    /// A pending request with a Cancel.
    Cancelled(u32, u32),
    /// Such a request was sent, and is no longer pending.
    Closed,
    /// No such request was sent.
    Never,
}

/// A request that was sent.
#[derive(Clone, Copy, Default, PartialEq, Eq)]
pub struct RequestRow {
    pub number: u32,
    pub action: u32,
    pub attempt: u32,
    pub pending: bool,
    pub cancelled: bool,
}

/// The requests of a line: the number of its last request, if one was sent, and the pending
/// requests, the earliest first. The request that was answered last stays among them until the
/// line's next answer or Send, so that it can be reopened.
#[derive(Drop)]
pub struct LineRow {
    pub last: Option<u32>,
    pub places: ArrayVec<RequestRow, 8>,
}

/// For the branches of an action, whether the groups that run them send one request at a time.
#[derive(Clone, Copy, PartialEq, Eq)]
pub struct Singles {
    pub local: bool,
    pub remote: bool,
}

/// The requests of a run, by line. A contract sees the facts about each line and each action.
#[derive(Drop)]
pub struct Requests {
    lines: Vec<LineRow>,
    singles: Vec<Singles>,
}

impl Model for Requests {
    ghost use Rattle.std.specs.Prelude.{◌<◌, ◌^◌, length};
    ghost use Rattle.request_table.specs.Rows.{Facts};

    ghost Value = { Facts };

    ghost view = { λ r. record { lines = r.lines.items; singles = r.singles.items } };

    ghost invariant = { λ r. length r.lines.items < 2 ^ 31 };
}

impl Requests {
    /// Creates the table of a run before any request.
    ///
    /// # Errors
    ///
    /// Returns `NoMemory` if memory runs out for one line per attempt of the plan, or if an `i32`
    /// can't number that many.
    pub fn new(alloc: Global, plan: &Plan) -> Result<Requests, NoMemory>
        ensures facts { IfOk result (λ t. t ≡ new_facts plan.now) }
        ensures stands { IfOk result (λ t. Stands plan.now t []) }
    {
        let room = line_room(plan)?;
        Ok(Requests {
            lines: new_lines(alloc, room)?,
            singles: plan_singles(alloc, plan)?,
        })
    }

    /// Notes one more pending request of the line, and returns its number. The number is 0 if the
    /// branch's group is Single, otherwise one more than the line's last.
    pub fn send(&mut self, line: u32, action: u32, branch: Branch, attempt: u32) -> i32
        requires known { line < length self.old.lines }
        requires planned { action < length self.old.singles }
        requires place { length (open_of self.old line) < capacity_of
            (single_of self.old action branch) }
        requires fewer { last_of self.old line < length self.old.lines }
        ensures number { result ≡ pos (next_number self.old line action branch) }
        ensures facts { self.new ≡ with_send self.old line action branch attempt }
    {
        let single = self.singles[action as usize].of(branch);
        let number = self.lines[line as usize].next_number(single);
        self.lines[line as usize].send(number, action, attempt);
        number as i32
    }

    /// Returns what an answer with this number finds on the line. If it finds a pending request,
    /// the request counts as answered from now on.
    pub fn answer(&mut self, line: u32, number: i32) -> Matching
        requires { line < length self.old.lines }
        ensures matching { result ≡ matching_of self.old line number }
        ensures facts { self.new ≡ with_answer self.old line number }
    {
        let Ok(number) = u32::try_from(number) else {
            return Matching::Never;
        };
        self.lines[line as usize].answer(number)
    }

    /// Notes that the request wasn't written, so it is no longer pending.
    pub fn unwritten(&mut self, line: u32, number: i32)
        requires { line < length self.old.lines }
        ensures { self.new ≡ with_unwritten self.old line number }
    {
        if let Ok(number) = u32::try_from(number) {
            self.lines[line as usize].unwritten(number);
        }
    }

    /// Takes back the line's last `answer`, which had this number and whose reply was a Breach. Its
    /// request is pending again.
    pub fn reopened(&mut self, line: u32, number: i32)
        requires { line < length self.old.lines }
        ensures { self.new ≡ with_reopened self.old line number }
    {
        if let Ok(number) = u32::try_from(number) {
            self.lines[line as usize].reopened(number);
        }
    }

    /// Notes a Cancel of the request.
    pub fn cancelled(&mut self, line: u32, number: i32)
        requires { line < length self.old.lines }
        ensures { self.new ≡ with_cancelled self.old line number }
    {
        if let Ok(number) = u32::try_from(number) {
            self.lines[line as usize].cancelled(number);
        }
    }

    /// Returns the line's requests, the earliest first: those that are pending, and possibly one
    /// that was answered.
    pub fn places(&self, line: u32) -> &[RequestRow]
        requires { line < length self.now.lines }
        ensures { result.now ≡ places_of self.now line }
    {
        &self.lines[line as usize].places
    }

    /// Notes that the line has ended: nothing of it is pending.
    pub fn ended(&mut self, line: u32)
        requires { line < length self.old.lines }
        ensures { self.new ≡ with_ended self.old line }
    {
        self.lines[line as usize].ended();
    }
}

impl LineRow {
    fn new() -> LineRow
        ensures { result ≡ new_line }
    {
        LineRow {
            last: None,
            places: ArrayVec::new(),
        }
    }

    fn next_number(&self, single: bool) -> u32
        requires { unwrap_or self.now.last 0 + 1 < 2 ^ 32 }
        ensures { result ≡ number_after single (unwrap_or self.now.last 0) }
    {
        if single {
            0
        } else {
            self.last.unwrap_or(0) + 1
        }
    }

    fn send(&mut self, number: u32, action: u32, attempt: u32)
        requires { length (filter is_open self.old.places.items) < 8 }
        ensures { self.new ≡ sent_row number action attempt self.old }
    {
        self.places.retain(|place| place.pending);
        self.places.push(RequestRow {
            number,
            action,
            attempt,
            pending: true,
            cancelled: false,
        });
        self.last = Some(number);
    }

    fn answer(&mut self, number: u32) -> Matching
        ensures matching { result ≡ row_matching number self.old }
        ensures row { self.new ≡ answered_row number self.old }
    {
        let matching = self.matching(number);
        self.places.retain(|place| place.pending);
        set_pending(&mut self.places, number, false);
        matching
    }

    fn matching(&self, number: u32) -> Matching
        ensures { result ≡ row_matching number self.now }
    {
        match waiting_at(&self.places, number) {
            Some(place) => place.matching(),
            None if was_sent(self.last, number) => Matching::Closed,
            None => Matching::Never,
        }
    }

    fn unwritten(&mut self, number: u32)
        ensures { self.new ≡ unwritten_row number self.old }
    {
        self.places.retain(|place| place.number != number);
    }

    fn reopened(&mut self, number: u32)
        ensures { self.new ≡ reopened_row number self.old }
    {
        set_pending(&mut self.places, number, true);
    }

    fn cancelled(&mut self, number: u32)
        ensures { self.new ≡ cancelled_row number self.old }
    {
        set_cancelled(&mut self.places, number);
    }

    fn ended(&mut self)
        ensures { self.new ≡ ended_row self.old }
    {
        self.places.clear();
    }
}

impl RequestRow {
    fn matching(&self) -> Matching
        ensures { result ≡ open_matching self.now }
    {
        if self.cancelled {
            Matching::Cancelled(self.action, self.attempt)
        } else {
            Matching::Pending(self.action, self.attempt)
        }
    }

    fn with_pending(self, number: u32, pending: bool) -> RequestRow
        ensures { result ≡ with_pending number pending self }
    {
        RequestRow {
            pending: if self.number == number {
                pending
            } else {
                self.pending
            },
            ..self
        }
    }

    fn with_cancel(self, number: u32) -> RequestRow
        ensures { result ≡ with_cancel number self }
    {
        RequestRow {
            cancelled: self.number == number || self.cancelled,
            ..self
        }
    }
}

impl Singles {
    fn of(self, branch: Branch) -> bool
        ensures { result ≡ single_by branch self }
    {
        match branch {
            Branch::Local => self.local,
            Branch::Remote => self.remote,
        }
    }
}

// Returns the pending request with this number.
fn waiting_at(places: &[RequestRow], number: u32) -> Option<&RequestRow>
    ensures { option_copied result ≡ find (waits_at number) places.now }
{
    places
        .iter()
        .find(|place| place.pending && place.number == number)
}

fn set_pending(places: &mut [RequestRow], number: u32, pending: bool)
    ensures { places.new ≡ map (with_pending number pending) places.old }
{
    for place in places.iter_mut() {
        *place = place.with_pending(number, pending);
    }
}

fn set_cancelled(places: &mut [RequestRow], number: u32)
    ensures { places.new ≡ map (with_cancel number) places.old }
{
    for place in places.iter_mut() {
        *place = place.with_cancel(number);
    }
}

// Returns true if a request with this number was sent, given the number of the last one.
fn was_sent(last: Option<u32>, number: u32) -> bool
    ensures { result ≡ was_sent_by last number }
{
    match last {
        None => false,
        Some(0) => number == 0,
        Some(last) => number > 0 && number <= last,
    }
}

// ---- a new table

// Returns the number of possible attempts, each of which may have a line. The numbers of as many
// requests must fit an `i32`. A table of more lines would find no memory.
fn line_room(plan: &Plan) -> Result<usize, NoMemory>
    ensures room { IfOk result (λ n. n ≡ length plan.now.actions * 2 * plan.now.limit) }
    ensures fits { IfOk result (λ n. n < 2 ^ 31) }
{
    let branches = plan
        .actions
        .as_slice()
        .len()
        .checked_mul(2)
        .ok_or(NoMemory)?;
    let room = branches.checked_mul(plan.limit as usize).ok_or(NoMemory)?;
    if room < 1 << 31 {
        Ok(room)
    } else {
        Err(NoMemory)
    }
}

fn new_lines(alloc: Global, room: usize) -> Result<Vec<LineRow>, NoMemory>
    ensures { IfOk result (λ v. v.items ≡ replicate room new_line) }
{
    let mut lines = Vec::with_capacity(alloc, room)?;
    for _ in 0..room {
        lines.push(LineRow::new())?;
    }
    Ok(lines)
}

fn plan_singles(alloc: Global, plan: &Plan) -> Result<Vec<Singles>, NoMemory>
    ensures { IfOk result (λ v. v.items ≡ map (singles_of plan.now) plan.now.actions) }
{
    let actions = plan.actions.as_slice().iter();
    Ok(
        actions
            .map(|action| singles_of(plan, action))
            .collect(alloc)?,
    )
}

fn singles_of(plan: &Plan, action: &PlanAction) -> Singles
    ensures { result ≡ singles_of plan.now action.now }
{
    Singles {
        local: is_single_group(plan, action.local),
        remote: is_single_group(plan, action.remote),
    }
}

fn is_single_group(plan: &Plan, group: Option<u32>) -> bool
    ensures { result ≡ is_single_group plan.now group }
{
    match group.and_then(|group| plan.groups.as_slice().get(group as usize)) {
        Some(group) => group.kind == Kind::Single,
        None => true,
    }
}
