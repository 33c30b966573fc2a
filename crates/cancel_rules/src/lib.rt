//! The pending requests that are no longer wanted, and the next of them to cancel.
#![tactic(auto)]

ghost use Rattle.std.specs.Prelude.{◌≡◌, ◌*◌, ◌<◌, IfOk, [], ◌&&◌, not, false, option_copied, option_map, find, filter, map, replicate, length};
ghost use Rattle.cancel_rules.specs.Marks.{row, new_facts, rows_of, with_sent, with_gone, with_ended, with_ask, with_asked, with_unwanted, is_marked, is_due, cancel_of};
ghost use Rattle.cancel_rules.specs.Stands.{Stands};

pub mod laws;

use arrayvec::ArrayVec;
use exec_journal::Plan;
use plain_values::NoMemory;
use std::alloc::Global;
use std::marker::Model;

/// A pending request, and whether a Cancel was ordered for it.
#[derive(Clone, Copy, Default, PartialEq, Eq)]
pub struct RequestRow {
    pub number: i32,
    pub action: u32,
    pub asked: bool,
}

/// The pending requests of a run, by line, the earliest sent first, and the actions that no longer
/// want theirs.
#[derive(Drop)]
pub struct Cancels {
    lines: Vec<ArrayVec<RequestRow, 8>>,
    unwanted: Vec<bool>,
}

impl Model for Cancels {
    ghost use Rattle.cancel_rules.specs.Marks.{Facts};

    ghost Value = { Facts };

    ghost view = { λ c. record { lines = c.lines.items; unwanted = c.unwanted.items } };
}

impl Cancels {
    /// Creates the table of a run before any request.
    ///
    /// # Errors
    ///
    /// Returns `NoMemory` if memory runs out for one line per attempt of the plan.
    pub fn new(alloc: Global, plan: &Plan) -> Result<Cancels, NoMemory>
        ensures facts { IfOk result (λ t. t ≡ new_facts plan.now) }
        ensures stands { IfOk result (λ t. Stands plan.now t []) }
    {
        let room = line_room(plan)?;
        Ok(Cancels {
            lines: new_lines(alloc, room)?,
            unwanted: vec![in alloc; false; plan.actions.as_slice().len()]?,
        })
    }

    /// Notes one more pending request of the line.
    pub fn sent(&mut self, line: u32, number: i32, action: u32)
        requires known { line < length self.old.lines }
        requires place { length (rows_of self.old line) < 8 }
        ensures { self.new ≡ with_sent self.old line number action }
    {
        self.lines[line as usize].push(RequestRow {
            number,
            action,
            asked: false,
        });
    }

    /// Notes that the request was answered or wasn't written, so it is no longer pending.
    pub fn gone(&mut self, line: u32, number: i32)
        requires { line < length self.old.lines }
        ensures { self.new ≡ with_gone self.old line number }
    {
        self.lines[line as usize].retain(|place| place.number != number);
    }

    /// Notes that the line has ended: nothing of it is pending.
    pub fn ended(&mut self, line: u32)
        requires { line < length self.old.lines }
        ensures { self.new ≡ with_ended self.old line }
    {
        self.lines[line as usize].clear();
    }

    /// Notes a Cancel of the request.
    pub fn asked(&mut self, line: u32, number: i32)
        requires { line < length self.old.lines }
        ensures { self.new ≡ with_asked self.old line number }
    {
        set_asked(&mut self.lines[line as usize], number);
    }

    /// Returns the number of the line's earliest sent pending request that isn't wanted and has no
    /// Cancel.
    pub fn cancel_order(&self, line: u32) -> Option<i32>
        requires { line < length self.now.lines }
        ensures { result ≡ cancel_of self.now line }
    {
        let place = first_due(&self.lines[line as usize], &self.unwanted)?;
        Some(place.number)
    }

    /// Notes that the action's requests are no longer wanted.
    pub fn unwanted(&mut self, action: u32)
        requires { action < length self.old.unwanted }
        ensures { self.new ≡ with_unwanted self.old action }
    {
        self.unwanted[action as usize] = true;
    }
}

impl RequestRow {
    fn with_ask(self, number: i32) -> RequestRow
        ensures { result ≡ with_ask number self }
    {
        RequestRow {
            asked: self.number == number || self.asked,
            ..self
        }
    }
}

fn set_asked(places: &mut [RequestRow], number: i32)
    ensures { places.new ≡ map (with_ask number) places.old }
{
    for place in places.iter_mut() {
        *place = place.with_ask(number);
    }
}

// Returns the first of the places whose action is marked and that has no Cancel.
fn first_due<'a>(places: &'a [RequestRow], unwanted: &[bool]) -> Option<&'a RequestRow>
    ensures { option_copied result ≡ find (is_due unwanted.now) places.now }
{
    places
        .iter()
        .find(|place| is_marked(unwanted, place.action) && !place.asked)
}

fn is_marked(unwanted: &[bool], action: u32) -> bool
    ensures { result ≡ is_marked unwanted.now action }
{
    match unwanted.get(action as usize) {
        Some(marked) => *marked,
        None => false,
    }
}

// ---- a new table

// Returns the number of possible attempts, each of which may have a line.
fn line_room(plan: &Plan) -> Result<usize, NoMemory>
    ensures { IfOk result (λ n. n ≡ length plan.now.actions * 2 * plan.now.limit) }
{
    let branches = plan
        .actions
        .as_slice()
        .len()
        .checked_mul(2)
        .ok_or(NoMemory)?;
    branches.checked_mul(plan.limit as usize).ok_or(NoMemory)
}

fn new_lines(alloc: Global, room: usize) -> Result<Vec<ArrayVec<RequestRow, 8>>, NoMemory>
    ensures { IfOk result (λ v. v.items ≡ replicate room (row [])) }
{
    let mut lines = Vec::with_capacity(alloc, room)?;
    for _ in 0..room {
        lines.push(ArrayVec::new())?;
    }
    Ok(lines)
}
