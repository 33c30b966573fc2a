//! The lines of each berth: which of them is live, and how many places it has free.
#![tactic(auto)]

ghost use Rattle.std.specs.Prelude.{◌≡◌, ◌<◌, IfOk, [], Some, length, slice_get};
ghost use Rattle.run_plan.specs.Groups.{capacity};
ghost use Rattle.run_plan.specs.Sound.{Sound};
ghost use Rattle.worker_pool.specs.Rows.{new_facts, new_line, with_launch, change, set_started, set_broken, set_ended, set_killed, set_unbound, one_more, one_fewer, pending_of, capacity_of, last_of, is_live_row, live_of, free_in, free_of};
ghost use Rattle.worker_pool.specs.Stands.{Stands};

pub mod laws;

use exec_journal::{Kind, Plan};
use plain_values::NoMemory;
use std::alloc::Global;
use std::marker::Model;

/// The facts of a line.
#[derive(Clone, Copy, PartialEq, Eq)]
pub struct LineRow {
    /// The number of requests that it has room for.
    pub capacity: u32,
    /// It was launched with success.
    pub started: bool,
    /// Its output is no longer used.
    pub broken: bool,
    pub ended: bool,
    pub killed: bool,
    /// A branch is bound to it, which takes up a place.
    pub bound: bool,
    /// The number of requests that are pending on it.
    pub pending: u32,
}

/// The lines of a run, and the last one of each berth. Lines are numbered from 0 in the order of
/// their launches, over all berths. A contract sees the facts of each line and of each berth, and
/// the maximal number of lines.
#[derive(Drop)]
pub struct Pool {
    // The length never exceeds the capacity, which is the room for all lines that a run may launch.
    lines: Vec<LineRow>,
    // The last line of each berth.
    berths: Vec<Option<u32>>,
}

impl Model for Pool {
    ghost use Rattle.std.specs.Prelude.{◌<◌, ◌^◌, vec_capacity};
    ghost use Rattle.worker_pool.specs.Rows.{Facts};

    ghost Value = { Facts };

    ghost view = { λ a. record {
      lines = a.lines.items;
      seats = a.berths.items;
      room = vec_capacity a.lines;
    } };

    ghost invariant = { λ a. vec_capacity a.lines < 2 ^ 32 };
}

impl Pool {
    /// Makes the table of a run on `seats` berths before any launch, with room for all lines that
    /// the run may launch.
    pub fn new(alloc: Global, plan: &Plan, seats: usize) -> Result<Pool, NoMemory>
        requires { Sound plan.now }
        ensures facts { IfOk result (λ t. t ≡ new_facts plan.now seats) }
        ensures stands { IfOk result (λ t. Stands plan.now seats t []) }
    {
        let none: Option<u32> = None;
        let berths = vec![in alloc; none; seats]?;
        let room = 2 * plan.actions.as_slice().len() * plan.limit as usize;
        let lines = Vec::with_capacity(alloc, room)?;
        Ok(Pool { lines, berths })
    }

    /// Makes the next line, the last of this berth, with a branch bound to it, and returns its
    /// number. Its room for requests follows from this kind, the kind of the branch's group. Each
    /// attempt of each branch may have a separate line: there may be 2 × actions × limit of them.
    pub fn launch(&mut self, berth: u32, kind: Kind) -> u32
        requires known { berth < length self.old.seats }
        requires room { length self.old.lines < self.old.room }
        ensures line { result ≡ length self.old.lines }
        ensures facts { self.new ≡ with_launch self.old berth kind }
    {
        let line = self.lines.len() as u32;
        self.berths[berth as usize] = Some(line);
        let row = LineRow::new(capacity_of(kind));
        self.lines.push_reserved(row);
        line
    }

    /// Notes that the line was launched with success.
    pub fn started(&mut self, line: u32)
        requires { line < length self.old.lines }
        ensures { self.new ≡ change self.old line set_started }
    {
        let row = &mut self.lines[line as usize];
        row.started = true;
    }

    /// Notes that the line broke, but not by its end.
    pub fn broke(&mut self, line: u32)
        requires { line < length self.old.lines }
        ensures { self.new ≡ change self.old line set_broken }
    {
        let row = &mut self.lines[line as usize];
        row.broken = true;
    }

    /// Notes that the line has ended. So it broke, its requests are no longer pending, and nothing
    /// is bound to it.
    pub fn ended(&mut self, line: u32)
        requires { line < length self.old.lines }
        ensures { self.new ≡ change self.old line set_ended }
    {
        let row = &mut self.lines[line as usize];
        row.broken = true;
        row.ended = true;
        row.bound = false;
        row.pending = 0;
    }

    /// Notes that the line was killed.
    pub fn killed(&mut self, line: u32)
        requires { line < length self.old.lines }
        ensures { self.new ≡ change self.old line set_killed }
    {
        let row = &mut self.lines[line as usize];
        row.killed = true;
    }

    /// Notes that the branch that the line's launch bound is no longer bound.
    pub fn unbound(&mut self, line: u32)
        requires { line < length self.old.lines }
        ensures { self.new ≡ change self.old line set_unbound }
    {
        let row = &mut self.lines[line as usize];
        row.bound = false;
    }

    /// Notes that one more request is pending on the line.
    pub fn sent(&mut self, line: u32)
        requires known { line < length self.old.lines }
        requires place { pending_of self.old line < capacity_of self.old line }
        ensures { self.new ≡ change self.old line one_more }
    {
        let row = &mut self.lines[line as usize];
        prove!(row.pending < row.capacity);
        row.pending += 1;
    }

    /// Notes that one request fewer is pending on the line.
    pub fn freed(&mut self, line: u32)
        requires known { line < length self.old.lines }
        requires pending { 0 < pending_of self.old line }
        ensures { self.new ≡ change self.old line one_fewer }
    {
        let row = &mut self.lines[line as usize];
        row.pending -= 1;
    }

    /// Returns the berth's last line, if it is live.
    pub fn live(&self, berth: u32) -> Option<u32>
        requires { berth < length self.now.seats }
        ensures { result ≡ live_of self.now berth }
    {
        let line = self.last_line(berth)?;
        let row = self.lines.get(line as usize)?;
        row.is_live().then_some(line)
    }

    /// Returns how many more requests the line has room for, with the bound branch counted as one.
    pub fn free_places(&self, line: u32) -> u32
        requires { line < length self.now.lines }
        ensures { result ≡ free_of self.now line }
    {
        self.lines[line as usize].free_places()
    }

    /// Returns the berth's last line, live or not.
    pub fn last_line(&self, berth: u32) -> Option<u32>
        requires { berth < length self.now.seats }
        ensures { result ≡ last_of self.now berth }
    {
        self.berths[berth as usize]
    }

    /// Returns the facts of the line.
    pub fn line(&self, line: u32) -> LineRow
        requires { line < length self.now.lines }
        ensures { slice_get self.now.lines line ≡ Some result }
    {
        self.lines[line as usize]
    }
}

impl LineRow {
    fn new(capacity: u32) -> LineRow
        ensures { result ≡ new_line capacity }
    {
        LineRow {
            capacity,
            started: false,
            broken: false,
            ended: false,
            killed: false,
            bound: true,
            pending: 0,
        }
    }

    fn is_live(&self) -> bool
        ensures { result ≡ is_live_row self.now }
    {
        self.started && !self.broken && !self.killed
    }

    // Returns the number of free places, or 0 if more are taken than there are: a branch is bound
    // to a full line too.
    fn free_places(&self) -> u32
        ensures { result ≡ free_in self.now }
    {
        self.capacity
            .saturating_sub(self.pending)
            .saturating_sub(u32::from(self.bound))
    }
}

// Returns the number of requests that a line has room for.
fn capacity_of(kind: Kind) -> u32
    ensures { result ≡ capacity kind }
{
    match kind {
        Kind::Single => 1,
        Kind::Multi | Kind::Boxed | Kind::Remote => 8,
    }
}
