// The matches of each berth since its last Send. Those of them that are not spent wait for a
// Gather.
ghost use Rattle.std.specs.Prelude.{◌≡◌, ◌<◌, length, IfOk, replicate, option_copied, find, map};
ghost use Rattle.core_tables.specs.Matches.{no_matches, matches_of, spend_if, spend_won, with_match, with_clear, with_spent, with_won, spent_row, won_row, is_waiting};

use arrayvec::ArrayVec;
use exec_journal::{Attempt, Branch};
use plain_values::NoMemory;
use std::alloc::Global;
use std::marker::Model;

/// A match, and whether it is spent, so that it no longer waits. It is spent if a Gather of it was
/// ordered, its request wasn't written whole, or its action has a grant.
#[derive(Clone, Copy)]
pub struct Match {
    pub line: u32,
    pub number: i32,
    pub attempt: Attempt,
    pub exit: i32,
    pub refused: bool,
    pub spent: bool,
}

// An empty place of a row.
impl Default for Match {
    fn default() -> Match {
        Match {
            line: 0,
            number: 0,
            attempt: Attempt {
                action: 0,
                branch: Branch::Local,
                number: 0,
            },
            exit: 0,
            refused: false,
            spent: false,
        }
    }
}

#[derive(Drop)]
pub struct Matches {
    rows: Vec<ArrayVec<Match, 8>>,
}

impl Model for Matches {
    ghost use Rattle.std.specs.Prelude.{List};
    ghost use Rattle.arrayvec.specs.ArrayVec.{ArrayVec};
    ghost use Rattle.core_tables.specs.declared.matches.Match.{Match};

    ghost Value = { List (ArrayVec Match) };

    ghost view = { λ a. a.rows.items };
}

impl Matches {
    pub fn new(alloc: Global, berths: usize) -> Result<Matches, NoMemory>
        ensures { IfOk result (λ t. t ≡ replicate berths no_matches) }
    {
        let mut rows = Vec::with_capacity(alloc, berths)?;
        for _ in 0..berths {
            rows.push(ArrayVec::new())?;
        }
        Ok(Matches { rows })
    }

    /// Returns the berth's earliest match that waits.
    pub fn waiting(&self, berth: u32) -> Option<Match>
        requires { berth < length self.now }
        ensures { result ≡ find is_waiting (matches_of self.now berth) }
    {
        first_waiting(&self.rows[berth as usize]).copied()
    }

    pub fn matched(&mut self, berth: u32, found: Match)
        requires known { berth < length self.old }
        requires room { length (matches_of self.old berth) < 8 }
        ensures { self.new ≡ with_match self.old berth found }
    {
        self.rows[berth as usize].push(found);
    }

    /// Notes a Send: no earlier match of the berth waits any longer.
    pub fn sent(&mut self, berth: u32)
        requires { berth < length self.old }
        ensures { self.new ≡ with_clear self.old berth }
    {
        self.rows[berth as usize].clear();
    }

    /// Notes that the match of this attempt no longer waits.
    pub fn spent(&mut self, attempt: Attempt)
        ensures { self.new ≡ with_spent self.old attempt }
    {
        spend_each(self.rows.as_mut_slice(), attempt);
    }

    /// Notes that no match of the action waits any longer.
    pub fn won(&mut self, action: u32)
        ensures { self.new ≡ with_won self.old action }
    {
        spend_all(self.rows.as_mut_slice(), action);
    }
}

impl Match {
    fn spend_if(self, attempt: Attempt) -> Match
        ensures { result ≡ spend_if attempt self }
    {
        Match {
            spent: self
                .attempt
                .is(attempt.action, attempt.branch, attempt.number)
                || self.spent,
            ..self
        }
    }

    fn spend_won(self, action: u32) -> Match
        ensures { result ≡ spend_won action self }
    {
        Match {
            spent: self.attempt.action == action || self.spent,
            ..self
        }
    }
}

fn first_waiting(found: &[Match]) -> Option<&Match>
    ensures { option_copied result ≡ find is_waiting found.now }
{
    found.iter().find(|one| !one.spent)
}

fn spend(found: &mut [Match], attempt: Attempt)
    ensures { found.new ≡ map (spend_if attempt) found.old }
{
    for one in found.iter_mut() {
        *one = one.spend_if(attempt);
    }
}

fn spend_row(found: &mut [Match], action: u32)
    ensures { found.new ≡ map (spend_won action) found.old }
{
    for one in found.iter_mut() {
        *one = one.spend_won(action);
    }
}

fn spend_all(rows: &mut [ArrayVec<Match, 8>], action: u32)
    ensures { rows.new ≡ map (won_row action) rows.old }
{
    for row in rows.iter_mut() {
        spend_row(row, action);
    }
}

fn spend_each(rows: &mut [ArrayVec<Match, 8>], attempt: Attempt)
    ensures { rows.new ≡ map (spent_row attempt) rows.old }
{
    for row in rows.iter_mut() {
        spend(row, attempt);
    }
}
