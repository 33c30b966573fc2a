//! The number of ended attempts of each branch, and whether there is one more.
#![tactic(auto)]

ghost use Rattle.std.specs.Prelude.{◌≡◌, ◌+◌, ◌<◌, ◌^◌, IfOk, [], length};
ghost use Rattle.retry_rules.specs.Counts.{new_facts, ended_of, with_end, after_attempt, one_more, count_of};
ghost use Rattle.retry_rules.specs.Stands.{Stands};

pub mod laws;

use exec_journal::{Branch, Plan};
use plain_values::NoMemory;
use std::alloc::Global;
use std::marker::Model;

/// The continuation after the end of an attempt.
#[derive(Clone, Copy, Debug, PartialEq, Eq)]
pub enum After {
    /// The attempt with this number may begin.
    Again(u32),
    /// The attempt that ended was the branch's last.
    Spent,
}

/// For an action, the number of ended attempts of each of its branches.
#[derive(Clone, Copy, Debug, PartialEq, Eq)]
pub struct EndedCounts {
    pub local: u32,
    pub remote: u32,
}

/// The number of ended attempts of each branch of a plan, and the limit.
#[derive(Drop)]
pub struct Attempts {
    ended: Vec<EndedCounts>,
    limit: u32,
}

impl Model for Attempts {
    ghost use Rattle.retry_rules.specs.Counts.{Facts};

    ghost Value = { Facts };

    ghost view = { λ a. record { ended = a.ended.items; limit = a.limit } };
}

impl Attempts {
    /// Creates the table of a run before any attempt.
    pub fn new(alloc: Global, plan: &Plan) -> Result<Attempts, NoMemory>
        ensures facts { IfOk result (λ t. t ≡ new_facts plan.now) }
        ensures stands { IfOk result (λ t. Stands plan.now t []) }
    {
        let none = EndedCounts {
            local: 0,
            remote: 0,
        };
        let ended = vec![in alloc; none; plan.actions.as_slice().len()]?;
        Ok(Attempts {
            ended,
            limit: plan.limit,
        })
    }

    /// Counts one more ended attempt of the branch, regardless of how it ended, and returns whether
    /// a next one may begin. The ended attempts have the least numbers, so this one's number is
    /// their count.
    pub fn after_end(&mut self, action: u32, branch: Branch) -> After
        requires known { action < length self.old.ended }
        requires unspent { ended_of self.old action branch < self.old.limit }
        ensures answer { result ≡ after_attempt
            (ended_of self.old action branch + 1) self.old.limit }
        ensures facts { self.new ≡ with_end self.old action branch }
    {
        let limit = self.limit;
        let row = self.ended[action as usize].with_one_more(branch);
        self.ended[action as usize] = row;
        what_follows(row.of(branch), limit)
    }

    /// Returns how many attempts of the branch have ended: those with the numbers from 1 to the
    /// result.
    pub fn ended(&self, action: u32, branch: Branch) -> u32
        requires { action < length self.now.ended }
        ensures { result ≡ ended_of self.now action branch }
    {
        self.ended[action as usize].of(branch)
    }
}

impl EndedCounts {
    fn of(self, branch: Branch) -> u32
        ensures { result ≡ count_of branch self }
    {
        match branch {
            Branch::Local => self.local,
            Branch::Remote => self.remote,
        }
    }

    fn with_one_more(self, branch: Branch) -> EndedCounts
        requires { count_of branch self + 1 < 2 ^ 32 }
        ensures { result ≡ one_more branch self }
    {
        match branch {
            Branch::Local => EndedCounts {
                local: self.local + 1,
                remote: self.remote,
            },
            Branch::Remote => EndedCounts {
                local: self.local,
                remote: self.remote + 1,
            },
        }
    }
}

// Returns the continuation after the end of the attempt with this number.
fn what_follows(number: u32, limit: u32) -> After
    ensures { result ≡ after_attempt number limit }
{
    if number < limit {
        After::Again(number + 1)
    } else {
        After::Spent
    }
}
