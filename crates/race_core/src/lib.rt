//! The granted branch of each action, and how it was committed.
#![tactic(auto)]

ghost use Rattle.std.specs.Prelude.{◌≡◌, ◌≢◌, ◌<◌, IfOk, [], Some, length};
ghost use Rattle.race_core.specs.Rows.{new_rows, winner_of, claim_answer, claimed_row, committed_row, with_claim, with_commit};
ghost use Rattle.race_core.specs.Stands.{Stands};

pub mod laws;

use exec_journal::{Branch, Plan};
use plain_values::NoMemory;
use std::alloc::Global;
use std::marker::Model;

/// The reply to a claim.
#[derive(Clone, Copy, Debug, PartialEq, Eq)]
pub enum ClaimReply {
    /// The branch is the action's winner.
    Granted,
    /// The other branch is the action's winner.
    Lost,
}

/// The race of an action: its winner, and, once it was committed, whether the commit was complete.
#[derive(Clone, Copy, Debug, PartialEq, Eq)]
pub struct Won {
    pub winner: Option<Branch>,
    pub committed: Option<bool>,
}

/// The winners of a plan's actions. A contract sees the facts about each action as a list.
#[derive(Drop)]
pub struct Race {
    rows: Vec<Won>,
}

impl Model for Race {
    ghost use Rattle.std.specs.Prelude.{List};
    ghost use Rattle.race_core.specs.declared.Won.{Won};

    ghost Value = { List Won };

    ghost view = { λ r. r.rows.items };
}

impl Race {
    /// Creates the table of a run before any claim.
    pub fn new(alloc: Global, plan: &Plan) -> Result<Race, NoMemory>
        ensures rows { IfOk result (λ t. t ≡ new_rows plan.now) }
        ensures stands { IfOk result (λ t. Stands plan.now t []) }
    {
        let open = Won {
            winner: None,
            committed: None,
        };
        let rows = vec![in alloc; open; plan.actions.as_slice().len()]?;
        Ok(Race { rows })
    }

    /// Grants the action to the branch, unless the other branch has it.
    pub fn claim(&mut self, action: u32, branch: Branch) -> ClaimReply
        requires known { action < length self.old }
        requires unclaimed { winner_of self.old action ≢ Some branch }
        ensures answer { result ≡ claim_answer (winner_of self.old action) }
        ensures rows { self.new ≡ with_claim self.old action branch }
    {
        let row = self.rows[action as usize];
        self.rows[action as usize] = row.claimed(branch);
        row.answer()
    }

    /// Notes that the winner was committed, and whether the commit was complete.
    pub fn committed(&mut self, action: u32, done: bool)
        requires { action < length self.old }
        ensures { self.new ≡ with_commit self.old action done }
    {
        let row = self.rows[action as usize];
        self.rows[action as usize] = row.commit(done);
    }

    /// Returns the branch to which the action was granted.
    pub fn winner(&self, action: u32) -> Option<Branch>
        requires { action < length self.now }
        ensures { result ≡ winner_of self.now action }
    {
        self.rows[action as usize].winner
    }
}

impl Won {
    fn answer(self) -> ClaimReply
        ensures { result ≡ claim_answer self.winner }
    {
        match self.winner {
            None => ClaimReply::Granted,
            Some(_) => ClaimReply::Lost,
        }
    }

    fn claimed(self, branch: Branch) -> Won
        ensures { result ≡ claimed_row branch self }
    {
        match self.winner {
            None => Won {
                winner: Some(branch),
                committed: self.committed,
            },
            Some(_) => self,
        }
    }

    fn commit(self, done: bool) -> Won
        ensures { result ≡ committed_row done self }
    {
        Won {
            winner: self.winner,
            committed: Some(done),
        }
    }
}
