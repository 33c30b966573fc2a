// The decision for an Ask.
ghost use Rattle.std.specs.Prelude.{◌≡◌};
ghost use Rattle.core_state.specs.Choices.{is_over};

use crate::State;
use core_tables::Match;
use exec_journal::{Attempt, Why};

/// The decision for an Ask. The policy makes it from the tables; [`State::carry_out`] applies it.
#[derive(Clone, Copy)]
pub enum Choice {
    Stop,
    Kill { line: u32, why: Why },
    Gather(Match),
    Cancel { line: u32, number: i32 },
    /// Send a request for this attempt: the one bound to the line, or a new one.
    Send { line: u32, attempt: Attempt },
    Launch(Attempt),
    Idle,
}

impl State {
    /// Returns true if every action is settled or a lane has halted.
    pub fn is_over(&self) -> bool
        ensures { result ≡ is_over self.now }
    {
        self.ready.all_settled() || self.halted
    }
}
