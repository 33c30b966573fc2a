// The effect of a call in its lane's script on the tables, and what is noted of its entry.
ghost use Rattle.std.specs.Prelude.{◌≡◌, true, ◌<◌, ◌/◌, length};
ghost use Rattle.core_state.specs.Noted.{noted_if_kept};
ghost use Rattle.core_state.specs.Steps.{CanMake, is_report, made_reply, made};

use crate::State;
use core_tables::BerthGroup;
use exec_journal::{Attempt, Call, Reply};

impl State {
    /// Applies a call other than Ask and Look, which must be in the lane's script, and returns the
    /// reply.
    pub fn make(&mut self, lane: u32, seat: BerthGroup, call: &Call) -> Reply
        requires can { CanMake self.old lane seat call.now }
        requires report { is_report call.now ≡ true }
        ensures reply { result ≡ made_reply self.old lane seat call.now }
        ensures state { self.new ≡ made self.old lane seat call.now }
    {
        let berth = lane / 2;
        match call {
            Call::Ask | Call::Look(_) => unreachable!(),
            Call::Launched { line, how } => self.launched(lane, *line, *how),
            Call::Wrote { line, number, how } => self.wrote(lane, berth, *line, *number, *how),
            Call::Claim {
                action,
                branch,
                attempt,
                found,
            } => self.claim(
                Attempt {
                    action: *action,
                    branch: *branch,
                    number: *attempt,
                },
                found,
            ),
            Call::Committed { action, how, .. } => self.committed(*action, *how),
            Call::Killed { line } => self.killed(*line),
            Call::Take => self.take(berth),
            Call::Answer { line, answer } => self.answer(berth, seat, *line, answer),
            Call::Ended { line, how } => self.ended(berth, seat, *line, *how),
            Call::Tick | Call::Halt => Reply::Noted,
        }
    }

    /// Updates the per-lane tables for this call and reply, if the entry is recorded.
    pub fn note(&mut self, lane: u32, call: &Call, reply: &Reply)
        requires lane { lane < length self.old.lanes }
        requires berth { lane / 2 < length self.old.greetings }
        ensures { self.new ≡ noted_if_kept self.old lane call.now reply.now }
    {
        if reply.is_kept() {
            self.lanes.note(lane, call, reply);
            self.greetings.note(lane / 2, call, reply);
            self.halted = matches!(call, Call::Halt) || self.halted;
        }
    }
}
