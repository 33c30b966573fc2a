//! A machine with one slot, which is filled and emptied in turn.
ghost use Rattle.std.specs.Prelude.{◌≡◌, ◌+◌, ℕ, List, true, false, if◌then◌else◌};
ghost use Rattle.std.proofs.Common.{rules};
ghost use Rattle.desk_machines.specs.Slots.{full_after, answer_to, is_done, fills};

use crate::nothing::Nothing;
use seat_desk::Machine;

/// The call of a lane.
#[derive(Drop, Clone, Copy)]
pub enum Ask {
    /// Fills the slot.
    Fill,
    /// Empties the slot.
    Empty,
}

/// The reply to a call.
#[derive(Drop, Clone, Copy)]
pub enum Answer {
    /// It is done.
    Done,
    /// It can't be done now.
    Idle,
}

/// The slot.
#[derive(Drop)]
pub struct Slot {
    full: bool,
}

impl Slot {
    /// Returns an empty slot.
    pub fn new() -> Slot
        ensures { result.full ≡ false }
    {
        Slot { full: false }
    }
}

impl Machine for Slot {
    type Call = Ask;

    type Reply = Answer;

    type Good = Nothing;

    type Basis = Nothing;

    ghost basis = { λ m. record {} };

    ghost blank = { record {} };

    ghost stands = { λ m h. m.full ≡ full_after false h };

    ghost next = { λ q h lane c. answer_to (full_after false h) c };

    ghost keeps = { λ e. is_done e.reply };

    ghost paid = { λ q h lane c. ⊥ };

    ghost short = { λ r. false };

    ghost may_be_short = { λ q h lane c. ⊥ };

    ghost goes_in = { λ q h lane c g. Unit {0} };

    ghost comes_out = { λ q h lane c r g. Unit {0} };

    ghost owes = { λ q h. 0 };

    ghost hints = { λ m lane r lanes. Unit {0} };

    ghost short_is_not_kept = { λ e h. Prim.search h };

    ghost paid_is_not_short = { λ m h lane c s p. absurd p };

    ghost paid_stays = { λ m h more lane c s e p. p };

    ghost owes_less = { λ m h lane c s p k. absurd p };

    ghost owes_more = { λ m h lane c s k. Prim.search rules };

    ghost suits_still = { λ m h more lane c g s e p. tt };

    fn is_kept(_lane: u32, _call: &Ask, reply: &Answer) -> bool {
        match reply {
            Answer::Done => true,
            Answer::Idle => false,
        }
    }

    fn copy(reply: &Answer) -> Answer {
        *reply
    }

    fn turn(&mut self, _lane: u32, call: &Ask, put: Option<Nothing>) -> (Answer, Option<Nothing>)
        ensures answer { result.0 ≡ answer_to self.old.full call.now }
        ensures full { self.new.full
            ≡ (if is_done result.0 then fills call.now else self.old.full) }
    {
        let full = match call {
            Ask::Fill => true,
            Ask::Empty => false,
        };
        if self.full == full {
            return (Answer::Idle, put);
        }
        self.full = full;
        (Answer::Done, put)
    }

    /// Wakes the lanes with odd numbers to empty a full slot, and those with even numbers to fill an empty
    /// one.
    fn stirs(&self, _lane: u32, reply: &Answer) -> u128 {
        match reply {
            Answer::Done if self.full => EMPTIERS,
            Answer::Done => FILLERS,
            Answer::Idle => 0,
        }
    }

    fn owed(&self) -> u64 {
        0
    }
}

// The lanes with even numbers.
const FILLERS: u128 = u128::MAX / 3;
// The lanes with odd numbers.
const EMPTIERS: u128 = u128::MAX / 3 * 2;
