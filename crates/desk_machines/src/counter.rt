//! A machine that adds modulo a number that is known only at run time.
ghost use Rattle.std.specs.Prelude.{◌≡◌, ◌+◌, ◌%◌, ◌<◌, true, false, List, [], ℕ};
ghost use Rattle.plain_values.specs.declared.entry.Entry.{Entry};
ghost use Rattle.std.proofs.Common.{rules};
ghost use Rattle.desk_machines.specs.CounterSums.{sum_so_far, stays, is_short, MayBeShort, IsSum, IsTurn};
ghost use Rattle.desk_machines.specs.CounterLaws.{short_goes};

use crate::nothing::Nothing;
use seat_desk::Machine;

/// A call of a counter.
#[derive(Drop, Clone, Copy)]
pub enum Ask {
    /// Adds this number.
    Add(u64),
    /// Asks for the sum so far.
    Look,
}

/// The reply to a call.
#[derive(Drop, Clone, Copy)]
pub enum Answer {
    /// The sum so far, modulo the counter's modulus.
    Sum(u64),
    /// There was no room for a reply. Only a Look may get this.
    NoRoom,
}

/// A counter that adds numbers modulo its own modulus, which is its rules.
#[derive(Drop)]
pub struct Counter {
    pub modulus: u64,
    /// The sum so far, modulo the modulus.
    pub sum: u64,
    /// The number of looks that there is room for.
    pub room: u64,
}

impl Machine for Counter {
    type Call = Ask;

    type Reply = Answer;

    type Good = Nothing;

    type Basis = u64;

    ghost basis = { λ m. m.modulus };

    ghost blank = { 0 };

    ghost stands = { λ m h. IsSum m.modulus m.sum h };

    ghost next = { λ q h lane c. sum_so_far q h c };

    ghost keeps = { λ e. stays e.call e.reply };

    ghost paid = { λ q h lane c. ⊥ };

    ghost short = { is_short };

    ghost may_be_short = { λ q h lane c. MayBeShort c };

    ghost goes_in = { λ q h lane c g. Unit {0} };

    ghost comes_out = { λ q h lane c r g. Unit {0} };

    ghost owes = { λ q h. 0 };

    ghost hints = { λ m lane r lanes. lanes ≡ 0 };

    ghost short_is_not_kept = { λ e s. short_goes e.call e.reply s };

    ghost paid_is_not_short = { λ m h lane c s p. absurd p };

    ghost paid_stays = { λ m h more lane c s e p. p };

    ghost owes_less = { λ m h lane c s p k. absurd p };

    ghost owes_more = { λ m h lane c s k. Prim.search rules };

    ghost suits_still = { λ m h more lane c g s e p. tt };

    fn is_kept(_lane: u32, call: &Ask, reply: &Answer) -> bool {
        match (*call, *reply) {
            (Ask::Add(_), Answer::Sum(_)) => true,
            (Ask::Add(_), Answer::NoRoom) => false,
            (Ask::Look, _) => false,
        }
    }

    fn copy(reply: &Answer) -> Answer {
        *reply
    }

    fn turn(&mut self, _lane: u32, call: &Ask, put: Option<Nothing>) -> (Answer, Option<Nothing>)
        requires { 0 < self.old.modulus }
        ensures basis { self.new.modulus ≡ self.old.modulus }
        ensures turn { IsTurn self.old.modulus self.old.sum call.now result.0 self.new.sum }
    {
        match *call {
            Ask::Add(n) => {
                let sum = (u128::from(self.sum) + u128::from(n)) % u128::from(self.modulus);
                self.sum = sum as u64;
                (Answer::Sum(self.sum), put)
            }
            Ask::Look => {
                if self.room == 0 {
                    return (Answer::NoRoom, put);
                }
                self.room -= 1;
                (Answer::Sum(self.sum), put)
            }
        }
    }

    fn stirs(&self, _lane: u32, _reply: &Answer) -> u128 {
        0
    }

    fn owed(&self) -> u64 {
        0
    }
}

impl Counter {
    /// Returns a counter that has added nothing, with room for `room` looks.
    pub fn new(modulus: u64, room: u64) -> Counter
        requires { 0 < modulus }
        ensures numbers { (result.modulus ≡ modulus) × (result.room ≡ room) }
        ensures sum { IsSum modulus result.sum [] }
    {
        Counter {
            modulus,
            sum: 0,
            room,
        }
    }
}
