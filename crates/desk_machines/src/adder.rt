//! A machine that adds.
ghost use Rattle.std.specs.Prelude.{◌≡◌, ◌+◌, ◌%◌, ◌^◌, true, false, List, ℕ};
ghost use Rattle.std.proofs.Common.{rules};
ghost use Rattle.desk_machines.specs.AdderSums.{added, SumsFrom};

use crate::nothing::Nothing;
use seat_desk::Machine;

/// A number to add.
#[derive(Drop, Clone, Copy)]
pub struct Add {
    pub number: u64,
}

/// An adder of numbers modulo 2^64. The reply to each call is the sum so far.
#[derive(Drop)]
pub struct Adder {
    pub sum: u64,
}

impl Machine for Adder {
    type Call = Add;

    type Reply = u64;

    type Good = Nothing;

    type Basis = Nothing;

    ghost basis = { λ m. record {} };

    ghost blank = { record {} };

    ghost stands = { λ m h. (m.sum ≡ added h % 2 ^ 64) × SumsFrom 0 h };

    ghost next = { λ q h lane c. (added h + c.number) % 2 ^ 64 };

    ghost keeps = { λ e. true };

    ghost paid = { λ q h lane c. ⊥ };

    ghost short = { λ r. false };

    ghost may_be_short = { λ q h lane c. ⊥ };

    ghost goes_in = { λ q h lane c g. Unit {0} };

    ghost comes_out = { λ q h lane c r g. Unit {0} };

    ghost owes = { λ q h. 0 };

    ghost hints = { λ m lane r lanes. lanes ≡ 0 };

    ghost short_is_not_kept = { λ e h. Prim.search h };

    ghost paid_is_not_short = { λ m h lane c s p. absurd p };

    ghost paid_stays = { λ m h more lane c s e p. p };

    ghost owes_less = { λ m h lane c s p k. absurd p };

    ghost owes_more = { λ m h lane c s k. Prim.search rules };

    ghost suits_still = { λ m h more lane c g s e p. tt };

    fn is_kept(_lane: u32, _call: &Add, _reply: &u64) -> bool {
        true
    }

    fn copy(reply: &u64) -> u64 {
        *reply
    }

    fn turn(&mut self, _lane: u32, call: &Add, put: Option<Nothing>) -> (u64, Option<Nothing>)
        ensures { (result.0 ≡ self.new.sum)
            × (self.new.sum ≡ (self.old.sum + call.now.number) % 2 ^ 64) }
    {
        self.sum = self.sum.wrapping_add(call.number);
        (self.sum, put)
    }

    fn stirs(&self, _lane: u32, _reply: &u64) -> u128 {
        0
    }

    fn owed(&self) -> u64 {
        0
    }
}

impl Adder {
    /// Returns an adder that has added nothing.
    pub fn new() -> Adder
        ensures { result.sum ≡ 0 }
    {
        Adder { sum: 0 }
    }
}
