//! A machine with goods: one shelf, on which a lane leaves a token that only this lane may take or borrow.
ghost use Rattle.std.specs.Prelude.{◌≡◌, ◌+◌, ℕ, List, [], ◌∷◌, ◌++◌, true, false, Option, Some, None, IsSome};
ghost use Rattle.std.proofs.Common.{sym, refl};
ghost use Rattle.desk_machines.specs.Shelf.{reply_of, spot_then, spot_of, changes, GoesIn, ComesOut, Fits, owes_by, IsPaid, stirred_by};
ghost use Rattle.seat_desk.specs.History.{entry};
ghost use Rattle.desk_machines.specs.ShelfLaws.{true_not_false, paid_still, less_owed, more_owed};

use crate::nothing::Nothing;
use seat_desk::Machine;

/// A call of a locker.
#[derive(Drop, Clone, Copy)]
pub enum Ask {
    /// Leaves a token, which is handed over with the call.
    Leave,
    /// Takes the lane's token away.
    Take,
    /// Borrows the lane's token.
    Borrow,
    /// Returns the token that the lane borrowed. The token is handed over with the call.
    Return,
}

/// The reply to a call.
#[derive(Drop, Clone, Copy)]
pub enum Answer {
    /// The token is on the shelf.
    Left,
    /// The token was not accepted, and is returned.
    Busy,
    /// The token is handed out, and the shelf is empty.
    Taken,
    /// The lane has no token.
    Nothing,
    /// The token is handed out, and must be returned.
    Lent,
    /// The token is on the shelf again.
    Returned,
}

/// The owner of the token that is on the shelf, or was lent from it.
#[derive(Drop, Clone, Copy)]
pub enum Spot {
    /// There is no token.
    Empty,
    /// The token is there, and belongs to this lane.
    Here(u32),
    /// This lane has borrowed the token.
    Away(u32),
}

/// The contents of the shelf.
#[derive(Drop)]
pub struct Token {
    pub number: u64,
}

/// One shelf. A token that is there or was borrowed must be returned to its lane, so its `Take` and its
/// `Return` are paid for.
#[derive(Drop)]
pub struct Locker {
    /// The owner of the token.
    pub spot: Spot,
    /// The contents of the shelf.
    pub shelf: Option<Token>,
}

impl Machine for Locker {
    type Call = Ask;

    type Reply = Answer;

    type Good = Token;

    type Basis = Nothing;

    ghost basis = { λ m. record {} };

    ghost blank = { record {} };

    ghost stands = { λ m h. (m.spot ≡ spot_of h) × Fits m.spot m.shelf };

    ghost next = { λ q h lane c. reply_of (spot_of h) lane c };

    ghost keeps = { λ e. changes e.reply };

    ghost paid = { λ q h lane c. IsPaid (spot_of h) lane c };

    ghost short = { λ r. false };

    ghost may_be_short = { λ q h lane c. ⊥ };

    ghost goes_in = { λ q h lane c g. GoesIn c g };

    ghost comes_out = { λ q h lane c r g. ComesOut r g };

    ghost owes = { λ q h. owes_by (spot_of h) };

    ghost hints = { λ m lane r lanes. lanes ≡ stirred_by r };

    ghost short_is_not_kept = { λ e h. absurd (true_not_false (sym h)) };

    ghost paid_is_not_short = { λ m h lane c s p. ((λ x. x), refl) };

    ghost paid_stays = { λ m h more lane c s none p. paid_still h more lane c none p };

    ghost owes_less = { λ m h lane c s p k. less_owed h lane c p };

    ghost owes_more = { λ m h lane c s k. more_owed h (entry lane c (reply_of
        (spot_of h) lane c)) };

    ghost suits_still = { λ m h more lane c g s e p. p };

    fn is_kept(_lane: u32, _call: &Ask, reply: &Answer) -> bool {
        match reply {
            Answer::Left | Answer::Taken | Answer::Lent | Answer::Returned => true,
            Answer::Busy | Answer::Nothing => false,
        }
    }

    fn copy(reply: &Answer) -> Answer {
        *reply
    }

    fn turn(&mut self, lane: u32, call: &Ask, put: Option<Token>) -> (Answer, Option<Token>)
        requires { Fits self.old.spot self.old.shelf × GoesIn call.now put }
        ensures reply { result.0 ≡ reply_of self.old.spot lane call.now }
        ensures spot { self.new.spot ≡ spot_then self.old.spot lane result.0 }
        ensures shelf { Fits self.new.spot self.new.shelf }
        ensures good { ComesOut result.0 result.1 }
    {
        match (*call, self.spot) {
            (Ask::Leave, Spot::Empty) => {
                self.spot = Spot::Here(lane);
                self.shelf = put;
                (Answer::Left, None)
            }
            (Ask::Take, Spot::Here(owner)) if owner == lane => {
                self.spot = Spot::Empty;
                (Answer::Taken, self.shelf.take())
            }
            (Ask::Borrow, Spot::Here(owner)) if owner == lane => {
                self.spot = Spot::Away(owner);
                (Answer::Lent, self.shelf.take())
            }
            (Ask::Return, Spot::Away(owner)) if owner == lane => {
                self.spot = Spot::Here(owner);
                self.shelf = put;
                (Answer::Returned, None)
            }
            (Ask::Leave | Ask::Return, _) => (Answer::Busy, put),
            (Ask::Take | Ask::Borrow, _) => (Answer::Nothing, None),
        }
    }

    /// Wakes all lanes once the shelf is empty, because any lane may then leave a token.
    fn stirs(&self, _lane: u32, reply: &Answer) -> u128 {
        match reply {
            Answer::Taken => u128::MAX,
            _ => 0,
        }
    }

    fn owed(&self) -> u64 {
        match self.spot {
            Spot::Empty => 0,
            Spot::Here(_) => 1,
            Spot::Away(_) => 2,
        }
    }
}

impl Locker {
    /// Returns an empty shelf.
    pub fn new() -> Locker
        ensures { (result.spot ≡ Spot.Empty) × (result.shelf ≡ None) }
    {
        Locker {
            spot: Spot::Empty,
            shelf: None,
        }
    }
}
