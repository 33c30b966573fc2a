//! A lane that borrows its token, stamps it and puts it back, in one turn.
ghost use Rattle.std.specs.Prelude.{◌≡◌, [], ◌∷◌, ◌++◌, IfOk};
ghost use Rattle.seat_desk.specs.Passes.{IsPassOf, mine, seen};
ghost use Rattle.seat_desk.specs.History.{entry};
ghost use Rattle.desk_machines.specs.Shelf.{spot_of};
ghost use Rattle.desk_machines.specs.Stamps.{answer_to};

use crate::locker::{Answer, Ask, Locker, Spot, Token};
use plain_values::NoMemory;
use seat_desk::{Desk, Pass, Then};
use std::sync::Wait;

/// A step that raises the number of a lent token and requires that the token be put back.
#[derive(Drop)]
pub struct Stamp;

impl Then<Locker> for Stamp {
    ghost meets = { λ work reply good answer work'. answer ≡ answer_to reply good };

    fn then(&mut self, reply: &Answer, good: Option<Token>) -> Option<(Ask, Option<Token>)>
        ensures { result ≡ answer_to reply.now good }
    {
        match (*reply, good) {
            (Answer::Lent, Some(token)) => {
                let number = token.number.wrapping_add(1);
                Some((Ask::Return, Some(Token { number })))
            }
            (_, _) => None,
        }
    }
}

/// Borrows the lane's token, raises its number and puts it back, in one turn. The history contains both
/// calls, one right after the other, and the token is still there.
///
/// # Errors
///
/// Returns `NoMemory` if memory runs out for the calls. Then no call was made.
pub fn stamp_token<R: Wait>(
    rt: &R,
    desk: &Desk<Locker>,
    pass: &mut Pass<Locker>,
) -> Result<(), NoMemory>
    requires desk { IsPassOf desk.now pass.old }
    requires lies { spot_of (seen pass.old) ≡ Spot.Here pass.old.lane }
    ensures desk { IsPassOf desk.now pass.new }
    ensures lane { pass.new.lane ≡ pass.old.lane }
    ensures lies { IfOk result (λ _. spot_of (seen pass.new) ≡ Spot.Here pass.old.lane) }
    ensures mine { IfOk result (λ _. mine pass.new ≡ mine pass.old
        ++ entry pass.old.lane Ask.Borrow Answer.Lent
        ∷ entry pass.old.lane Ask.Return Answer.Returned ∷ []) }
{
    let mut work = Stamp;
    match desk.call_then(rt, pass, Ask::Borrow, &mut work) {
        Ok(_) => Ok(()),
        Err(_) => Err(NoMemory),
    }
}
