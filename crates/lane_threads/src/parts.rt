//! Values of one kind and at most one of another, in one list and apart again.
ghost use Rattle.std.specs.Prelude.{◌≡◌, ◌+◌, length};
ghost use Rattle.lane_threads.specs.Jobs.{HasRoomFor};
ghost use Rattle.lane_threads.specs.Parts.{HasParts, in_one_list};

use crate::pair::Either;
use std::collections::VecDeque;

// Puts the others into a list, followed by the extra one. The function takes no memory.
pub(crate) fn lay_together<A: Drop, B: Drop>(
    others: Vec<A>,
    beside: Option<B>,
    all: &mut Vec<Either<A, B>>,
)
    requires { HasRoomFor (length others.items + 1) all.old }
    ensures { all.new.items ≡ in_one_list others.items beside }
{
    let mut rest = VecDeque::from_vec(others);
    while let Some(other) = rest.pop_front() {
        all.push_reserved(Either::First(other));
    }
    if let Some(beside) = beside {
        all.push_reserved(Either::Second(beside));
    }
}

// Takes the others out of the list, and returns the extra one, which is the last if there is one.
// The function takes no memory.
pub(crate) fn take_apart<A: Drop, B: Drop>(all: Vec<Either<A, B>>, others: &mut Vec<A>) -> Option<B>
    requires parts { HasParts all.items }
    requires room { HasRoomFor (length all.items) others.old }
    ensures { all.items ≡ in_one_list others.new.items result }
{
    let mut rest = VecDeque::from_vec(all);
    while let Some(one) = rest.pop_front() {
        match one {
            Either::First(other) => others.push_reserved(other),
            Either::Second(beside) => return Some(beside),
        }
    }
    None
}
