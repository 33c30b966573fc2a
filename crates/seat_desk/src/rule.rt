//! The rule of the desk's table. Word 0 is the next ticket, word 1 is the ticket that is served,
//! and the slot contains the machine with its history.
ghost use Rattle.seat_desk.specs.Helds.{log_of, IsGood};
ghost use Rattle.seat_desk.specs.Turns.{Kept, first_view};

use crate::held::Held;
use crate::machine::Machine;
use crate::view::View;
use atomic_table::TableRule;
use std::marker::PhantomData;
use std::snapshot::Snapshot;

/// The rule. Its key is the machine that first goes into the slot, from which the root's first view
/// takes the basis.
pub struct Turns<M> {
    machine: PhantomData<M>,
}

impl<M: Machine> TableRule<
    Option<Held<M, M::Call, M::Reply>>,
    View<M::Call, M::Reply, M::Basis>,
    Snapshot<M>,
> for Turns<M> {
    ghost holds = { λ _. Kept log_of (IsGood M.basis M.stands M.owes) };

    ghost first = { λ key. first_view (M.basis key.value) };
}
