//! The steps on the table, and what the seat that makes each step learns from it.
ghost use Rattle.seat_desk.specs.Helds.{log_of, IsGood};
ghost use Rattle.seat_desk.specs.Turns.{TellsDraw, TellsLook, TellsEnd, TellsGather, root_after_split, new_pass_view, root_after_join, view_gone};

use crate::held::Held;
use crate::machine::Machine;
use crate::view::View;
use atomic_table::{Join, Play, Split};
use std::marker::PhantomData;

/// The step that draws a ticket.
pub(crate) struct Draw<M> {
    machine: PhantomData<M>,
}

impl<M: Machine> Play<Option<Held<M, M::Call, M::Reply>>, View<M::Call, M::Reply, M::Basis>>
    for Draw<M> {
    ghost then = { λ _. TellsDraw log_of (IsGood M.basis M.stands M.owes) };
}

/// The step that checks if the ticket is served, and takes the slot if it is.
pub(crate) struct Look<M> {
    machine: PhantomData<M>,
}

impl<M: Machine> Play<Option<Held<M, M::Call, M::Reply>>, View<M::Call, M::Reply, M::Basis>>
    for Look<M> {
    ghost then = { λ _. TellsLook log_of (IsGood M.basis M.stands M.owes) };
}

/// The step that ends the turn: the next ticket is served.
pub(crate) struct End<M> {
    machine: PhantomData<M>,
}

impl<M: Machine> Play<Option<Held<M, M::Call, M::Reply>>, View<M::Call, M::Reply, M::Basis>>
    for End<M> {
    ghost then = { λ _. TellsEnd log_of (IsGood M.basis M.stands M.owes) };
}

/// The step by which the root looks at the history so far.
pub(crate) struct Gather<M> {
    machine: PhantomData<M>,
}

impl<M: Machine> Play<Option<Held<M, M::Call, M::Reply>>, View<M::Call, M::Reply, M::Basis>>
    for Gather<M> {
    ghost then = { λ _. TellsGather log_of (IsGood M.basis M.stands M.owes) };
}

/// The split of a new pass's seat from the root's seat.
pub(crate) struct Cut;

impl<C, R, Q> Split<View<C, R, Q>> for Cut {
    ghost left = { root_after_split };

    ghost right = { new_pass_view };
}

/// The join of a pass's seat to the root's seat.
pub(crate) struct Glue<M> {
    machine: PhantomData<M>,
}

impl<M: Machine> Join<View<M::Call, M::Reply, M::Basis>> for Glue<M> {
    ghost both = { root_after_join };

    ghost spent = { view_gone M.blank };
}
