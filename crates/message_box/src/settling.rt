//! The state that both lanes know once they have ended.
ghost use Rattle.std.specs.Prelude.{◌≡◌, ℕ, true, [], length};
ghost use Rattle.seat_desk.specs.Passes.{IsPassOf, IsRootOf, joined};
ghost use Rattle.message_box.specs.Sides.{state_at};

use crate::mailbox::Mailbox;
use seat_desk::{Desk, Pass, Root};

/// Takes both passes back and ends the desk. Both lanes have seen the mailbox in the same state, because
/// nothing changes once the taker has left.
pub fn settle<X: Drop, R>(
    rt: &R,
    desk: Desk<Mailbox<X>>,
    root: Root<Mailbox<X>>,
    reading: Pass<Mailbox<X>>,
    taking: Pass<Mailbox<X>>,
)
    requires desk { IsRootOf desk root × IsPassOf desk reading × IsPassOf desk taking }
    requires root { (root.made ≡ 2) × (joined root ≡ []) }
    requires left { ((state_at reading).left ≡ true) × ((state_at taking).left ≡ true) }
    ensures { state_at reading ≡ state_at taking }
{
    let mut root = root;
    desk.join_pass(rt, &mut root, reading);
    desk.join_pass(rt, &mut root, taking);
    let _ = desk.close(rt, root);
}
