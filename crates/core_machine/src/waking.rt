//! The lanes that have news, and those to which the newest call gave some.
ghost use Rattle.std.specs.Prelude.{◌≡◌, ◌≤◌, []};
ghost use Rattle.core_contract.specs.Discipline.{Discipline};
ghost use Rattle.core_machine.specs.Waking.{Hints, Looks, LooksRound, Wakes, lanes_of};

use crate::marks::{mark, stirred};
use core_contract::Rules;
use exec_journal::Reply;

/// The number of lanes in a span, a bit for each.
const SPAN: u32 = 128;

/// 128 lanes: bit `k` is the span's lane `k`.
#[derive(Clone, Copy, PartialEq, Eq)]
pub struct Span {
    /// The lanes that have news. Any other lane may get no more than Idle.
    pub(crate) with_news: u128,
    /// The lanes that got news by the newest recorded call.
    pub(crate) stirred: u128,
}

impl Span {
    const EMPTY: Span = Span {
        with_news: 0,
        stirred: 0,
    };

    // Checks which lanes the core has news for after a call of the caller's, and which of them had
    // none before: `count` lanes, of which the first has the number `first`.
    fn look<C: Rules>(self, core: &C, first: u32, count: u32, caller: u32) -> Span
        requires first { first ≤ 128 }
        requires count { count ≤ 128 }
        ensures { Looks (C.news core.now) first count caller self result }
    {
        let mut with_news = 0;
        for k in 0..count {
            with_news = mark(with_news, k, core.has_news(first + k));
        }
        Span {
            with_news,
            stirred: stirred(with_news, self.with_news, first, caller),
        }
    }
}

/// Up to 256 lanes, in two spans.
#[derive(Clone, Copy, PartialEq, Eq)]
pub struct Waking {
    /// The lanes below 128.
    pub(crate) near: Span,
    /// The lanes from 128 on.
    pub(crate) far: Span,
}

impl Waking {
    /// Returns the value before any call.
    pub(crate) fn new() -> Waking
        ensures { (q : Discipline) → Wakes q [] result }
    {
        Waking {
            near: Span::EMPTY,
            far: Span::EMPTY,
        }
    }

    /// Updates the value after a call of this lane with this reply. If the entry is recorded,
    /// checks which lanes the core has news for, and which of them had none before.
    pub(crate) fn look_round<C: Rules>(&mut self, core: &C, caller: u32, reply: &Reply)
        ensures { LooksRound (C.news core.now) (C.discipline (C.plan core.now)).seats
            caller reply.now self.old self.new }
    {
        if !reply.is_kept() {
            return;
        }
        let berths = core.berths();
        let far = lanes_of(berths.saturating_sub(SPAN / 2));
        self.near = self.near.look(core, 0, lanes_of(berths), caller);
        self.far = self.far.look(core, SPAN, far, caller);
    }

    /// Returns the hint after a call with this reply: bit `k` stands for each lane that got news by
    /// it and whose number is `k` modulo 128.
    pub(crate) fn stirred_by(&self, reply: &Reply) -> u128
        ensures { (q : Discipline) → Hints q self.now reply.now result }
    {
        if reply.is_kept() {
            self.near.stirred | self.far.stirred
        } else {
            0
        }
    }
}

// Returns the number of lanes of these berths, at most a span.
fn lanes_of(berths: u32) -> u32
    ensures all { result ≡ lanes_of berths }
    ensures most { result ≤ 128 }
{
    if berths < SPAN / 2 { 2 * berths } else { SPAN }
}
