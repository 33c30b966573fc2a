//! The bench.
ghost use Rattle.std.specs.Prelude.{◌≡◌, ◌/◌, true, List, [], length, IfOk, IfErr};
ghost use Rattle.core_contract.specs.Ruled.{IsPaidAfter, answer_after, owes_after};
ghost use Rattle.plain_values.specs.declared.entry.Entry.{Entry};
ghost use Rattle.exec_journal.specs.declared.call.Call.{Call};
ghost use Rattle.exec_journal.specs.declared.reply.Reply.{Reply};
ghost use Rattle.exec_journal.specs.Entries.{is_kept};
ghost use Rattle.core_contract.specs.Moves.{move_in, shift_for};
ghost use Rattle.core_contract.specs.Laws.{is_short, says_file, StepReplies, StepStands};
ghost use Rattle.core_machine.specs.Objects.{AreFresh};
ghost use Rattle.core_machine.specs.Bench.{Lies, Remains, GoesIn, ComesOut};
ghost use Rattle.core_machine.specs.Waking.{Hints, LooksRound, Wakes};
ghost use Rattle.core_machine.specs.Shifts.{children_then, taps_then, places_then, good_then};
ghost use Rattle.core_machine.specs.BenchLaws.{short_not_kept, noted_not_short, suits_on, pays_one};

use crate::replies::copy_of;
use crate::shelf::{Good, Shelf};
use crate::waking::Waking;
use core_contract::{Rules, shift_of};
use exec_journal::{Call, Reply};
use outside::{Berth, Place};
use seat_desk::Machine;
use std::alloc::Global;

/// A scheduling core with a shelf, as the machine of a desk.
#[derive(Drop)]
pub struct Bench<B: Berth, P: Place, C: Rules> {
    core: C,
    shelf: Shelf<B::Child, B::Tap, P>,
    waking: Waking,
}

impl<B: Berth, P: Place, C: Rules> Bench<B, P, C> {
    /// Creates a bench of this core. Its shelf contains the places of all actions, in the order of
    /// the actions, and nothing else. All slots of the shelf are made here, so a turn only moves
    /// objects.
    ///
    /// # Errors
    ///
    /// Returns the places, unchanged, if memory runs out for the slots. The core is dropped.
    pub fn new(alloc: Global, core: C, places: Vec<P>) -> Result<Bench<B, P, C>, Vec<P>>
        requires core { C.stands core [] }
        requires places { AreFresh P.told (length (C.discipline (C.plan core)).plan.actions)
            places.items }
        ensures stands { IfOk result (λ b. ⟦<Bench<B, P, C> as Machine>⟧.stands b []) }
        ensures basis { IfOk result (λ b.
            ⟦<Bench<B, P, C> as Machine>⟧.basis b ≡ C.plan core) }
        ensures back { IfErr result (λ back. back.items ≡ places.items) }
    {
        match Shelf::new(alloc, core.berths() as usize, places) {
            Ok(shelf) => Ok(Bench {
                core,
                shelf,
                waking: Waking::new(),
            }),
            Err(places) => Err(places),
        }
    }

    /// Returns the core, each berth's tap if no lane has taken it, and each action's place if no
    /// lane has it. The function takes no memory.
    pub fn into_parts(self) -> (C, Vec<Option<B::Tap>>, Vec<Option<P>>)
        ensures basis { C.plan result.0 ≡ ⟦<Bench<B, P, C> as Machine>⟧.basis self }
        ensures parts { (h : List (Entry Call Reply))
            → ⟦<Bench<B, P, C> as Machine>⟧.stands self h → C.stands result.0 h
            × Remains B.Tap.told P.told (C.discipline (C.plan result.0)) h
            result.1.items result.2.items }
    {
        let Bench {
            core,
            shelf,
            waking: _,
        } = self;
        let Shelf {
            children: _,
            taps,
            places,
        } = shelf;
        (core, taps, places)
    }
}

impl<B: Berth, P: Place, C: Rules> Machine for Bench<B, P, C> {
    type Call = Call;

    type Reply = Reply;

    type Good = Good<B::Child, B::Tap, P>;

    type Basis = C::Plan;

    ghost basis = { λ m. C.plan m.core };

    ghost blank = { C.blank };

    ghost stands = { λ m h. C.stands m.core h × Lies B.Child.told B.Tap.told P.told
        (C.discipline (C.plan m.core)) h m.shelf.children.items m.shelf.taps.items
        m.shelf.places.items × Wakes (C.discipline (C.plan m.core)) h m.waking };

    ghost next = { λ q h lane c. answer_after (C.discipline q) h lane c };

    ghost keeps = { λ e. is_kept e.reply };

    ghost paid = { λ q h lane c. IsPaidAfter (C.discipline q) h lane c };

    ghost short = { is_short };

    ghost may_be_short = { λ q h lane c.
        says_file (answer_after (C.discipline q) h lane c) ≡ true };

    ghost goes_in = { λ q h lane c g. GoesIn B.Child.told B.Tap.told P.told (C.discipline q)
        h lane c g };

    ghost comes_out = { λ q h lane c r g. ComesOut B.Child.told B.Tap.told P.told (C.discipline q)
        h lane c r g };

    ghost owes = { λ q h. owes_after (C.discipline q) h };

    ghost hints = { λ m lane r hint. Hints (C.discipline (C.plan m.core)) m.waking r hint };

    ghost short_is_not_kept = { λ e s. short_not_kept e.reply s };

    ghost paid_is_not_short = { λ m h lane c s p. noted_not_short
        (answer_after (C.discipline (C.plan m.core)) h lane c)
        ((C.keeps (C.plan m.core)).paid_is_noted h lane c (C.came m.core h s.0) p) };

    ghost paid_stays = { λ m h more lane c s none p. (C.keeps (C.plan m.core)).paid_stays
        h more lane c none p };

    ghost owes_less = { λ m h lane c s p k. pays_one (owes_after (C.discipline (C.plan m.core)))
        h lane c (answer_after (C.discipline (C.plan m.core)) h lane c)
        ((C.keeps (C.plan m.core)).paid_is_noted h lane c (C.came m.core h s.0) p)
        ((C.keeps (C.plan m.core)).owes_less h lane c p) };

    ghost owes_more = { λ m h lane c s k. (C.keeps (C.plan m.core)).owes_more h lane c k };

    ghost suits_still = { λ m h more lane c g s none i. suits_on B.Child.told B.Tap.told P.told
        (C.discipline (C.plan m.core)) h more lane c g none
        ((C.keeps (C.plan m.core)).script_stays h more lane c none) i };

    fn is_kept(_lane: u32, _call: &Call, reply: &Reply) -> bool {
        reply.is_kept()
    }

    fn copy(reply: &Reply) -> Reply {
        copy_of(reply)
    }

    fn turn(
        &mut self,
        lane: u32,
        call: &Call,
        put: Option<Good<B::Child, B::Tap, P>>,
    ) -> (Reply, Option<Good<B::Child, B::Tap, P>>)
        ensures plan { C.plan self.new.core ≡ C.plan self.old.core }
        ensures reply { StepReplies C.stands (answer_after (C.discipline (C.plan self.old.core)))
            self.old.core lane call.now result.0 }
        ensures stands { StepStands C.stands self.old.core lane call.now result.0 self.new.core }
        ensures children { self.new.shelf.children.items
            ≡ children_then (shift_for (move_in lane call.now result.0)) (lane / 2) put
            self.old.shelf.children.items }
        ensures taps { self.new.shelf.taps.items
            ≡ taps_then (shift_for (move_in lane call.now result.0)) (lane / 2) put
            self.old.shelf.taps.items }
        ensures places { self.new.shelf.places.items
            ≡ places_then (shift_for (move_in lane call.now result.0)) put
            self.old.shelf.places.items }
        ensures good { result.1 ≡ good_then (shift_for (move_in lane call.now result.0)) (lane / 2)
            self.old.shelf.children.items self.old.shelf.taps.items self.old.shelf.places.items }
        ensures waking { LooksRound (C.news self.new.core)
            (C.discipline (C.plan self.new.core)).seats lane result.0
            self.old.waking self.new.waking }
    {
        let reply = self.core.step(lane, call);
        self.waking.look_round(&self.core, lane, &reply);
        let shift = shift_of(lane, call, &reply);
        let good = self.shelf.shift((lane / 2) as usize, shift, put);
        (reply, good)
    }

    fn stirs(&self, _lane: u32, reply: &Reply) -> u128 {
        self.waking.stirred_by(reply)
    }

    fn owed(&self) -> u64 {
        self.core.owed()
    }
}
