// The interface of a scheduling core for an auditor.
ghost use Rattle.std.specs.Prelude.{◌≡◌, ◌∷◌, List, [], IfOk, is_some, true};
ghost use Rattle.exec_journal.specs.Entry.{Entry};
ghost use Rattle.exec_journal.specs.declared.reply.Reply.{Reply};
ghost use Rattle.exec_journal.specs.Entries.{is_kept};
ghost use Rattle.exec_journal.specs.Legal.{after};
ghost use Rattle.exec_journal.specs.Paired.{Paired};
ghost use Rattle.exec_journal.specs.Race.{Race};
ghost use Rattle.journal_replay.specs.Knows.{Begins};
ghost use Rattle.journal_replay.specs.Legality.{Rulebook, joined};

use exec_journal::{Call, Plan, Reply};
use plain_values::NoMemory;
use std::alloc::Global;

/// The result of beginning a replay with the first line of a text.
#[derive(Drop)]
pub enum Begun<C: Drop> {
    /// The line spells nothing by which a replay begins.
    Misread,
    /// The basis that the line spells isn't sound.
    Unsound,
    /// The line spells a sound basis with this plan and so many lanes. The core hasn't been called yet.
    Going { core: C, plan: Plan, lanes: u32 },
}

/// A scheduling core with its own rules. It answers each call by them, and represents the journal of the calls so far. The
/// first line of a text spells the basis of the rules: a plan, or a plan on its berths.
pub trait Replayed: Drop {
    /// The data that the rules depend on. No value of it is made at run time.
    type Basis;

    /// What a first line spells, what is asked of that, and which journals the rules make.
    ghost rules: { Rulebook Self.Basis };

    /// The journal contains the calls that the core answered.
    ghost stands: { Self.Basis → Self → List Entry → Type 0 };

    /// Returns true if the line spells a basis.
    ///
    /// # Errors
    ///
    /// Returns `NoMemory` if memory runs out.
    fn spells(alloc: Global, line: &[u8]) -> Result<bool, NoMemory>
    where
        Self: Sized,
        ensures { IfOk result (λ b. b ≡ is_some (rules.spelled line.now)) };

    /// Begins a replay with a first line, without its line feed.
    ///
    /// # Errors
    ///
    /// Returns `NoMemory` if memory runs out.
    fn begin(alloc: Global, line: &[u8]) -> Result<Begun<Self>, NoMemory>
    where
        Self: Sized,
        ensures { IfOk result (Begins rules stands line.now) };

    /// Returns the reply to a call. The rules make the journal with no other reply.
    fn reply(&mut self, lane: u32, call: &Call) -> Reply
        ensures only { (b : Self.Basis) (j : List Entry) (x : Reply) → stands b self.old j
            → rules.makes b (joined j lane call.now x) → result ≡ x }
        ensures stands { (b : Self.Basis) (j : List Entry) → stands b self.old j
            → stands b self.new (after j lane call.now result) }
        ensures legal { (b : Self.Basis) (j : List Entry) → stands b self.new j
            → rules.makes b j }
        ensures race { (b : Self.Basis) (j : List Entry) → stands b self.new j → Race j }
        ensures paired { (b : Self.Basis) (j : List Entry) → stands b self.new j
            → Paired (rules.plan b) j };

    ghost none: { (b : Self.Basis) → rules.makes b [] };

    ghost fronts: { (b : Self.Basis) (e : Entry) (j : List Entry) → rules.makes b (e ∷ j)
        → rules.makes b j };

    ghost kept: { (b : Self.Basis) (e : Entry) (j : List Entry) → rules.makes b (e ∷ j)
        → is_kept e.reply ≡ true };
}
