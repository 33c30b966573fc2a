//! The policies that a first line opens.
ghost use Rattle.std.specs.Prelude.{◌≡◌, ◌*◌, List, IfOk, is_some};
ghost use Rattle.exec_journal.specs.Entry.{Entry};
ghost use Rattle.core_contract.specs.Disciplines.{LegalBy};
ghost use Rattle.journal_replay.specs.Legality.{Rulebook};
ghost use Rattle.journal_audit.specs.Opening.{IsOpened};

use exec_journal::Plan;
use plain_values::NoMemory;
use spawn_core::Policy;
use std::alloc::Global;

/// The result of opening a policy with the first line of a text.
#[derive(Drop)]
pub enum Opened<P: Drop> {
    /// The line spells no basis of the policy.
    Misread,
    /// The basis that the line spells isn't sound.
    Unsound,
    /// The policy of a sound basis, before any call, and the plan twice.
    Ready { policy: P, plan: Plan, twin: Plan },
}

/// A policy whose basis the first line of a text spells.
pub trait Opens: Policy {
    // What a first line spells, and the journals that the policy's discipline makes of it.
    ghost rules: { Rulebook Self.Basis };

    /// Returns true if the line spells a basis.
    ///
    /// # Errors
    ///
    /// Returns `NoMemory` if memory runs out.
    fn spells(alloc: Global, line: &[u8]) -> Result<bool, NoMemory>
        ensures { IfOk result (λ b. b ≡ is_some (rules.spelled line.now)) };

    /// Makes the policy of the basis that a first line spells, without its line feed.
    ///
    /// # Errors
    ///
    /// Returns `NoMemory` if memory runs out.
    fn open(alloc: Global, line: &[u8]) -> Result<Opened<Self>, NoMemory>
        ensures { IfOk result (IsOpened rules Self.basis Self.stands line.now) };

    // The plan and the lanes are those of its discipline.
    ghost plan_fits: { (b : Self.Basis) → rules.plan b ≡ (Self.discipline b).plan };

    ghost lanes_fit: { (b : Self.Basis) → rules.lanes b ≡ 2 * (Self.discipline b).seats };

    // The journals that are made are those that are legal by its discipline.
    ghost makes_legal: { (b : Self.Basis) (j : List Entry) → rules.makes b j
        → LegalBy (Self.discipline b) j };

    ghost legal_makes: { (b : Self.Basis) (j : List Entry) → LegalBy (Self.discipline b) j
        → rules.makes b j };
}
