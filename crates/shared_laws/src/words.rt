//! The order in which berths last reported.
ghost use Rattle.std.specs.Prelude.{ℕ, List, []};
ghost use Rattle.exec_journal.specs.declared.call.Call.{Call};
ghost use Rattle.exec_journal.specs.declared.reply.Reply.{Reply};
ghost use Rattle.exec_journal.specs.Entry.{Entry};
ghost use Rattle.exec_journal.specs.Legal.{after};
ghost use Rattle.core_contract.specs.Disciplines.{LegalBy};
ghost use Rattle.placed_rules.specs.declared.pools.SharedPlan.{SharedPlan};
ghost use Rattle.placed_rules.specs.Pools.{seats};
ghost use Rattle.placed_rules.specs.Placed.{shared_discipline};
ghost use Rattle.shared_laws.specs.Spoken.{IsSpoken, berths_from, noted};

/// The order in which berths last reported follows the journal.
pub fn words_are_noted()
    ensures begins { (q : SharedPlan) → IsSpoken (seats q) [] (berths_from 0 (seats q)) }
    ensures stays { (q : SharedPlan) (j : List Entry) (ws : List ℕ) (lane : ℕ) (c : Call)
        (r : Reply) → LegalBy (shared_discipline q) (after j lane c r)
        → IsSpoken (seats q) j ws → IsSpoken (seats q) (after j lane c r) (noted ws lane c r) }
{}
